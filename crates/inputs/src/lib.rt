// What people and programs feed to the machine: rows of events, as bytes or as text, and lists from which discs are made.
#![tactic(auto)]

pub mod events;
mod lines;
pub mod lists;
pub mod messages;
mod numbers;
pub mod refusals;
pub mod scripts;
