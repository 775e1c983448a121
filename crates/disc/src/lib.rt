// A disc in lent bytes: blocks that are written as long as there is power, how files lie in them, which discs are taken, and how one is made and read.
#![tactic(auto)]

pub mod blocks;
pub mod check;
pub mod files;
pub mod format;
pub mod layout;
pub mod plan;
pub mod read;
