// What programs that take turns see of a machine, and what holds of it. The definitions are in specs/, the theorems are the contracts in `theorems`.
#![tactic(auto)]

pub mod numbers;
pub mod promise;
pub mod sizes;
pub mod theorems;
pub mod vocabulary;
