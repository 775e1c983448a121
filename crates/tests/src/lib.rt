// Examples of what the crates do, run by the gate. They stand here and not beside the code, since a crate that has tests is proved twice.
#![tactic(auto)]

#[cfg(test)]
mod disc_tests;
#[cfg(test)]
mod inputs_tests;
#[cfg(test)]
mod instructions_tests;
#[cfg(test)]
mod paging_tests;
#[cfg(test)]
mod queues_tests;
