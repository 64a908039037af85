#![tactic(auto)]

pub mod fault;
pub mod finding;
mod priced;
mod sums;
pub mod window;
