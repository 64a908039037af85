#![tactic(auto)]

pub mod fault;
pub mod held;
pub mod listing;
pub mod lookup;
