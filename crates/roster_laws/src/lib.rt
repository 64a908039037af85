#![tactic(auto)]

pub mod changes;
