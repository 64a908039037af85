#![tactic(auto)]

pub mod code;
pub mod futures;
pub mod series;
