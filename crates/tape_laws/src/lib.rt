#![tactic(auto)]

pub mod both;
pub mod copy;
pub mod write;
