//! What a limit rule is, and the limits that any such rule sets around a price. No rule is named here.
#![tactic(auto)]

mod bounds;
mod multiples;
mod rule;

pub use bounds::Bounds;
pub use rule::{LimitRule, rounded, takes};
