//! The promise about two days of one rule and one reference request, and the edge cases of the rules.
#![tactic(auto)]

mod edges;
mod pair;
mod plan;
mod run;

pub use edges::edge_cases;
pub use pair::pair_days;
pub use plan::DayPlan;
pub use run::{DayRun, RunFault};
pub use tape_laws::both::Pair;
