//! Calls on a trading day as values, and whole runs of them.
#![tactic(auto)]

mod call;
mod giving;
mod playing;

pub use call::{Action, Call};
pub use giving::{Answer, give};
pub use playing::{Outcome, Played, play};
