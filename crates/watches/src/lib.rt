//! The watches, halts and levels of one trading day, as they move in time and take marks.
//! Nothing is known here of prices and limits but the number of levels.
#![tactic(auto)]

mod ends;
mod state;
mod watches;

pub use state::{AcceptedMark, Band, Kind, Phase, Side, State, Watch};
pub use watches::Watches;
