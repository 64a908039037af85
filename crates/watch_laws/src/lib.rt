//! A day is what its accepted marks read.
#![tactic(auto)]

mod reading;

pub use reading::read_marks;
