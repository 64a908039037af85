//! One trading day under any limit rule: opening, marks, ticks, looks and orders.
#![tactic(auto)]

mod calls;
mod day;
mod fault;
mod mark;
mod options;
mod order;
mod orders;
mod terms;
mod view;

pub use day::Day;
pub use fault::{OpenFault, Refusal};
pub use mark::Mark;
pub use order::{FutureOrder, OptionOrder};
pub use view::View;
