//! The three named limit rules.
#![tactic(auto)]

mod daily;
mod fault;
mod monthly;
mod offsets;
mod quarterly;
mod worked;

pub use daily::Daily;
pub use fault::RuleFault;
pub use monthly::Monthly;
pub use quarterly::Quarterly;
pub use worked::worked_offsets;
