// How the words of a script read and print: numbers, prices, symbols, bytes and refusals.
#![tactic(auto)]

mod forms;
mod hex;
mod numbers;
mod prices;
mod refusals;
mod symbols;

pub use hex::{HexBytes, read_bytes};
pub use numbers::read_number;
pub use prices::{NotPrice, Price};
pub use refusals::{NotRefusal, Refusal};
pub use symbols::{Symbol, read_symbol};
