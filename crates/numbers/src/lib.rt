//! Whole numbers and decimals as attributes write them.
#![tactic(auto)]

mod decimals;
mod digits;
mod rounding;
mod wholes;
mod widths;

pub use decimals::decimal;
pub use wholes::whole;
pub use widths::Whole;
