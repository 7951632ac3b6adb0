//! Attribute text: the items of an element, their checks, and look-up of a key.
#![tactic(auto)]

mod attributes;
mod bytes;
mod fault;
mod item;
mod seen;

pub use attributes::Attributes;
pub use fault::{Fault, Flaw};
pub use item::Item;
