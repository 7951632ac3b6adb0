//! References: decoding the raw text of an XML attribute value into characters.
#![tactic(auto)]

mod characters;
mod decoder;
mod reference;
mod refusals;

pub use characters::Characters;
pub use decoder::{check, decode};
pub use refusals::{DecodeRefusal, Malformed};
