//! Replicas of a sheet that are edited apart, and the promise about two of them.
#![tactic(auto)]

mod call;
mod play;

pub use call::{Answer, Call};
pub use play::{Played, apply, play_both};
