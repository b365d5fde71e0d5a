// The sheet: a decision as lines of text.
#![tactic(auto)]

mod blocks;
mod text;

pub use text::{lines_following, write_decision};
