// The step stream's bytes: the step that starts some bytes. `word` is public for the crates above: it asks for eight bytes.
#![tactic(auto)]

mod decoding;
mod step;

pub use decoding::{Found, decode, word};
pub use step::Step;
