// A step applied to a store, and a cut in it.
#![tactic(auto)]

mod applying;
mod cut;

pub use applying::{Applied, apply};
pub use cut::{cut_back, keep};
