// Opening an image, and recovery on an image alone.
#![tactic(auto)]

mod opening;
mod recovering;

pub use opening::open;
pub use recovering::{RecoverReply, recover};
