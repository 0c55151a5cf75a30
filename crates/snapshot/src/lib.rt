// Read and write: what a session sees of a record, and its own copies. Neither stores to the image. What `seeing`
// has is public for the crates above.
#![tactic(auto)]

mod copies;
mod reading;
mod seeing;
mod writing;

pub use reading::read;
pub use seeing::{Sight, Source, marked_session, seen};
pub use writing::write;
