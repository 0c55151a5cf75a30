// Finish, settle and reclaim: a transaction's log is written, its copies go home, and its slot is emptied.
#![tactic(auto)]

mod copies;
mod finishing;
mod reclaiming;
mod settling;

pub use finishing::finish;
pub use reclaiming::{Reclaimed, reclaim};
pub use settling::settle;
