// The volatile transaction table, its coherence, the first checks of the calls that take it, and begin, publish (of one session and of a
// set) and abandon.
#![tactic(auto)]

mod abandon;
mod begin;
mod coherence;
mod entering;
mod group;
mod publish;
mod reply;
mod session;
mod state;

pub use coherence::LIMIT;
pub use entering::{check_entry, check_record};
pub use reply::{Reply, StoringReply};
pub use session::{leave, unmark};
pub use state::{Desk, Phase, RecordCopy, Session};
