// The record store: every call that users make, handed on from the crate that has it. Begin, publish, `publish_group` and abandon are
// methods of `Desk`.
#![tactic(auto)]

pub use commit::{Reclaimed, finish, reclaim, settle};
pub use desk::{Desk, Phase, RecordCopy, Reply, Session, StoringReply};
pub use layout::{Refusal, lay};
pub use recovery::{RecoverReply, open, recover};
pub use snapshot::{Sight, Source, read, write};
