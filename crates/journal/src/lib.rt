// The redo log: its two forms, what it denotes, when it is not sound, when two are tied, the oldest of some; the words of copies that
// differ from home; writing a log, what it denotes going home, and how many entries these list. Everything here is for the crates above
// alone: the functions say what they need.
#![tactic(auto)]

mod changes;
mod lengths;
mod log;
mod logs;
mod replay;
mod scan;
mod slot;

pub use changes::{Change, Changes, gather};
pub use lengths::{replay_length, seal_length, settle_length};
pub use log::write_log;
pub use logs::{tied, unsound};
pub use replay::{put_denoted, put_homes};
pub use scan::{occupied, oldest_log};
