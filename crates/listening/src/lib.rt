// The listening room's calls (document 02, Req 03): begin, read and finish as the store's, and find a reel by its shelf number; read, finish
// and find are for sessions that hold no copies. The library stands above the store.
#![tactic(auto)]

mod beginning;
mod finding;
mod finishing;
mod listener;
mod reading;

pub use beginning::begin;
pub use finding::find;
pub use finishing::finish;
pub use reading::read;
