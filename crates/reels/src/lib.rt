// Reel records (document 02, Req 02 and 07): what the four words of a record mean to the archives. The library stands above the store and
// relies on its contracts alone.
#![tactic(auto)]

mod packing;
mod reading;
mod reel;
mod tape;
mod unpacking;
mod writing;

pub use packing::pack;
pub use reading::{ReadReelReply, read};
pub use reel::{Reel, reel_of, shelved, words_of};
pub use tape::tape_length;
pub use unpacking::{Contents, unpack};
pub use writing::write;
