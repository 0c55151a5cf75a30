// The printed report (document 02, Req 10): an image out of bytes, and its report as lines in a lent buffer. Both functions ask for room, and
// `put_words` for its bytes: they are for the programs above.
#![tactic(auto)]

mod bytes;
mod rows;

pub use bytes::put_words;
pub use rows::put_sheet;
