// The image: where its parts lie, reading and laying it, and storing to it with a trace (document 01's strip) of every store.
// `lay` is a call that users make. `ceiling`, `index`, `oldest` and `trace` are for the crates above alone: their functions say what they need.
#![tactic(auto)]

mod ceiling;
mod image;
mod index;
mod laying;
mod oldest;
mod refusal;
mod trace;

pub use ceiling::{raise, raise_past};
pub use image::{in_range, shaped, word};
pub use index::{home_words, slot_at, slot_word};
pub use laying::lay;
pub use oldest::{Oldest, older};
pub use refusal::Refusal;
pub use trace::{put_fence, put_home, put_store, put_words};
