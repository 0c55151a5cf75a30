// A case: its call made on its image, desk and trace, and the fields of its line behind the number.
use crate::answered::Answered;
use crate::calls::Call;
use crate::desk_words::{desk_digest, desk_of};
use crate::digest::digest;
use crate::input::within;
use std::array;

// The trace before a call: word i is 0xA5A5A5A500000000 + i.
fn marked_trace() -> [u64; 64] {
    array::from_fn(|i| 0xA5A5A5A500000000 + i as u64)
}

// A digest where the call has what it is of, or else 0.
fn shown(has: bool, digest: u64) -> u64 {
    if has { digest } else { 0 }
}

// The digests of the image and of the trace.
fn digests(words: [u64; 2470], trace: [u64; 64]) -> [u64; 2] {
    let size = within(words[9], 64);
    let end = 670 + within(words[10], 1800);
    [digest(&words[670..end]), digest(&trace[0..size])]
}

// The fields of a case whose call is made, by its number, what it answered, and the digests of the image and the trace that it left.
fn fields(number: u64, call: Call, r: Answered, digests: [u64; 2]) -> [u64; 11] {
    let [image, trace] = digests;
    let [a, b, c, d] = r.told.words;
    [
        number,
        r.told.number,
        r.told.value,
        a,
        b,
        c,
        d,
        r.entries,
        shown(call.shows_image(), image),
        shown(call.shows_trace(), trace),
        shown(call.shows_desk(), desk_digest(r.desk)),
    ]
}

// Makes the call of a case and answers its fields.
pub fn run(mut words: [u64; 2470]) -> [u64; 11] {
    let size = within(words[9], 64);
    let end = 670 + within(words[10], 1800);
    let mut trace = marked_trace();
    let desk = desk_of(&words[11..670]);
    let call = Call::of(words);
    let r = call.make(&mut words[670..end], desk, &mut trace[0..size]);
    fields(words[0], call, r, digests(words, trace))
}
