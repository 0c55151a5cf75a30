// A log written to its slot, each store listed in the trace. For the crates above: there is room in both, which their checks have shown.
ghost use Rattle.std.specs.Prelude.{◌≡◌, [], ◌∷◌, ◌+◌, ◌*◌, ◌^◌, ◌≤◌, ◌<◌, length, get_or};
ghost use Rattle.layout.specs.Entries.{stores, shift, made, listed};
ghost use Rattle.layout.specs.Trace.{Did, Room};
ghost use Rattle.desk.specs.Desk.{no_copy};
ghost use Rattle.journal.specs.Copies.{rec_in, words_in};
ghost use Rattle.journal.specs.Log.{place_writes, body_writes, short_writes, either_body, index_in, word_in, sealed_body};

use crate::changes::{Change, Changes};
use desk::RecordCopy;

// Words of a log slot: the persist number, and the count of copies, or 16 + that of pairs.
const PERSIST_WORD: usize = 0;

const COUNT_WORD: usize = 1;

// Copy place `place` of the slot that starts at `base`: record number, record words.
fn put_place(
    slot: &mut [u64],
    base: u64,
    trace: &mut [u64],
    at: usize,
    place: usize,
    rec: u64,
    words: [u64; 4],
) -> usize
    requires { Room 5 base (2 + 5 * place) at slot.old trace.old }
    ensures { Did (stores (place_writes place rec words)) base at slot.old trace.old slot.new
        trace.new result }
{
    let i = 2 + 5 * place;
    let next = layout::put_store(slot, base, trace, at, i, rec);
    layout::put_words(slot, base, trace, next, i + 1, words)
}

// The body of a full log: the count, and the copies in their places.
fn put_copies(slot: &mut [u64], base: u64, trace: &mut [u64], copies: &[RecordCopy]) -> usize
    requires { (length copies.now ≤ 4) × Room (1 + 5 * length copies.now) base 1 0 slot.old trace.old }
    ensures did { Did (stores (body_writes (rec_in copies.now) (words_in copies.now) (length copies.now) (length copies.now))) base 0
        slot.old trace.old slot.new trace.new result }
    ensures value { result ≡ 2 + 10 * length copies.now }
{
    let mut next = layout::put_store(slot, base, trace, 0, COUNT_WORD, copies.len() as u64);
    for (k, c) in copies.iter().enumerate() {
        next = put_place(slot, base, trace, next, k, c.rec, c.words);
    }
    next
}

// Word i of the slot and the one behind it.
fn put_pair(
    slot: &mut [u64],
    base: u64,
    trace: &mut [u64],
    at: usize,
    i: usize,
    index: u64,
    word: u64,
) -> usize
    requires { Room 2 base i at slot.old trace.old }
    ensures { Did (stores ((i, index) ∷ (i + 1, word) ∷ [])) base at slot.old trace.old slot.new
        trace.new result }
{
    let next = layout::put_store(slot, base, trace, at, i, index);
    layout::put_store(slot, base, trace, next, i + 1, word)
}

// The body of a short log: 16 + their number, and the changes as pairs of home word index and new word.
fn put_pairs(slot: &mut [u64], base: u64, trace: &mut [u64], changes: &[Change]) -> usize
    requires { (length changes.now ≤ 9) × Room (1 + 2 * length changes.now) base 1 0 slot.old trace.old }
    ensures did { Did (stores (short_writes (index_in changes.now) (word_in changes.now) (length changes.now) (length changes.now))) base 0
        slot.old trace.old slot.new trace.new result }
    ensures value { result ≡ 2 + 4 * length changes.now }
{
    let count = 16 + changes.len() as u64;
    let mut next = layout::put_store(slot, base, trace, 0, COUNT_WORD, count);
    for (k, &(index, word)) in changes.iter().enumerate() {
        next = put_pair(slot, base, trace, next, 2 + 2 * k, index, word);
    }
    next
}

// The body of a log: the short one where it takes the changes, else the full one.
fn put_body(
    slot: &mut [u64],
    base: u64,
    trace: &mut [u64],
    changes: &Changes,
    copies: &[RecordCopy],
) -> usize
    requires { (length copies.now ≤ 4) × (22 ≤ length slot.old) × (48 ≤ length trace.old) × (base + 22 < 2 ^ 64) }
    ensures did { Did (stores (either_body (index_in changes.now) (word_in changes.now) (length changes.now) (rec_in copies.now)
        (words_in copies.now) (length copies.now))) base 0 slot.old trace.old slot.new
        trace.new result }
    ensures upper_bound { result ≤ 42 }
{
    if changes.fit(copies.len()) {
        return put_pairs(slot, base, trace, changes.as_slice());
    }
    put_copies(slot, base, trace, copies)
}

// A log, in the slot that starts at `base` of the image: its body, a fence, the persist number, a fence. The changes, as gather makes
// them, are the words of the copies that differ from the home records, or too many for a short log; any are written as they are given.
pub fn write_log(
    slot: &mut [u64],
    base: u64,
    trace: &mut [u64],
    changes: &Changes,
    copies: &[RecordCopy],
    persist: u64,
)
    requires { (length copies.now ≤ 4) × (22 ≤ length slot.old) × (48 ≤ length trace.old) × (base + 22 < 2 ^ 64) }
    ensures image { slot.new
        ≡ made (sealed_body persist (either_body (index_in changes.now) (word_in changes.now) (length changes.now)
        (rec_in copies.now) (words_in copies.now) (length copies.now))) slot.old }
    ensures trace { trace.new
        ≡ listed (shift base (sealed_body persist (either_body (index_in changes.now) (word_in changes.now) (length changes.now)
        (rec_in copies.now) (words_in copies.now) (length copies.now)))) trace.old }
{
    let a = put_body(slot, base, trace, changes, copies);
    let b = layout::put_fence(trace, a);
    let c = layout::put_store(slot, base, trace, b, PERSIST_WORD, persist);
    layout::put_fence(trace, c);
}
