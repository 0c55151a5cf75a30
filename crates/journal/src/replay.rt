// What a log denotes, and copies, that go home. For the crates above: N, places and records are small and there is room in the
// trace, which their checks have shown.
ghost use Rattle.std.specs.Prelude.{false, ◌≡◌, ℕ, ◌+◌, ◌*◌, ◌≤◌, ◌<◌, length, get_or};
ghost use Rattle.layout.specs.Entries.{stores};
ghost use Rattle.layout.specs.Homes.{homes_writes};
ghost use Rattle.journal.specs.Slots.{slot_of};
ghost use Rattle.layout.specs.Image.{home_at, slot_word};
ghost use Rattle.layout.specs.Trace.{Did};
ghost use Rattle.desk.specs.Desk.{no_copy};
ghost use Rattle.journal.specs.Copies.{rec_in, words_in};
ghost use Rattle.journal.specs.Log.{rec_of, words_of, index_of, word_of, index_in, word_in, pairs_writes, denoted, unsound_b};

use crate::changes::Change;
use crate::slot::LogSlot;
use desk::RecordCopy;
use std::array;

impl LogSlot<'_> {
    // The record number of place j of the log.
    fn place_rec(&self, j: u64) -> u64
        requires { j < 4 }
        ensures { result ≡ rec_of (slot_of self.now) j }
    {
        self.word(2 + 5 * j)
    }

    // The record words of place j of the log.
    fn place_words(&self, j: u64) -> [u64; 4]
        requires { j < 4 }
        ensures { result ≡ words_of (slot_of self.now) j }
    {
        array::from_fn(|i| self.word(2 + 5 * j + 1 + i as u64))
    }

    // The copy at place j of a log.
    fn log_copy(&self, j: u64) -> RecordCopy
        requires { j < 4 }
        ensures { result
            ≡ record { rec = rec_of (slot_of self.now) j; words = words_of (slot_of self.now) j } }
    {
        RecordCopy {
            rec: self.place_rec(j),
            words: self.place_words(j),
        }
    }

    // The copies of a log, in the order of its places.
    fn log_copies(&self) -> [RecordCopy; 4]
        ensures { (j : ℕ) → j < 4 → get_or result j no_copy
            ≡ record { rec = rec_of (slot_of self.now) j; words = words_of (slot_of self.now) j } }
    {
        array::from_fn(|j| self.log_copy(j as u64))
    }

    // The change that pair j of a short log is.
    fn log_pair(&self, j: u64) -> Change
        requires { j < 9 }
        ensures { result ≡ (index_of (slot_of self.now) j, word_of (slot_of self.now) j) }
    {
        (self.word(2 + 2 * j), self.word(2 + 2 * j + 1))
    }

    // The pairs of a short log, in order.
    fn log_pairs(&self) -> [Change; 9]
        ensures { (j : ℕ) → j < 9 → get_or result j (0, 0) ≡ (index_of (slot_of self.now) j, word_of (slot_of self.now) j) }
    {
        array::from_fn(|j| self.log_pair(j as u64))
    }
}

// Stores copies to their homes, listed from the trace's first word; the answer is the place of the next entry.
pub fn put_homes(image: &mut [u64], trace: &mut [u64], copies: &[RecordCopy]) -> usize
    requires count_bound { (length copies.now ≤ 4) × (8 * length copies.now ≤ length trace.old) }
    requires by_index { (j : ℕ) → j < length copies.now
        → (rec_in copies.now j < 256) × (home_at (rec_in copies.now j) + 4 ≤ length image.old) }
    ensures did { Did (stores (homes_writes (rec_in copies.now) (words_in copies.now) (length copies.now))) 0 0 image.old
        trace.old image.new trace.new result }
    ensures value { result ≡ 8 * length copies.now }
{
    let mut at = 0;
    for c in copies {
        at = layout::put_home(image, trace, at, c.rec, c.words);
    }
    at
}

// Stores the words of changes to the home words, listed from the trace's first word; the answer is the place of the next entry.
fn put_home_words(image: &mut [u64], trace: &mut [u64], changes: &[Change]) -> usize
    requires count_bound { (length changes.now ≤ 9) × (2 * length changes.now ≤ length trace.old) }
    requires by_index { (j : ℕ) → j < length changes.now → (index_in changes.now j < 1024) × (4 + index_in changes.now j < length image.old) }
    ensures did { Did (stores (pairs_writes (index_in changes.now) (word_in changes.now) (length changes.now))) 0 0 image.old
        trace.old image.new trace.new result }
    ensures value { result ≡ 2 * length changes.now }
{
    let mut at = 0;
    for &(index, word) in changes {
        at = layout::put_store(image, 0, trace, at, 4 + index as usize, word);
    }
    at
}

// Stores what the log at a place denotes, in either form, listed from the trace's first word; the answer is the place of the next entry.
pub fn put_denoted(image: &mut [u64], trace: &mut [u64], n: u64, place: u64) -> usize
    requires n_bound { (n ≤ 256) × (place ≤ 32) × (4 + 4 * n ≤ length image.old) × (48 ≤ length trace.old) }
    requires place_value { (unsound_b n (slot_word image.old n place) ≡ false) × (slot_word image.old n place 0 ≡ 0 → ⊥) }
    ensures did { Did (stores (denoted (slot_word image.old n place))) 0 0 image.old trace.old
        image.new trace.new result }
    ensures upper_bound { result ≤ 32 }
{
    let slot = LogSlot { image, n, place };
    if slot.is_short() {
        let pairs = slot.log_pairs();
        let count = slot.pair_count();
        return put_home_words(image, trace, &pairs[..count as usize]);
    }
    let copies = slot.log_copies();
    let count = slot.word(1);
    put_homes(image, trace, &copies[..count as usize])
}
