// The words of copies that differ from the home records, in ascending index: the copies are taken by record number, lowest first, and of
// each its words. For the crates above: records and counts are small, which their checks have shown.
ghost use Rattle.std.specs.Prelude.{◌≡◌, ℕ, ◌+◌, ◌≤◌, ◌<◌, leb, List, [], ◌++◌, length, get_or, take, filter, All, Contains, MatchOption};
ghost use Rattle.layout.specs.Entries.{Write};
ghost use Rattle.layout.specs.Image.{home_words};
ghost use Rattle.layout.specs.Homes.{Differ};
ghost use Rattle.desk.specs.Desk.{no_copy};
ghost use Rattle.journal.specs.Changes.{change_at, changes_in, changes_below, Gathered};
ghost use Rattle.journal.specs.Copies.{rec_in, words_in};
ghost use Rattle.journal.specs.Log.{shorter_b};

use desk::RecordCopy;
use std::marker::Model;

// Of some copies the one that has the lowest record from `floor` on.
fn next_copy(copies: &[RecordCopy], floor: u64) -> Option<RecordCopy>
    ensures { let later = filter (λ c. leb floor c.rec) copies.now in
        MatchOption result (length later ≡ 0) (λ b. Contains later b × All (λ c. b.rec ≤ c.rec) later) }
{
    copies
        .iter()
        .copied()
        .filter(|c| floor <= c.rec)
        .min_by_key(|c| c.rec)
}

// A change of a home word: its index, and the new word.
pub type Change = (u64, u64);

// Some changes. gather stops once they are too many for a short log, so there are at most 9 before the last copy is looked at, and its
// four.
#[derive(Drop)]
pub struct Changes {
    list: [Change; 13],
    count: usize,
}

impl Model for Changes {
    ghost Value = { List Write };

    ghost view = { λ a. take a.count a.list };

    ghost invariant = { λ a. a.count ≤ 13 };
}

impl Changes {
    // These, in order; at most 13, as gather makes.
    pub fn of(list: &[Change]) -> Self
        requires { length list.now ≤ 13 }
        ensures { result ≡ list.now }
    {
        let mut all = [(0, 0); 13];
        all[..list.len()].copy_from_slice(list);
        Changes {
            list: all,
            count: list.len(),
        }
    }

    // All of them, in order.
    pub fn as_slice(&self) -> &[Change]
        ensures all { result.now ≡ self.now }
        ensures upper_bound { length self.now ≤ 13 }
    {
        &self.list[..self.count]
    }

    // Whether the short log of so many copies takes them: twice their number is less than five times that of the copies.
    pub(crate) fn fit(&self, copies: usize) -> bool
        requires { copies ≤ 4 }
        ensures { result ≡ shorter_b (length self.now) copies }
    {
        2 * self.as_slice().len() < 5 * copies
    }

    // Puts a word that differs behind them.
    fn note(&mut self, index: u64, old: u64, new: u64)
        requires { length self.old ≤ 12 }
        ensures noted { self.new ≡ self.old ++ change_at index old new }
        ensures upper_bound { length self.new ≤ length self.old + 1 }
    {
        if old != new {
            self.list[self.count] = (index, new);
            self.count += 1;
        }
    }

    // The same of a record's four words.
    fn note_record(&mut self, image: &[u64], rec: u64, words: [u64; 4])
        requires { (length self.old ≤ 9) × (rec ≤ 256) }
        ensures noted { self.new ≡ self.old ++ changes_in rec (home_words image.now rec) words }
        ensures upper_bound { length self.new ≤ length self.old + 4 }
    {
        let home = layout::home_words(image, rec);
        let i = 4 * rec;
        self.note(i, home[0], words[0]);
        self.note(i + 1, home[1], words[1]);
        self.note(i + 2, home[2], words[2]);
        self.note(i + 3, home[3], words[3]);
    }
}

// The words of copies that differ from the home records, or so many of them that a short log does not take them.
pub fn gather(image: &[u64], n: u64, copies: &[RecordCopy]) -> Changes
    requires count_bound { (length copies.now ≤ 4) × (n ≤ 256) }
    requires by_index { ((j : ℕ) → j < length copies.now → rec_in copies.now j < n) × Differ (rec_in copies.now) (length copies.now) }
    ensures { Gathered (changes_below (home_words image.now) (rec_in copies.now) (words_in copies.now) (length copies.now) n)
        (length copies.now) result }
{
    let mut changes = Changes::of(&[]);
    let mut floor = 0;
    while floor < n && changes.fit(copies.len()) {
        let Some(c) = next_copy(copies, floor) else {
            return changes;
        };
        changes.note_record(image, c.rec, c.words);
        floor = c.rec + 1;
    }
    changes
}
