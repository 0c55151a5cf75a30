// What checks 12 and 13 find in the logs of an image. For the crates above: N and places are small, which their checks have shown.
ghost use Rattle.std.specs.Prelude.{◌≡◌, ◌≤◌, ◌<◌, eqb};
ghost use Rattle.layout.specs.Below.{any_below};
ghost use Rattle.journal.specs.Slots.{slot_of};
ghost use Rattle.layout.specs.Image.{slot_word};
ghost use Rattle.journal.specs.Log.{short_b, pairs_of, rec_of, bad_place, not_above, bad_pair, unsound_b};
ghost use Rattle.journal.specs.Log.{places_of, used_of, touched_of, touches_b, shared_b, tied_b};

use crate::slot::LogSlot;

impl LogSlot<'_> {
    // Whether an earlier place of the log has the record of place j.
    fn repeats(&self, j: u64) -> bool
        requires { j < 4 }
        ensures { result
            ≡ any_below j (λ i. eqb (rec_of (slot_of self.now) i) (rec_of (slot_of self.now) j)) }
    {
        let rec = self.word(2 + 5 * j);
        (0..j).any(|i| self.word(2 + 5 * i) == rec)
    }

    // Whether place j is in use, and has a record at or above N or one that an earlier place has.
    fn bad_place(&self, j: u64) -> bool
        requires { j < 4 }
        ensures { result ≡ bad_place self.now.n (slot_of self.now) j }
    {
        let rec = self.word(2 + 5 * j);
        j < self.word(1) && (self.n <= rec || self.repeats(j))
    }

    // Whether a place in use is bad.
    fn bad_places(&self) -> bool
        ensures { result ≡ any_below 4 (bad_place self.now.n (slot_of self.now)) }
    {
        (0..4).any(|j| self.bad_place(j))
    }

    // Whether this is a short log: word 1 is 16 + k.
    pub fn is_short(&self) -> bool
        ensures { result ≡ short_b (slot_of self.now) }
    {
        16 <= self.word(1)
    }

    // k, the number of pairs; 0 of a full log.
    pub fn pair_count(&self) -> u64
        ensures { result ≡ pairs_of (slot_of self.now) }
    {
        self.word(1).saturating_sub(16)
    }

    // Whether the index of pair j is not above the one before it.
    fn not_above(&self, j: u64) -> bool
        requires { j < 9 }
        ensures { result ≡ not_above (slot_of self.now) j }
    {
        let index = self.word(2 + 2 * j);
        j != 0 && index <= self.word(2 + 2 * (j - 1))
    }

    // Whether pair j is in use, and its index is out of range or does not ascend.
    fn bad_pair(&self, j: u64) -> bool
        requires { j < 9 }
        ensures { result ≡ bad_pair self.now.n (slot_of self.now) j }
    {
        let index = self.word(2 + 2 * j);
        j < self.pair_count() && (4 * self.n <= index || self.not_above(j))
    }

    // Whether a pair in use is bad.
    fn bad_pairs(&self) -> bool
        ensures { result ≡ any_below 9 (bad_pair self.now.n (slot_of self.now)) }
    {
        (0..9).any(|j| self.bad_pair(j))
    }

    // Whether the slot is occupied and not sound: what check 12 finds.
    #[tactic(auto, unfolding(crate::specs::Log::unsound_b))]
    fn is_unsound(&self) -> bool
        ensures { result ≡ unsound_b self.now.n (slot_of self.now) }
    {
        if self.word(0) == 0 {
            return false;
        }
        if self.is_short() {
            return 9 < self.pair_count() || self.bad_pairs();
        }
        let count = self.word(1);
        count == 0 || 4 < count || self.bad_places()
    }

    // How many places or pairs the log has.
    fn places(&self) -> u64
        ensures { result ≡ places_of (slot_of self.now) }
    {
        if self.is_short() { 9 } else { 4 }
    }

    // How many of them are in use.
    fn used(&self) -> u64
        ensures { result ≡ used_of (slot_of self.now) }
    {
        if self.is_short() {
            self.pair_count()
        } else {
            self.word(1)
        }
    }

    // The record that place or pair j touches.
    fn touched(&self, j: u64) -> u64
        requires { j < places_of (slot_of self.now) }
        ensures { result ≡ touched_of (slot_of self.now) j }
    {
        if self.is_short() {
            return self.word(2 + 2 * j) / 4;
        }
        self.word(2 + 5 * j)
    }

    // Whether the log touches the record.
    fn touches(&self, rec: u64) -> bool
        ensures { result ≡ touches_b (slot_of self.now) rec }
    {
        let count = self.used();
        (0..self.places()).any(|j| j < count && self.touched(j) == rec)
    }

    // Whether two logs touch a record in common.
    fn shared(&self, other: &LogSlot) -> bool
        ensures { result
            ≡ shared_b (slot_of self.now) (slot_of other.now) }
    {
        let count = self.used();
        (0..self.places()).any(|j| j < count && other.touches(self.touched(j)))
    }

    // Whether two slots are occupied, with equal persist numbers and a record in common: what check 13 finds.
    fn is_tied(&self, other: &LogSlot) -> bool
        ensures { result
            ≡ tied_b (slot_of self.now) (slot_of other.now) }
    {
        let persist = self.word(0);
        persist != 0 && persist == other.word(0) && self.shared(other)
    }
}

// Whether the slot at a place is occupied and not sound: what check 12 finds.
pub fn unsound(image: &[u64], n: u64, place: u64) -> bool
    requires { (n ≤ 256) × (place ≤ 32) }
    ensures { result ≡ unsound_b n (slot_word image.now n place) }
{
    LogSlot { image, n, place }.is_unsound()
}

// Whether two slots are occupied, with equal persist numbers and a record in common: what check 13 finds.
pub fn tied(image: &[u64], n: u64, a: u64, b: u64) -> bool
    requires { (n ≤ 256) × (a ≤ 32) × (b ≤ 32) }
    ensures { result ≡ tied_b (slot_word image.now n a) (slot_word image.now n b) }
{
    LogSlot { image, n, place: a }.is_tied(&LogSlot { image, n, place: b })
}
