// The number of entries that finish, settle and recover list. Of full logs and of settle it is a table by the number of copies, 1 to 4, with
// 0 for any other number, of which there is no list. Of short logs it goes by the number of pairs.
ghost use Rattle.std.specs.Prelude.{◌≡◌, ◌≤◌, length};
ghost use Rattle.layout.specs.Image.{slot_word};
ghost use Rattle.journal.specs.Log.{pairs_of};
ghost use Rattle.journal.specs.Lengths.{finish_length, settle_length, recover_length, seal_length, replay_length};

use crate::changes::Changes;
use crate::slot::LogSlot;

// c copies: 5c + 4.
#[tactic(auto, unfolding(crate::specs::Lengths::finish_length))]
fn finish_length(copies: u64) -> u64
    ensures { result ≡ finish_length copies }
{
    match copies {
        1 => 9,
        2 => 14,
        3 => 19,
        4 => 24,
        _ => 0,
    }
}

// c copies: 4c + 1.
#[tactic(auto, unfolding(crate::specs::Lengths::settle_length))]
pub fn settle_length(copies: u64) -> u64
    ensures { result ≡ settle_length copies }
{
    match copies {
        1 => 5,
        2 => 9,
        3 => 13,
        4 => 17,
        _ => 0,
    }
}

// c copies: 4c + 3.
#[tactic(auto, unfolding(crate::specs::Lengths::recover_length))]
fn recover_length(copies: u64) -> u64
    ensures { result ≡ recover_length copies }
{
    match copies {
        1 => 7,
        2 => 11,
        3 => 15,
        4 => 19,
        _ => 0,
    }
}

// What finish lists of `copies` copies and these changes: of k in the short form 2k + 4.
#[tactic(auto, unfolding(crate::specs::Lengths::seal_length))]
pub fn seal_length(changes: &Changes, copies: u64) -> u64
    requires { copies ≤ 4 }
    ensures { result ≡ seal_length (length changes.now) copies }
{
    if changes.fit(copies as usize) {
        return 2 * changes.as_slice().len() as u64 + 4;
    }
    finish_length(copies)
}

// What recover lists of the log at a place: in the short form k + 3.
#[tactic(auto, unfolding(crate::specs::Lengths::replay_length))]
pub fn replay_length(image: &[u64], n: u64, place: u64) -> u64
    requires n_bound { (n ≤ 256) × (place ≤ 32) }
    requires place_bound { pairs_of (slot_word image.now n place) ≤ 9 }
    ensures { result ≡ replay_length (slot_word image.now n place) }
{
    let slot = LogSlot { image, n, place };
    if slot.is_short() {
        return slot.pair_count() + 3;
    }
    recover_length(slot.word(1))
}
