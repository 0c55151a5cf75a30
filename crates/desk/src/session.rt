// A session entry: what phase it is in, how it is left idle, and how it leaves the list of active sessions. These are public for the crates
// above. `unmark` asks for at most 4 copies, of records below 256; the entries of a coherent desk have no others.
ghost use Rattle.std.specs.Prelude.{◌≡◌, ◌==◌, ℕ, ◌≤◌, ◌<◌, get_or, position};
ghost use Rattle.desk.specs.Desk.{is_idle, is_active, is_sealed, is_published, no_copy, idle_session, unmarked, without};

use crate::state::{Phase, RecordCopy, Session};

impl Phase {
    pub fn is_idle(self) -> bool
        ensures { result ≡ is_idle self }
    {
        matches!(self, Phase::Idle)
    }

    pub fn is_active(self) -> bool
        ensures { result ≡ is_active self }
    {
        matches!(self, Phase::Active(_))
    }

    pub fn is_sealed(self) -> bool
        ensures { result ≡ is_sealed self }
    {
        matches!(self, Phase::Sealed(_))
    }

    pub fn is_published(self) -> bool
        ensures { result ≡ is_published self }
    {
        matches!(self, Phase::Published(_))
    }
}

impl Session {
    pub fn idle() -> Session
        ensures { result ≡ idle_session }
    {
        Session {
            phase: Phase::Idle,
            count: 0,
            slot: 0,
            copies: [RecordCopy {
                rec: 0,
                words: [0; 4],
            }; 4],
        }
    }
}

// Takes away the marks of the first `count` copies.
pub fn unmark(holders: &mut [u8; 256], copies: [RecordCopy; 4], count: u64)
    requires { (count ≤ 4) × ((j : ℕ) → j < count → (get_or copies j no_copy).rec < 256) }
    ensures { holders.new ≡ unmarked holders.old copies count }
{
    for copy in &copies[..count as usize] {
        holders[copy.rec as usize] = 0;
    }
}

// The first place of a session in the list.
fn place_of(order: &[u8; 16], session: u8) -> Option<usize>
    ensures { result ≡ position (λ listed. listed == session) order.now }
{
    order.iter().position(|&listed| listed == session)
}

// Takes a session out of the list: those behind it move up, and the last place is not used.
pub fn leave(mut order: [u8; 16], session: u8) -> [u8; 16]
    ensures { result ≡ without session order }
{
    if let Some(place) = place_of(&order, session) {
        order[place..].rotate_left(1);
        order[15] = 0;
    }
    order
}
