// The checks of a session of the listening room.
ghost use Rattle.std.specs.Prelude.{◌≡◌};
ghost use Rattle.layout.specs.Refusal.{answer_of};
ghost use Rattle.desk.specs.Desk.{start_at};
ghost use Rattle.listening.specs.Listener.{holds_copies, listener_fault};

use desk::{Desk, Phase, Session};
use layout::Refusal;

// Whether the session is one of the sixteen and holds copies.
pub fn holds_copies(desk: &Desk, session: u64) -> bool
    ensures { result ≡ holds_copies desk.now session }
{
    session < 16 && desk.sessions[session as usize].count != 0
}

// Refusal 1, 2, 3, 4, 6 or 18; or the session's start.
pub fn listener_start(image: &[u64], desk: &Desk, room: bool, session: u64) -> Result<u64, Refusal>
    ensures { result ≡ answer_of (listener_fault image.now desk.now room session) (start_at desk.now session) }
{
    desk.entered(image, room, session)?;
    let Session { phase, count, .. } = desk.sessions[session as usize];
    let Phase::Active(start) = phase else {
        return Err(Refusal::WrongPhase);
    };
    if count == 0 {
        Ok(start)
    } else {
        Err(Refusal::CopiesHeld)
    }
}
