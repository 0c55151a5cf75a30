// Begin: the store's own.
ghost use Rattle.std.specs.Prelude.{◌≡◌};
ghost use Rattle.desk.specs.Begin.{begin_reply, begin_said};
ghost use Rattle.desk.specs.Told.{begin_told};

use desk::{Desk, Reply};

// Begins a session of the listening room.
pub fn begin(desk: Desk, session: u64) -> Reply<u64>
    ensures reply { result ≡ begin_reply desk session }
    ensures told { begin_told result.answer ≡ begin_said desk session }
{
    desk.begin(session)
}
