// A session's copies.
ghost use Rattle.std.specs.Prelude.{◌≡◌};
ghost use Rattle.layout.specs.Search.{within};
ghost use Rattle.snapshot.specs.Own.{own_place};

use desk::Session;

// The place of the session's own copy of a record, if it has one.
pub fn own_place(e: Session, rec: u64) -> Option<usize>
    ensures { result ≡ within 4 (own_place e rec) }
{
    e.copies
        .iter()
        .take(e.count as usize)
        .position(|c| c.rec == rec)
}
