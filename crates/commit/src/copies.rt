// A session's copies.
ghost use Rattle.std.specs.Prelude.{◌≡◌, ◌≤◌, take, length};

use desk::{RecordCopy, Session};

// Those of its places that are in use, in order.
pub fn copies_of(e: &Session) -> &[RecordCopy]
    requires { e.now.count ≤ 4 }
    ensures value { result.now ≡ take e.now.count e.now.copies }
    ensures lower_bound { e.now.count ≤ length e.now.copies }
{
    &e.copies[..e.count as usize]
}
