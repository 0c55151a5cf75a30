// Reclaim: no slot to empty, held by an older log, or the number that was cleared; and the number of entries.
ghost use Rattle.std.specs.Prelude.{cond, ◌≡◌, ◌≤◌, ◌<◌, length};
ghost use Rattle.layout.specs.Entries.{made, listed};
ghost use Rattle.layout.specs.Image.{place_of, persist_at};
ghost use Rattle.layout.specs.Oldest.{oldest_of, some_oldest};
ghost use Rattle.desk.specs.Replies.{given_by};
ghost use Rattle.commit.specs.Reclaim.{in_use, reclaim_entries, reclaim_reply, reclaim_said};
ghost use Rattle.commit.specs.Told.{reclaim_told};

use desk::{Desk, Phase, Session, StoringReply};
use layout::{Oldest, Refusal, older};

// What came of the older of the session's settled slots.
#[derive(Clone, Copy)]
pub enum Reclaimed {
    Nothing,
    Held(u64),
    Cleared(u64),
}

// The persist number of the session's slot q; 0 for the slot of a sealed or published transaction.
fn settled_number(image: &[u64], n: u64, session: u64, entry: &Session, q: u64) -> u64
    requires { (n ≤ 256) × (session < 16) × (q < 2) }
    ensures { result ≡ cond (in_use entry.now q) 0 (persist_at image.now n (place_of session q)) }
{
    if matches!(entry.phase, Phase::Sealed(_) | Phase::Published(_)) && q == entry.slot {
        0
    } else {
        layout::slot_word(image, n, 2 * session + q, 0)
    }
}

// The older of the session's slots that are not left out; its place is 0 or 1.
fn older_slot(image: &[u64], n: u64, session: u64, entry: &Session) -> Option<Oldest>
    requires { (n ≤ 256) × (session < 16) }
    ensures { result
        ≡ some_oldest (oldest_of (λ q. cond (in_use entry.now q) 0 (persist_at image.now n (place_of session q))) 2) }
{
    let low = older(None, settled_number(image, n, session, entry, 0), 0);
    older(low, settled_number(image, n, session, entry, 1), 1)
}

fn reclaim_slot(
    image: &mut [u64],
    desk: &Desk,
    trace: &mut [u64],
    session: u64,
) -> Result<(Reclaimed, u64), Refusal>
    ensures given { result ≡ given_by (reclaim_reply image.old desk.now (length trace.old) session) }
    ensures image { image.new
        ≡ made (reclaim_entries image.old desk.now (length trace.old) session) image.old }
    ensures trace { trace.new
        ≡ listed (reclaim_entries image.old desk.now (length trace.old) session) trace.old }
{
    desk.entered(image, 48 <= trace.len(), session)?;
    let entry = &desk.sessions[session as usize];
    let Some(own) = older_slot(image, desk.n, session, entry) else {
        return Ok((Reclaimed::Nothing, 0));
    };
    // its own is one of the image's: there is an oldest
    let oldest = journal::oldest_log(image, desk.n, 2 * desk.m).unwrap_or(own);
    if oldest.number < own.number {
        return Ok((Reclaimed::Held(oldest.number), 0));
    }
    let slot = layout::slot_at(desk.n, 2 * session + own.place) as usize;
    let at = layout::put_store(image, 0, trace, 0, slot, 0);
    layout::put_fence(trace, at);
    Ok((Reclaimed::Cleared(own.number), 2))
}

// Empties the older of the session's settled slots, unless an older log is in the image.
pub fn reclaim(
    image: &mut [u64],
    desk: Desk,
    trace: &mut [u64],
    session: u64,
) -> StoringReply<Reclaimed>
    ensures reply { result ≡ reclaim_reply image.old desk (length trace.old) session }
    ensures image { image.new
        ≡ made (reclaim_entries image.old desk (length trace.old) session) image.old }
    ensures trace { trace.new
        ≡ listed (reclaim_entries image.old desk (length trace.old) session) trace.old }
    ensures told { reclaim_told result.answer ≡ reclaim_said image.old desk (length trace.old) session }
{
    let given = reclaim_slot(image, &desk, trace, session);
    StoringReply::of(given, desk)
}
