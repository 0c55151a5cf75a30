// A step applied to an opened store: the session call that it names.
ghost use Rattle.std.specs.Prelude.{◌≡◌, length};
ghost use Rattle.layout.specs.Entries.{made, listed};
ghost use Rattle.layout.specs.Told.{Told, tells};
ghost use Rattle.snapshot.specs.Told.{sight_told};
ghost use Rattle.commit.specs.Told.{sealed_told, wait_told, slot_told};
ghost use Rattle.desk.specs.Publish.{publish_entries};
ghost use Rattle.commit.specs.Finish.{finish_entries};
ghost use Rattle.commit.specs.Settle.{settle_entries};
ghost use Rattle.commit.specs.Reclaim.{reclaim_entries};
ghost use Rattle.steps.specs.Apply.{outcome_of, gives_of, ShowsAs, begin_applied, read_applied, write_applied, finish_applied, publish_applied, settle_applied};
ghost use Rattle.steps.specs.Apply.{reclaim_applied, abandon_applied, applied_of, applied_entries};

use codec::Step;
use lines::Outcome;
use store::{Desk, Reclaimed, Reply, Sight, Source, StoringReply};

// What came of a step: its outcome, the number of entries, and the desk.
#[derive(Clone, Copy)]
pub struct Applied {
    pub outcome: Outcome,
    pub entries: u64,
    pub desk: Desk,
}

impl Applied {
    // Of a call that stores nothing: its refusal, or what it gave, as the result of a step.
    fn of<T, F: FnOnce(T) -> Outcome>(reply: Reply<T>, shown: F) -> Applied
        requires { F.IsAlwaysCallable shown }
        ensures { (told : T → Told) → ShowsAs (F.post shown) told → result
            ≡ gives_of (outcome_of (tells told reply.answer)) 0 reply.desk }
    {
        Applied {
            outcome: reply.answer.map_or_else(Outcome::Refused, shown),
            entries: 0,
            desk: reply.desk,
        }
    }

    // The same of a call that stores.
    fn storing<T, F: FnOnce(T) -> Outcome>(reply: StoringReply<T>, shown: F) -> Applied
        requires { F.IsAlwaysCallable shown }
        ensures { (told : T → Told) → ShowsAs (F.post shown) told → result
            ≡ gives_of (outcome_of (tells told reply.answer)) reply.entries reply.desk }
    {
        Applied {
            outcome: reply.answer.map_or_else(Outcome::Refused, shown),
            entries: reply.entries,
            desk: reply.desk,
        }
    }
}

fn seen(sight: Sight) -> Outcome
    ensures { result ≡ outcome_of (sight_told sight) }
{
    match sight.source {
        Source::Own => Outcome::Own(sight.words),
        Source::Copy => Outcome::Copy(sight.words),
        Source::Home => Outcome::Home(sight.words),
    }
}

fn sealed(persist: Option<u64>) -> Outcome
    ensures { result ≡ outcome_of (sealed_told persist) }
{
    persist.map_or(Outcome::Empty, Outcome::Sealed)
}

fn settled(reader: Option<u64>) -> Outcome
    ensures { result ≡ outcome_of (wait_told reader) }
{
    reader.map_or(Outcome::Ok, Outcome::Wait)
}

fn reclaimed(slot: Reclaimed) -> Outcome
    ensures { result ≡ outcome_of (slot_told slot) }
{
    match slot {
        Reclaimed::Nothing => Outcome::None,
        Reclaimed::Held(persist) => Outcome::Held(persist),
        Reclaimed::Cleared(persist) => Outcome::Cleared(persist),
    }
}

// What each call gives. They are functions of their own, since a function pays at its entry for the replies of all its arms.
fn begin(desk: Desk, session: u64) -> Applied
    ensures { result ≡ begin_applied desk session }
{
    Applied::of(desk.begin(session), Outcome::Start)
}

fn read(image: &[u64], desk: Desk, session: u64, rec: u64) -> Applied
    ensures { result ≡ read_applied image.now desk session rec }
{
    Applied::of(store::read(image, desk, session, rec), seen)
}

fn write(image: &[u64], desk: Desk, session: u64, rec: u64, words: [u64; 4]) -> Applied
    ensures { result ≡ write_applied image.now desk session rec words }
{
    Applied::of(
        store::write(image, desk, session, rec, words),
        |()| Outcome::Ok,
    )
}

fn finish(image: &mut [u64], desk: Desk, trace: &mut [u64], session: u64) -> Applied
    ensures reply { result ≡ finish_applied image.old desk (length trace.old) session }
    ensures image { image.new
        ≡ made (finish_entries image.old desk (length trace.old) session) image.old }
    ensures trace { trace.new
        ≡ listed (finish_entries image.old desk (length trace.old) session) trace.old }
{
    Applied::storing(store::finish(image, desk, trace, session), sealed)
}

fn publish(image: &mut [u64], desk: Desk, trace: &mut [u64], session: u64) -> Applied
    ensures reply { result ≡ publish_applied image.old desk (length trace.old) session }
    ensures image { image.new
        ≡ made (publish_entries image.old desk (length trace.old) session) image.old }
    ensures trace { trace.new
        ≡ listed (publish_entries image.old desk (length trace.old) session) trace.old }
{
    Applied::storing(desk.publish(image, trace, session), Outcome::End)
}

fn settle(image: &mut [u64], desk: Desk, trace: &mut [u64], session: u64) -> Applied
    ensures reply { result ≡ settle_applied image.old desk (length trace.old) session }
    ensures image { image.new
        ≡ made (settle_entries image.old desk (length trace.old) session) image.old }
    ensures trace { trace.new
        ≡ listed (settle_entries image.old desk (length trace.old) session) trace.old }
{
    Applied::storing(store::settle(image, desk, trace, session), settled)
}

fn reclaim(image: &mut [u64], desk: Desk, trace: &mut [u64], session: u64) -> Applied
    ensures reply { result ≡ reclaim_applied image.old desk (length trace.old) session }
    ensures image { image.new
        ≡ made (reclaim_entries image.old desk (length trace.old) session) image.old }
    ensures trace { trace.new
        ≡ listed (reclaim_entries image.old desk (length trace.old) session) trace.old }
{
    Applied::storing(store::reclaim(image, desk, trace, session), reclaimed)
}

fn abandon(desk: Desk, session: u64) -> Applied
    ensures { result ≡ abandon_applied desk session }
{
    Applied::of(desk.abandon(session), |()| Outcome::Ok)
}

// Makes the session call of a step. A step that lays or cuts changes nothing.
pub fn apply(image: &mut [u64], desk: Desk, trace: &mut [u64], step: Step) -> Applied
    ensures reply { result ≡ applied_of image.old desk (length trace.old) step }
    ensures image { image.new
        ≡ made (applied_entries image.old desk (length trace.old) step) image.old }
    ensures trace { trace.new
        ≡ listed (applied_entries image.old desk (length trace.old) step) trace.old }
{
    match step {
        Step::Lay(..) | Step::Cut(_) => Applied {
            outcome: Outcome::Noted,
            entries: 0,
            desk,
        },
        Step::Begin(s) => begin(desk, s),
        Step::Read(s, rec) => read(image, desk, s, rec),
        Step::Write(s, rec, words) => write(image, desk, s, rec, words),
        Step::Finish(s) => finish(image, desk, trace, s),
        Step::Publish(s) => publish(image, desk, trace, s),
        Step::Settle(s) => settle(image, desk, trace, s),
        Step::Reclaim(s) => reclaim(image, desk, trace, s),
        Step::Abandon(s) => abandon(desk, s),
    }
}
