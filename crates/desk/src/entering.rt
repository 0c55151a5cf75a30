// The first checks of a session call, in the order of their numbers, as methods of the desk; public for the crates above.
ghost use Rattle.std.specs.Prelude.{◌≡◌, ◌<◌, OnOk};
ghost use Rattle.layout.specs.Refusal.{answer_of};
ghost use Rattle.desk.specs.Desk.{active_count};
ghost use Rattle.desk.specs.Entering.{entry_fault, desk_fault, image_fault, record_entry_fault, record_fault};

use crate::state::Desk;
use layout::Refusal;

// Refusal 1, 2, 3 or 4 of a call with an image, for a desk with this clock, N and M that is coherent by itself or not.
#[tactic(auto, unfolding(crate::specs::Entering::entry_fault, layout::specs::Checks::first, layout::specs::Checks::answered, layout::specs::Refusal::cause))]
pub fn check_entry(
    image: &[u64],
    coherent: bool,
    clock: u64,
    n: u64,
    m: u64,
    room: bool,
    session: u64,
) -> Result<(), Refusal>
    ensures { result ≡ answer_of (entry_fault image.now coherent clock n m room session) tt }
{
    if !layout::shaped(image) {
        return Err(Refusal::WrongImage);
    }
    let agrees = n == layout::word(image, 1)
        && m == layout::word(image, 2)
        && clock <= layout::word(image, 3);
    if !(coherent && agrees) {
        return Err(Refusal::Incoherent);
    }
    if !room {
        return Err(Refusal::ShortTrace);
    }
    if session < m {
        Ok(())
    } else {
        Err(Refusal::NoSession)
    }
}

// The same of a call that takes a record and no trace, and then refusal 5.
#[tactic(auto, unfolding(layout::specs::Checks::answered, layout::specs::Refusal::cause))]
pub fn check_record(
    image: &[u64],
    coherent: bool,
    clock: u64,
    n: u64,
    m: u64,
    session: u64,
    rec: u64,
) -> Result<(), Refusal>
    ensures { result ≡ answer_of (record_entry_fault image.now coherent clock n m session rec) tt }
{
    check_entry(image, coherent, clock, n, m, true, session)?;
    if rec < n {
        Ok(())
    } else {
        Err(Refusal::NoRecord)
    }
}

impl Desk {
    // Refusal 2 or 4 of a call without an image; or how many sessions are active.
    pub fn entered_alone(&self, session: u64) -> Result<usize, Refusal>
        ensures answer { result ≡ answer_of (desk_fault self.now session) (active_count self.now) }
        ensures inside { OnOk result (session < 16) }
    {
        let Some(active) = self.census() else {
            return Err(Refusal::Incoherent);
        };
        if session < self.m {
            Ok(active)
        } else {
            Err(Refusal::NoSession)
        }
    }

    // Refusal 1, 2, 3 or 4 of a call with an image; or how many sessions are active.
    pub fn entered(&self, image: &[u64], room: bool, session: u64) -> Result<usize, Refusal>
        ensures answer { result ≡ answer_of (image_fault image.now self.now room session) (active_count self.now) }
        ensures inside { OnOk result (session < 16) }
    {
        let active = self.census();
        check_entry(
            image,
            active.is_some(),
            self.clock,
            self.n,
            self.m,
            room,
            session,
        )?;
        active.ok_or(Refusal::Incoherent)
    }

    // The same of a call that takes a record and no trace, and then refusal 5.
    pub fn entered_record(&self, image: &[u64], session: u64, rec: u64) -> Result<usize, Refusal>
        ensures answer { result ≡ answer_of (record_fault image.now self.now session rec) (active_count self.now) }
        ensures inside { OnOk result ((session < 16) × (rec < 256)) }
    {
        let active = self.census();
        let Desk { clock, n, m, .. } = *self;
        check_record(image, active.is_some(), clock, n, m, session, rec)?;
        active.ok_or(Refusal::Incoherent)
    }
}
