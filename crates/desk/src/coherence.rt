// Whether a desk is coherent, and how many of its sessions are active. Each copy's mark is struck out of a copy of the holders, each place in
// use out of a copy of the list, and nothing may be left.
ghost use Rattle.std.specs.Prelude.{◌≡◌, ◌==◌, ◌≤◌, ◌<◌};
ghost use Rattle.std.specs.List.{list_all};
ghost use Rattle.desk.specs.Coherent.{count_ok, number_ok, slot_ok, zero_copy_b, census_of};
ghost use Rattle.desk.specs.Strike.{struck, place_passes, struck_places, session_passes, entry_passes, struck_entry, quiet, quiet_b, sizes_pass};
ghost use Rattle.desk.specs.Struck.{struck_copies, struck_list};

use crate::state::{Desk, Phase, RecordCopy, Session};

// L: from this clock on nothing is sealed, and from this ceiling on nothing is opened.
pub const LIMIT: u64 = 4_611_686_018_427_387_904;

// The most that the clock and the number of sealed sessions come to.
const CLOCK_MOST: u64 = LIMIT + 16;

impl Phase {
    fn allows_count(self, count: u64) -> bool
        ensures { result ≡ count_ok self count }
    {
        match self {
            Phase::Idle => count == 0,
            Phase::Active(_) => count <= 4,
            Phase::Sealed(_) | Phase::Published(_) => (1..=4).contains(&count),
        }
    }

    // Whether its number has been given by this clock.
    fn allows_clock(self, clock: u64) -> bool
        ensures { result ≡ number_ok self clock }
    {
        match self {
            Phase::Idle => true,
            Phase::Active(number) | Phase::Sealed(number) => (1..=clock).contains(&number),
            Phase::Published(end) => (2..=clock).contains(&end),
        }
    }
}

impl RecordCopy {
    // Each word is looked at, as each place in `all_zero`.
    fn is_zero(&self) -> bool
        ensures { result ≡ zero_copy_b self.now }
    {
        let [a, b, c, d] = self.words;
        (self.rec == 0) & (a == 0) & (b == 0) & (c == 0) & (d == 0)
    }

    // Place j of a session with `count` copies: in use, its record is below n and has the mark, which is struck out; else it is zero.
    #[tactic(auto, unfolding(crate::specs::Strike::place_passes, crate::specs::Strike::struck))]
    fn strike(&self, marks: &mut [u8; 256], n: u64, count: u64, j: u64, mark: u8) -> bool
        ensures { (result ≡ place_passes marks.old n count j self.now mark) × (marks.new ≡ struck marks.old n count j self.now) }
    {
        if count <= j {
            return self.is_zero();
        }
        if n <= self.rec || 256 <= self.rec {
            return false;
        }
        let k = self.rec as usize;
        let marked = marks[k] == mark;
        marks[k] = 0;
        marked
    }
}

fn slot_ok(count: u64, slot: u64) -> bool
    ensures { result ≡ slot_ok count slot }
{
    slot <= 1 && (1 <= count || slot == 0)
}

impl Session {
    // Whether it is as an idle one is left.
    fn is_quiet(&self) -> bool
        ensures { result ≡ quiet self.now }
    {
        let [a, b, c, d] = &self.copies;
        (self.count == 0) & (self.slot == 0) & a.is_zero() & b.is_zero() & c.is_zero() & d.is_zero()
    }

    // Its own rules and its places, whose marks are struck out: every one, whatever the tests before it said, so `&` and not `&&`.
    #[tactic(auto, unfolding(crate::specs::Strike::session_passes, crate::specs::Strike::struck_places))]
    fn strike(&self, marks: &mut [u8; 256], clock: u64, n: u64, mark: u8) -> bool
        ensures { (result ≡ session_passes marks.old clock n self.now mark) × (marks.new ≡ struck_places marks.old n self.now 4) }
    {
        let count = self.count;
        let [a, b, c, d] = &self.copies;
        let own = self.phase.allows_count(count)
            & self.phase.allows_clock(clock)
            & slot_ok(count, self.slot);
        own & a.strike(marks, n, count, 0, mark)
            & b.strike(marks, n, count, 1, mark)
            & c.strike(marks, n, count, 2, mark)
            & d.strike(marks, n, count, 3, mark)
    }

    // An idle one passes by itself, another as session s if it is below m.
    #[tactic(auto, unfolding(crate::specs::Strike::entry_passes, crate::specs::Strike::struck_entry))]
    fn strike_as(&self, marks: &mut [u8; 256], clock: u64, n: u64, m: u64, s: usize) -> bool
        requires { s < 16 }
        ensures { (result ≡ entry_passes marks.old clock n m s self.now) × (marks.new ≡ struck_entry marks.old n self.now) }
    {
        self.phase.is_idle() || self.strike(marks, clock, n, s as u8 + 1) & ((s as u64) < m)
    }
}

// Whether nothing is left. Every place is looked at: a search that stops at the first one left takes a step for each, and much longer.
fn all_zero<const N: usize>(left: &[u8; N]) -> bool
    ensures { result ≡ list_all (λ x. x == 0) left.now }
{
    left.iter().fold(true, |zero, &x| zero & (x == 0))
}

// What is left of the holders, and how many sessions are active, and sealed.
#[derive(Clone, Copy)]
struct Struck {
    marks: [u8; 256],
    active: usize,
    sealed: u64,
}

impl Desk {
    fn sizes_in_range(&self) -> bool
        ensures { result ≡ sizes_pass self.now }
    {
        (1..=CLOCK_MOST).contains(&self.clock) && layout::in_range(self.n, self.m)
    }

    fn idles_are_quiet(&self) -> bool
        ensures { result ≡ list_all quiet_b self.now.sessions }
    {
        self.sessions
            .iter()
            .all(|session| !session.phase.is_idle() || session.is_quiet())
    }

    // Strikes the copies of each session out of the holders; none where a session does not pass.
    fn strike_copies(&self) -> Option<Struck>
        ensures { result ≡ struck_copies self.now }
    {
        let mut struck = Struck {
            marks: self.holders,
            active: 0,
            sealed: 0,
        };
        for s in 0..16 {
            let session = &self.sessions[s];
            if !session.strike_as(&mut struck.marks, self.clock, self.n, self.m, s) {
                return None;
            }
            struck.active += usize::from(session.phase.is_active());
            struck.sealed += u64::from(session.phase.is_sealed());
        }
        Some(struck)
    }

    // Strikes the first `active` places out of the list; none where one of them has no active session, one that an earlier place has, or one
    // that began before the session of an earlier place.
    fn strike_list(&self, active: usize) -> Option<[u8; 16]>
        requires { active ≤ 16 }
        ensures { result ≡ struck_list self.now active }
    {
        let mut left = self.order;
        let mut noted = [false; 16];
        let mut last = 0;
        for j in 0..active {
            let x = usize::from(self.order[j]);
            if 16 <= x || noted[x] {
                return None;
            }
            let Phase::Active(start) = self.sessions[x].phase else {
                return None;
            };
            if start < last {
                return None;
            }
            noted[x] = true;
            left[j] = 0;
            last = start;
        }
        Some(left)
    }

    // How many sessions of a coherent desk are active; none of any other desk.
    pub fn census(&self) -> Option<usize>
        ensures { result ≡ census_of self.now }
    {
        if !self.sizes_in_range() || !self.idles_are_quiet() {
            return None;
        }
        let struck = self.strike_copies()?;
        if CLOCK_MOST < self.clock + struck.sealed {
            return None;
        }
        let left = self.strike_list(struck.active)?;
        (all_zero(&struck.marks) & all_zero(&left)).then_some(struck.active)
    }
}
