// Begin: an idle session becomes active, and its start is the clock. In the list it stands behind those that are active.
ghost use Rattle.std.specs.Prelude.{◌≡◌};
ghost use Rattle.desk.specs.Begin.{begin_reply, begin_said};
ghost use Rattle.desk.specs.Told.{begin_told};

use crate::reply::Reply;
use crate::state::{Desk, Phase};
use layout::Refusal;

impl Desk {
    // The answer is the start.
    fn start(&mut self, session: u64) -> Result<u64, Refusal>
        ensures answer { result ≡ (begin_reply self.old session).answer }
        ensures desk { self.new ≡ (begin_reply self.old session).desk }
    {
        let active = self.entered_alone(session)?;
        let i = session as usize;
        if !self.sessions[i].phase.is_idle() {
            return Err(Refusal::WrongPhase);
        }
        self.order[active] = session as u8;
        self.sessions[i].phase = Phase::Active(self.clock);
        Ok(self.clock)
    }

    pub fn begin(mut self, session: u64) -> Reply<u64>
        ensures reply { result ≡ begin_reply self session }
        ensures told { begin_told result.answer ≡ begin_said self session }
    {
        let answer = self.start(session);
        Reply { answer, desk: self }
    }
}
