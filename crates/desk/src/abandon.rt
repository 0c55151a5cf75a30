// Abandon: an active session drops its marks and copies and becomes idle. It is taken out of the list of the active ones.
ghost use Rattle.std.specs.Prelude.{◌≡◌};
ghost use Rattle.desk.specs.Abandon.{abandon_reply, abandon_said};
ghost use Rattle.desk.specs.Told.{abandon_told};

use crate::reply::Reply;
use crate::session::{leave, unmark};
use crate::state::{Desk, Session};
use layout::Refusal;

impl Desk {
    fn drop_session(&mut self, session: u64) -> Result<(), Refusal>
        ensures answer { result ≡ (abandon_reply self.old session).answer }
        ensures desk { self.new ≡ (abandon_reply self.old session).desk }
    {
        self.entered_alone(session)?;
        let i = session as usize;
        let entry = self.sessions[i];
        if !entry.phase.is_active() {
            return Err(Refusal::WrongPhase);
        }
        unmark(&mut self.holders, entry.copies, entry.count);
        self.order = leave(self.order, session as u8);
        self.sessions[i] = Session::idle();
        Ok(())
    }

    pub fn abandon(mut self, session: u64) -> Reply<()>
        ensures reply { result ≡ abandon_reply self session }
        ensures told { abandon_told result.answer ≡ abandon_said self session }
    {
        let answer = self.drop_session(session);
        Reply { answer, desk: self }
    }
}
