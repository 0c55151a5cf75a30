// Publish: a sealed session's end is clock + 1, and the clock becomes that; where it would pass the ceiling, that is raised. The number of
// entries goes with the answer.
ghost use Rattle.std.specs.Prelude.{◌≡◌, length};
ghost use Rattle.layout.specs.Entries.{made, listed};
ghost use Rattle.desk.specs.Publish.{publish_entries, publish_reply, publish_said};
ghost use Rattle.desk.specs.Replies.{given_by};
ghost use Rattle.desk.specs.Told.{publish_told};

use crate::reply::StoringReply;
use crate::state::{Desk, Phase};
use layout::Refusal;

impl Desk {
    // The end, and the number of entries.
    fn publish_session(
        &mut self,
        image: &mut [u64],
        trace: &mut [u64],
        session: u64,
    ) -> Result<(u64, u64), Refusal>
        ensures given { result ≡ given_by (publish_reply image.old self.old (length trace.old) session) }
        ensures desk { self.new ≡ (publish_reply image.old self.old (length trace.old) session).desk }
        ensures image { image.new
            ≡ made (publish_entries image.old self.old (length trace.old) session) image.old }
        ensures trace { trace.new
            ≡ listed (publish_entries image.old self.old (length trace.old) session) trace.old }
    {
        self.entered(image, 48 <= trace.len(), session)?;
        let i = session as usize;
        if !self.sessions[i].phase.is_sealed() {
            return Err(Refusal::WrongPhase);
        }
        let end = self.clock + 1;
        let entries = layout::raise_past(image, trace, end);
        self.clock = end;
        self.sessions[i].phase = Phase::Published(end);
        Ok((end, entries))
    }

    pub fn publish(
        mut self,
        image: &mut [u64],
        trace: &mut [u64],
        session: u64,
    ) -> StoringReply<u64>
        ensures reply { result ≡ publish_reply image.old self (length trace.old) session }
        ensures image { image.new
            ≡ made (publish_entries image.old self (length trace.old) session) image.old }
        ensures trace { trace.new
            ≡ listed (publish_entries image.old self (length trace.old) session) trace.old }
        ensures told { publish_told result.answer ≡ publish_said image.old self (length trace.old) session }
    {
        let given = self.publish_session(image, trace, session);
        StoringReply::of(given, self)
    }
}
