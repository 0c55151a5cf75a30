// Publish a van load together (document 02, Req 06): a set of sessions, all sealed, gets one end. One pass over the sessions looks at the
// members, another publishes them. Bit s of the set stands for session s.
ghost use Rattle.std.specs.Prelude.{◌≡◌, ◌<◌, length};
ghost use Rattle.layout.specs.Entries.{made, listed};
ghost use Rattle.layout.specs.Refusal.{answer_of};
ghost use Rattle.desk.specs.Group.{member, set_fault, published_below, group_entries, group_reply, group_said};
ghost use Rattle.desk.specs.Replies.{given_by};
ghost use Rattle.desk.specs.Told.{publish_told};

use crate::reply::StoringReply;
use crate::state::{Desk, Phase};
use layout::Refusal;

fn has(set: u16, s: usize) -> bool
    requires { s < 16 }
    ensures { result ≡ member s set }
{
    (set >> s) % 2 == 1
}

impl Desk {
    // Refusal 19, 4 or 6 of a set.
    fn check_members(&self, set: u16) -> Result<(), Refusal>
        ensures { result ≡ answer_of (set_fault self.now set) tt }
    {
        if !(0..16).any(|s| has(set, s)) {
            return Err(Refusal::NoMembers);
        }
        if !(0..16).all(|s| !has(set, s) || (s as u64) < self.m) {
            return Err(Refusal::NoSession);
        }
        if !(0..16).all(|s| !has(set, s) || self.sessions[s].phase.is_sealed()) {
            return Err(Refusal::WrongPhase);
        }
        Ok(())
    }

    fn publish_members(&mut self, set: u16, end: u64)
        ensures { self.new ≡ record {
          clock = self.old.clock;
          n = self.old.n;
          m = self.old.m;
          holders = self.old.holders;
          sessions = published_below self.old.sessions set end 16;
          order = self.old.order;
        } }
    {
        for s in 0..16 {
            if has(set, s) {
                self.sessions[s].phase = Phase::Published(end);
            }
        }
    }

    // The end, and the number of entries.
    fn publish_set(
        &mut self,
        image: &mut [u64],
        trace: &mut [u64],
        set: u16,
    ) -> Result<(u64, u64), Refusal>
        ensures given { result ≡ given_by (group_reply image.old self.old (length trace.old) set) }
        ensures desk { self.new ≡ (group_reply image.old self.old (length trace.old) set).desk }
        ensures image { image.new
            ≡ made (group_entries image.old self.old (length trace.old) set) image.old }
        ensures trace { trace.new
            ≡ listed (group_entries image.old self.old (length trace.old) set) trace.old }
    {
        // session 0 of a coherent desk is below M: no 4 here
        self.entered(image, 48 <= trace.len(), 0)?;
        self.check_members(set)?;
        let end = self.clock + 1;
        let entries = layout::raise_past(image, trace, end);
        self.clock = end;
        self.publish_members(set, end);
        Ok((end, entries))
    }

    pub fn publish_group(
        mut self,
        image: &mut [u64],
        trace: &mut [u64],
        set: u16,
    ) -> StoringReply<u64>
        ensures reply { result ≡ group_reply image.old self (length trace.old) set }
        ensures image { image.new
            ≡ made (group_entries image.old self (length trace.old) set) image.old }
        ensures trace { trace.new
            ≡ listed (group_entries image.old self (length trace.old) set) trace.old }
        ensures told { publish_told result.answer ≡ group_said image.old self (length trace.old) set }
    {
        let given = self.publish_set(image, trace, set);
        StoringReply::of(given, self)
    }
}
