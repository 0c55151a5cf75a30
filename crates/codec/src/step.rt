// A step of the stream. A write has the session, the record and the four words.
#[derive(Clone, Copy)]
pub enum Step {
    Lay(u64, u64),
    Begin(u64),
    Read(u64, u64),
    Write(u64, u64, [u64; 4]),
    Finish(u64),
    Publish(u64),
    Settle(u64),
    Reclaim(u64),
    Abandon(u64),
    Cut(u64),
}
