// The working state of an opened store. It goes in and comes back by value, and is lost when power fails.

// A copy of a record, newer than the home record: the record's number and its four words.
#[derive(Clone, Copy)]
pub struct RecordCopy {
    pub rec: u64,
    pub words: [u64; 4],
}

// What a session is doing: active with a start number, sealed with a persist number, published with an end number.
#[derive(Clone, Copy)]
pub enum Phase {
    Idle,
    Active(u64),
    Sealed(u64),
    Published(u64),
}

// A session entry: its phase, its copies (the first `count` places) and the log slot reserved for them.
#[derive(Clone, Copy)]
pub struct Session {
    pub phase: Phase,
    pub count: u64,
    pub slot: u64,
    pub copies: [RecordCopy; 4],
}

// The desk, document 01's term for the volatile transaction table: the clock, the numbers of records and sessions, the holder mark of each
// record (0: none, s + 1: session s), the session entries, and the list of active sessions, from the one that began first on, with 0 in the
// places that are not used.
#[derive(Clone, Copy)]
pub struct Desk {
    pub clock: u64,
    pub n: u64,
    pub m: u64,
    pub holders: [u8; 256],
    pub sessions: [Session; 16],
    pub order: [u8; 16],
}
