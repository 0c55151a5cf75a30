// The result of a step; a read has the four words. Of a refusal the line shows the number alone, not the value that goes with it.
use layout::Refusal;

#[derive(Clone, Copy)]
pub enum Outcome {
    Refused(Refusal),
    Ok,
    Start(u64),
    End(u64),
    Sealed(u64),
    Empty,
    Own([u64; 4]),
    Copy([u64; 4]),
    Home([u64; 4]),
    Wait(u64),
    None,
    Held(u64),
    Cleared(u64),
    Cut,
    Noted,
}
