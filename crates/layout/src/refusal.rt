// Why a call is turned away. The table of refusals (docs/RULES.md) has the number of each.
ghost use Rattle.std.specs.Prelude.{◌≡◌};
ghost use Rattle.layout.specs.Refusal.{number_of, value_with};

// With a record that another session holds goes that session, with a log that is not sound its place.
#[derive(Clone, Copy, Debug, PartialEq, Eq)]
pub enum Refusal {
    WrongImage,
    Incoherent,
    ShortTrace,
    NoSession,
    NoRecord,
    WrongPhase,
    OtherHolds(u64),
    FifthRecord,
    SlotsFull,
    ClockAtLimit,
    SlotOccupied,
    LogUnsound(u64),
    LogsTied,
    OutOfRange,
    WrongShelf,
    WrongSpeed,
    WrongSeconds,
    CopiesHeld,
    NoMembers,
    ShortTable,
}

impl Refusal {
    // The number that is told.
    pub fn number(self) -> u64
        ensures { result ≡ number_of self }
    {
        match self {
            Refusal::WrongImage => 1,
            Refusal::Incoherent => 2,
            Refusal::ShortTrace => 3,
            Refusal::NoSession => 4,
            Refusal::NoRecord => 5,
            Refusal::WrongPhase => 6,
            Refusal::OtherHolds(_) => 7,
            Refusal::FifthRecord => 8,
            Refusal::SlotsFull => 9,
            Refusal::ClockAtLimit => 10,
            Refusal::SlotOccupied => 11,
            Refusal::LogUnsound(_) => 12,
            Refusal::LogsTied => 13,
            Refusal::OutOfRange => 14,
            Refusal::WrongShelf => 15,
            Refusal::WrongSpeed => 16,
            Refusal::WrongSeconds => 17,
            Refusal::CopiesHeld => 18,
            Refusal::NoMembers => 19,
            Refusal::ShortTable => 20,
        }
    }

    // The session or the place that is told with it; 0 with any other.
    pub fn value(self) -> u64
        ensures { result ≡ value_with self }
    {
        match self {
            Refusal::OtherHolds(holder) => holder,
            Refusal::LogUnsound(place) => place,
            _ => 0,
        }
    }
}
