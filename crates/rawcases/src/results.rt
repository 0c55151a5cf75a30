// The numbers of what a call answered. The refusals of these calls have 1 to 19, their own numbers.
pub const OK: u64 = 20;

pub const START: u64 = 21;

pub const OWN: u64 = 22;

pub const COPY: u64 = 23;

pub const HOME: u64 = 24;

pub const EMPTY: u64 = 25;

pub const SEALED: u64 = 26;

pub const END: u64 = 27;

pub const WAIT: u64 = 28;

pub const NONE: u64 = 29;

pub const HELD: u64 = 30;

pub const CLEARED: u64 = 31;

pub const CLEAN: u64 = 32;

pub const REPLAYED: u64 = 33;

pub const REEL: u64 = 34;

pub const UNUSED: u64 = 35;

pub const UNKNOWN: u64 = 36;

pub const METRES: u64 = 37;

pub const FOUND: u64 = 38;

pub const SPEED_TO_FIND: u64 = 39;
