// The yearly playing-time report (document 02, Req 10): a lent table of carrier lines is filled from a clean image. The library stands above
// the reel library, which says what is good to read.
#![tactic(auto)]

mod changing;
mod checking;
mod counting;
mod filling;
mod line;
mod reporting;
mod summing;

pub use line::CarrierLine;
pub use reporting::{FilledTable, fill_table, report};
pub use summing::Totals;
