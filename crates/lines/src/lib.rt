// The lines that the program prints, put into a lent buffer. Everything here asks for room: it is for the programs above, which have shown
// that there is room before they print a line.
#![tactic(auto)]

mod line;
mod outcome;
mod text;

pub use line::{put_line, put_note, put_refused};
pub use outcome::Outcome;
pub use text::{put_number, put_numbers, put_text};
