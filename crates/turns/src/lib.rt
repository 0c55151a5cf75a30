// A walk's state, and what each kind of turn does: a step made on the store, whole or cut, the image laid, a call of recover; the lines of
// these; and the lines written out. Everything here is for the crate above: the functions ask for places within the buffers and room for a line.
#![tactic(auto)]

mod making;
mod output;
mod state;

pub use making::{bad, lay_out, make, resume, tell};
pub use output::{fail, flush};
pub use state::{Next, State, counted, filled, opened, start, stopped};
