// A line of the table, and the one function that touches it.
ghost use Rattle.std.specs.Prelude.{◌≡◌};
ghost use Rattle.report.specs.Lines.{updated, CanUpdate};

// The reels of one carrier, and their seconds.
#[derive(Clone, Copy)]
pub struct CarrierLine {
    pub reels: u64,
    pub seconds: u64,
}

// One change of one line: keep is 0 where the line begins afresh, else 1.
#[derive(Clone, Copy)]
pub struct Change {
    pub line: u64,
    pub keep: u64,
    pub reels: u64,
    pub seconds: u64,
}

// Updates one line in its place.
pub fn update(lines: &mut [CarrierLine], change: Change)
    requires { CanUpdate lines.old change }
    ensures { lines.new ≡ updated lines.old change }
{
    let line = &mut lines[change.line as usize];
    *line = CarrierLine {
        reels: line.reels * change.keep + change.reels,
        seconds: line.seconds * change.keep + change.seconds,
    };
}
