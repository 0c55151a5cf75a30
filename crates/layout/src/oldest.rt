// The oldest of some numbers, which stand for logs or for readers: the smallest that is not 0, the lowest place first among equals. For the
// crates above: 0 stands for one that is left out.
ghost use Rattle.std.specs.Prelude.{◌≡◌};
ghost use Rattle.layout.specs.Oldest.{older_seen};

// The oldest so far: its number and its place.
#[derive(Clone, Copy)]
pub struct Oldest {
    pub number: u64,
    pub place: u64,
}

// The oldest so far, or the number at a place if it is older.
pub fn older(best: Option<Oldest>, number: u64, place: u64) -> Option<Oldest>
    ensures { result ≡ older_seen best number place }
{
    match best {
        _ if number == 0 => best,
        Some(oldest) if oldest.number <= number => best,
        _ => Some(Oldest { number, place }),
    }
}
