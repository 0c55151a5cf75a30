// What a reader sees of a record that it does not copy: the holder's copy where that is shown to it, else the home record. For read, and
// public for the crate above: `seen` asks that the holder of a marked record copies it, as on a coherent desk.
ghost use Rattle.std.specs.Prelude.{◌≡◌, ◌-◌, ◌<◌};
ghost use Rattle.snapshot.specs.Own.{own_place};
ghost use Rattle.snapshot.specs.Read.{shown_at, sight_of};

use crate::copies::own_place;
use desk::{Phase, Session};

// Whose words a reader sees: its own copy's, a published copy's, or the home record's.
#[derive(Clone, Copy, PartialEq, Eq)]
pub enum Source {
    Own,
    Copy,
    Home,
}

// The words of a record, and whose they are.
#[derive(Clone, Copy)]
pub struct Sight {
    pub source: Source,
    pub words: [u64; 4],
}

// Whether a session's copies are shown to a reader with this start.
fn shown_at(start: u64, p: Phase) -> bool
    ensures { result ≡ shown_at start p }
{
    matches!(p, Phase::Published(end) if end <= start)
}

// The session that a holder mark names; 0 for no mark.
pub fn marked_session(mark: u8) -> usize
    ensures { result ≡ mark - 1 }
{
    usize::from(mark).saturating_sub(1)
}

// What a reader with this start sees of a record with this mark and holder.
pub fn seen(image: &[u64], start: u64, rec: u64, mark: u8, holder: Session) -> Sight
    requires { (rec < 256) × ((mark ≡ 0 → ⊥) → own_place holder rec < 4) }
    ensures { result ≡ sight_of image.now start rec mark holder }
{
    if mark != 0 && shown_at(start, holder.phase) {
        if let Some(place) = own_place(holder, rec) {
            return Sight {
                source: Source::Copy,
                words: holder.copies[place].words,
            };
        }
    }
    Sight {
        source: Source::Home,
        words: layout::home_words(image, rec),
    }
}
