// Laying an image.
ghost use Rattle.std.specs.Prelude.{◌≡◌, length};
ghost use Rattle.layout.specs.Lay.{lay_fault, lay_answer, laid_image, lay_said};
ghost use Rattle.layout.specs.Refusal.{answer_of};
ghost use Rattle.layout.specs.Told.{lay_told};

use crate::image::{in_range, size_of};
use crate::refusal::Refusal;

// Refusal 14, then 1.
#[tactic(auto, unfolding(crate::specs::Lay::lay_fault, crate::specs::Checks::first, crate::specs::Checks::answered, crate::specs::Refusal::cause))]
fn check_sizes(length: usize, n: u64, m: u64) -> Result<(), Refusal>
    ensures { result ≡ answer_of (lay_fault n m length) tt }
{
    if !in_range(n, m) {
        return Err(Refusal::OutOfRange);
    }
    if length as u64 == size_of(n, m) {
        Ok(())
    } else {
        Err(Refusal::WrongImage)
    }
}

// Writes an empty image with N records and M sessions.
pub fn lay(image: &mut [u64], n: u64, m: u64) -> Result<(), Refusal>
    ensures answer { result ≡ lay_answer n m image.old }
    ensures image { image.new ≡ laid_image n m image.old }
    ensures told { lay_told result ≡ lay_said n m image.old }
{
    check_sizes(image.len(), n, m)?;
    image.fill(0);
    image[0] = 1;
    image[1] = n;
    image[2] = m;
    Ok(())
}
