// A cut: of a step that stores, only the first entries arrive.
ghost use Rattle.std.specs.Prelude.{◌≡◌};
ghost use Rattle.steps.specs.Cut.{overlaid, entry_made, replayed, cut_back};

// Copies an image over another slice from the first word on, as far as both reach.
pub fn keep(image: &[u64], before: &mut [u64])
    ensures { before.new ≡ overlaid image.now before.old }
{
    let n = image.len().min(before.len());
    before[..n].copy_from_slice(&image[..n]);
}

// Makes one entry. A fence, and any index past the image's end, changes nothing.
fn arrive(image: &mut [u64], index: u64, word: u64)
    ensures { image.new ≡ entry_made index word image.old }
{
    if index < image.len() as u64 {
        image[index as usize] = word;
    }
}

// Makes the first `count` entries of a trace, as far as it has two words for each.
fn replay(image: &mut [u64], trace: &[u64], count: u64)
    ensures { image.new ≡ replayed count trace.now image.old }
{
    let (pairs, _) = trace.as_chunks::<2>();
    let n = pairs.len().min(count as usize);
    for &[index, word] in &pairs[..n] {
        arrive(image, index, word);
    }
}

// Brings the image back to what was kept before a step, with the first k of the step's entries made, all if it has fewer.
pub fn cut_back(image: &mut [u64], before: &[u64], trace: &[u64], entries: u64, k: u64)
    ensures { image.new ≡ cut_back image.old before.now trace.now entries k }
{
    keep(before, image);
    replay(image, trace, entries.min(k));
}
