// The lines of the report, put into a lent buffer.
ghost use Rattle.std.specs.Prelude.{◌≡◌, ◌+◌, ◌≤◌, length};
ghost use Rattle.lines.specs.Put.{Put};
ghost use Rattle.sheet.specs.Bytes.{laid_over};
ghost use Rattle.sheet.specs.Sheet.{row_of, filled_text, report_text, printed};

use crate::bytes::{put_words, word_count};
use report::{CarrierLine, FilledTable, Totals};

// A name and numbers, and the line's end.
fn put_row(out: &mut [u8], at: usize, name: &[u8], values: &[u64]) -> usize
    requires { (at + 64 ≤ length out.old) × (length name.now ≤ 3) × (length values.now ≤ 2) }
    ensures put { Put (row_of name.now values.now) at out.old out.new result }
    ensures upper_bound { result ≤ at + 64 }
{
    let a = lines::put_text(out, at, name);
    let b = lines::put_numbers(out, a, values);
    out[b] = 10;
    b + 1
}

// The five lines of a report that was not refused.
fn put_filled(out: &mut [u8], totals: Totals, lines: [CarrierLine; 3]) -> usize
    requires { 320 ≤ length out.old }
    ensures put { Put (filled_text totals lines) 0 out.old out.new result }
    ensures upper_bound { result ≤ 320 }
{
    let [one, two, three] = lines;
    let a = put_row(out, 0, b"1", &[one.reels, one.seconds]);
    let b = put_row(out, a, b"2", &[two.reels, two.seconds]);
    let c = put_row(out, b, b"3", &[three.reels, three.seconds]);
    let d = put_row(out, c, b"all", &[totals.reels, totals.seconds]);
    put_row(out, d, b"bad", &[totals.bad])
}

// The report of an image, at the start of the buffer; the answer is how many bytes it has.
fn put_report(out: &mut [u8], image: &[u64]) -> usize
    requires { 320 ≤ length out.old }
    ensures put { Put (report_text image.now) 0 out.old out.new result }
    ensures upper_bound { result ≤ 320 }
{
    let FilledTable { totals, lines } = report::fill_table(image);
    match totals {
        Ok(totals) => put_filled(out, totals, lines),
        Err(refusal) => put_row(out, 0, b"no", &[refusal.number()]),
    }
}

// The report of an image that is given as bytes, at the start of the buffer; the answer is how many bytes were put. The image's words are put
// at the start of `image`.
pub fn put_sheet(out: &mut [u8], image: &mut [u64], bytes: &[u8]) -> usize
    requires { (320 ≤ length out.old) × (1732 ≤ length image.old) }
    ensures text { Put (printed bytes.now) 0 out.old out.new result }
    ensures size { result ≤ 320 }
    ensures image { image.new ≡ laid_over bytes.now image.old }
{
    let k = word_count(bytes.len());
    put_words(bytes, image, k);
    put_report(out, &image[..k])
}
