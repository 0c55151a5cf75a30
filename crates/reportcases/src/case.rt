// A case: how many lines are lent, the number of bytes, the bytes of an image. The functions that have a `requires` are for use inside this
// crate.
ghost use Rattle.std.specs.Prelude.{◌+◌, ◌≤◌, ◌<◌, length, IfSome};

use crate::filling::{Table, fill};
use layout::Refusal;
use report::{CarrierLine, Totals};
use std::array;
use std::io::Stdout;

// How many bytes the case at a place takes; none where there is no whole one, or one that is too long.
pub fn case_size(input: &[u8; 65536], at: usize, have: usize) -> Option<usize>
    requires { (at ≤ have) × (have ≤ 65536) }
    ensures { IfSome result (λ size. (5 ≤ size) × (at + size ≤ have) × (size ≤ 14412)) }
{
    if have - at < 5 {
        return None;
    }
    let number = [input[at + 1], input[at + 2], input[at + 3], input[at + 4]];
    let size = 5 + u32::from_le_bytes(number) as usize;
    if size <= have - at && size <= 14412 {
        Some(size)
    } else {
        None
    }
}

// How many lines are lent: five at most.
fn room_of(byte: u8) -> usize
    ensures { result ≤ 5 }
{
    usize::from(byte).min(5)
}

// A line before the call.
fn marked(i: u64) -> CarrierLine
    requires { i < 5 }
{
    CarrierLine {
        reels: 0xA5A5A5A500000000 + 2 * i,
        seconds: 0xA5A5A5A500000001 + 2 * i,
    }
}

// The number of the refusal and no totals, or 0 and the totals.
fn answer_fields(answer: Result<Totals, Refusal>) -> [u64; 5] {
    match answer {
        Ok(
            Totals {
                reels,
                seconds,
                bad,
                unused,
            },
        ) => [0, reels, seconds, bad, unused],
        Err(refusal) => [refusal.number(), 0, 0, 0, 0],
    }
}

// The fields of a case behind its number.
fn fields(room: usize, table: Table) -> [u64; 16] {
    let [number, reels, seconds, bad, unused] = answer_fields(table.totals);
    let [l0, l1, l2, l3, l4] = table.lines;
    [
        room as u64,
        number,
        reels,
        seconds,
        bad,
        unused,
        l0.reels,
        l0.seconds,
        l1.reels,
        l1.seconds,
        l2.reels,
        l2.seconds,
        l3.reels,
        l3.seconds,
        l4.reels,
        l4.seconds,
    ]
}

// The report of the bytes' whole words, with a table of `room` lines.
fn filled(bytes: &[u8], room: usize) -> Table
    requires { (room ≤ 5) × (length bytes.now ≤ 14407) }
{
    let mut words = [0; 1800];
    let k = bytes.len() / 8;
    sheet::put_words(bytes, &mut words, k);
    fill(&words[..k], array::from_fn(|i| marked(i as u64)), room)
}

// Writes a case's number and fields, parted by one space. The buffer is all line ends at first, so that one stands behind the last field.
fn write_line(stdout: Stdout, number: u64, fields: [u64; 16]) -> bool {
    let mut out: [u8; 357] = [10; 357];
    let a = lines::put_number(&mut out, 0, number);
    let b = lines::put_numbers(&mut out, a, &fields);
    stdout.write_all(&out[0..b + 1]).is_ok()
}

// Writes what the program prints of the bytes.
fn write_sheet(stdout: Stdout, bytes: &[u8]) -> bool {
    let mut words: [u64; 1732] = [0; 1732];
    let mut out: [u8; 320] = [0; 320];
    let n = sheet::put_sheet(&mut out, &mut words, bytes);
    stdout.write_all(&out[..n]).is_ok()
}

// Makes the call of a case and writes its lines; the answer is whether all was taken.
pub fn show(stdout: Stdout, number: u64, given: &[u8]) -> bool
    requires { (5 ≤ length given.now) × (length given.now ≤ 14412) }
{
    let room = room_of(given[0]);
    let table = filled(&given[5..], room);
    write_line(stdout, number, fields(room, table)) && write_sheet(stdout, &given[5..])
}
