// Fields put into a lent buffer, each answering where the next goes.
ghost use Rattle.std.specs.Prelude.{◌≡◌, ◌∷◌, ◌+◌, ◌*◌, ◌≤◌, length};
ghost use Rattle.lines.specs.Put.{Put};
ghost use Rattle.lines.specs.Line.{decimal_of, field, numbers, head_of, result_of};

// The bytes of a text.
#[tactic(auto, using(crate::proofs::Puts::put_copied))]
pub fn put_text(out: &mut [u8], at: usize, text: &[u8]) -> usize
    requires { at + length text.now ≤ length out.old }
    ensures { Put text.now at out.old out.new result }
{
    let end = at + text.len();
    out[at..end].copy_from_slice(text);
    end
}

// A number in decimal digits.
pub fn put_number(out: &mut [u8], at: usize, n: u64) -> usize
    requires { at + 20 ≤ length out.old }
    ensures put { Put (decimal_of n) at out.old out.new result }
    ensures upper_bound { result ≤ at + 20 }
{
    if n < 10 {
        out[at] = b'0' + n as u8;
        return at + 1;
    }
    let mut digits = [0u8; 20];
    let k = io::decimal(n, &mut digits);
    put_text(out, at, &digits[..k])
}

// A space and the text, or nothing if the text is empty.
fn put_field(out: &mut [u8], at: usize, text: &[u8]) -> usize
    requires { at + length text.now + 1 ≤ length out.old }
    ensures put { Put (field text.now) at out.old out.new result }
    ensures upper_bound { result ≤ at + length text.now + 1 }
{
    if text.is_empty() {
        return at;
    }
    out[at] = b' ';
    put_text(out, at + 1, text)
}

fn put_field_number(out: &mut [u8], at: usize, n: u64) -> usize
    requires { at + 21 ≤ length out.old }
    ensures put { Put (32 ∷ decimal_of n) at out.old out.new result }
    ensures upper_bound { result ≤ at + 21 }
{
    out[at] = b' ';
    put_number(out, at + 1, n)
}

// A space and a number, for each.
pub fn put_numbers(out: &mut [u8], at: usize, ns: &[u64]) -> usize
    requires { at + 21 * length ns.now ≤ length out.old }
    ensures put { Put (numbers ns.now) at out.old out.new result }
    ensures upper_bound { result ≤ at + 21 * length ns.now }
{
    let mut next = at;
    for &n in ns {
        next = put_field_number(out, next, n);
    }
    next
}

// Step number, call and arguments.
pub fn put_head(out: &mut [u8], at: usize, number: u64, name: &[u8], args: &[u64]) -> usize
    requires { (at + 79 ≤ length out.old) × (length name.now ≤ 16) × (length args.now ≤ 2) }
    ensures put { Put (head_of number name.now args.now) at out.old out.new result }
    ensures upper_bound { result ≤ at + 79 }
{
    let a = put_number(out, at, number);
    let b = put_field(out, a, name);
    put_numbers(out, b, args)
}

// A result: a word, numbers, a word; what is empty leaves no field.
pub fn put_result(out: &mut [u8], at: usize, word: &[u8], values: &[u64], last: &[u8]) -> usize
    requires { (at + 118 ≤ length out.old) × (length word.now ≤ 16) × (length values.now ≤ 4) × (length last.now ≤ 16) }
    ensures put { Put (result_of word.now values.now last.now) at out.old out.new result }
    ensures upper_bound { result ≤ at + 118 }
{
    let a = put_field(out, at, word);
    let b = put_numbers(out, a, values);
    put_field(out, b, last)
}
