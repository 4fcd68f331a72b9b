// Numbers as text. A number fits into the room that is asked for, so that it is put there and then: `write!` would answer a `Result` for each, of
// which none is an error. The digits are put into the list of a text from a place on, and the place after them is handed on, since by a text that
// writes its length with every byte a listing took a sixth more instructions (`docs/PERFORMANCE.md`).
ghost use Rattle.std.specs.Prelude.{[], ◌∷◌, ◌≡◌, ◌+◌, ◌*◌, ◌/◌, ◌%◌, ◌≤◌, ◌<◌, length, map, set};
ghost use Rattle.listing.specs.Listing.{digit as digit_of, decimal_text, line_of};
ghost use Rattle.lines.specs.Putting.{PutAt};

// Below ten, so that the cast loses nothing; `try_from` would answer a `Result` that is never an error.
fn digit(d: u64) -> u8
    requires { d < 10 }
    ensures { result ≡ digit_of d }
{
    b'0' + d as u8
}

fn put_pair(out: &mut [u8], at: usize, n: u64)
    requires { (n < 100) × (at + 2 ≤ length out.old) }
    ensures { out.new ≡ set (set out.old at (digit_of (n / 10))) (at + 1) (digit_of (n % 10)) }
{
    out[at] = digit(n / 10);
    out[at + 1] = digit(n % 10);
}

// A number of one digit or two.
fn put_small(out: &mut [u8], at: usize, n: u64) -> usize
    requires { (n < 100) × (at + length (decimal_text n) ≤ length out.old) }
    ensures { PutAt at (decimal_text n) out.old out.new result }
{
    if n < 10 {
        out[at] = digit(n);
        return at + 1;
    }
    put_pair(out, at, n);
    at + 2
}

// Four digits to a division of a large number. The digits in front are put first, so none are counted before they are put.
fn put_number(out: &mut [u8], at: usize, n: u64) -> usize
    requires { at + length (decimal_text n) ≤ length out.old }
    ensures { PutAt at (decimal_text n) out.old out.new result }
{
    if n < 100 {
        return put_small(out, at, n);
    }
    if n < 10000 {
        let next = put_small(out, at, n / 100);
        put_pair(out, next, n % 100);
        return next + 2;
    }
    let next = put_number(out, at, n / 10000);
    let rest = n % 10000;
    put_pair(out, next, rest / 100);
    put_pair(out, next + 2, rest % 100);
    next + 4
}

// Most numbers of a listing are small, and one test spares them the call of a function that calls itself.
pub(crate) fn put_decimal(out: &mut [u8], at: usize, n: u64) -> usize
    requires { at + length (decimal_text n) ≤ length out.old }
    ensures { PutAt at (decimal_text n) out.old out.new result }
{
    if n < 100 {
        return put_small(out, at, n);
    }
    put_number(out, at, n)
}

// Numbers with single spaces between, and the line's end.
#[inline(always)]
pub(crate) fn put_line(out: &mut [u8], from: usize, numbers: &[u64]) -> usize
    requires { (0 < length numbers.now) × (from + 21 * length numbers.now ≤ length out.old) }
    ensures line { PutAt from (line_of (map decimal_text numbers.now)) out.old out.new result }
    ensures within { result ≤ from + 21 * length numbers.now }
{
    let mut at = put_decimal(out, from, numbers[0]);
    for &n in &numbers[1..] {
        out[at] = b' ';
        at = put_decimal(out, at + 1, n);
    }
    out[at] = b'\n';
    at + 1
}
