// The fields of a line, which single blanks part, their pieces, and the numbers and bytes that they spell.
ghost use Rattle.std.specs.Prelude.{◌≤◌, ◌<◌, length, IfSome};

use texts::hex::read_hex;
use texts::number::decimal;
use texts::part::piece;

// A field of a line, counted from 0, which is the kind.
pub fn field(line: &[u8], k: usize) -> &[u8] {
    piece(line, k, b' ')
}

// How many pieces a byte parts a text into: one more than it stands there.
pub fn pieces(s: &[u8], b: u8) -> usize
    ensures { 0 < result }
{
    s.iter().filter(|x| **x == b).count() + 1
}

// How many fields a line has.
pub fn fields(line: &[u8]) -> usize
    ensures { 0 < result }
{
    pieces(line, b' ')
}

// The last field, which has the answer.
pub fn last(line: &[u8]) -> &[u8] {
    field(line, fields(line) - 1)
}

// The number that a text spells, as it is recorded: with no zero in front.
pub fn numeral(text: &[u8]) -> Option<u64> {
    match text {
        [b'0', _, ..] => None,
        _ => decimal(text),
    }
}

// Puts the numbers after the kind into `out`, as many as it has room for. False where a field there is no number, or
// where the line has not `count` fields.
pub fn numbers(line: &[u8], count: usize, out: &mut [u64]) -> bool {
    if fields(line) != count {
        return false;
    }
    for (i, v) in out.iter_mut().enumerate() {
        let Some(number) = numeral(field(line, i + 1)) else {
            return false;
        };
        *v = number;
    }
    true
}

// Whether no byte of a text is above F, as every small letter is.
fn is_capital(text: &[u8]) -> bool {
    text.iter().all(|c| *c <= b'F')
}

// Puts the bytes that a text spells, two capital hexadecimal digits each or `-` for none, at the start of `out`: how many. None where
// it spells none, or where there is no room for them.
pub fn hex(text: &[u8], out: &mut [u8]) -> Option<usize>
    ensures { IfSome result (λ n. n ≤ length out.new) }
{
    if text == b"-".as_slice() {
        return Some(0);
    }
    if text.is_empty() || !is_capital(text) {
        return None;
    }
    read_hex(text, out).ok()
}

// Puts the bytes that a text spells into `out`, which they must fill.
pub fn all_hex(text: &[u8], out: &mut [u8]) -> bool {
    hex(text, out) == Some(out.len())
}

// Reads a line of numbers, a few bytes where `few` has room for any, bytes and an answer: fills `v` and `few`, and puts the
// bytes at the start of `out`: how many. None where the line is another.
pub fn inputs(line: &[u8], v: &mut [u64], few: &mut [u8], out: &mut [u8]) -> Option<usize>
    ensures { IfSome result (λ n. n ≤ length out.new) }
{
    let next = v.len() + 1;
    if few.is_empty() {
        if !numbers(line, next + 2, v) {
            return None;
        }
        return hex(field(line, next), out);
    }
    if !numbers(line, next + 3, v) || !all_hex(field(line, next), few) {
        return None;
    }
    hex(field(line, next + 1), out)
}

// V AT W N of a line.
#[derive(Clone, Copy, Debug, PartialEq, Eq)]
pub struct Words {
    pub v: u64,
    pub at: usize,
    pub w: u64,
    pub n: usize,
}

// Reads the numbers of a push or bfi line. None where a width is more than a word's.
pub fn two_words(line: &[u8]) -> Option<Words>
    ensures { IfSome result (λ r. (r.at ≤ 64) × (r.n ≤ 64)) }
{
    let mut read = [0u64; 4];
    if !numbers(line, 6, &mut read) {
        return None;
    }
    let [v, at, w, n] = read;
    if 64 < at || 64 < n {
        return None;
    }
    Some(Words {
        v,
        at: at as usize,
        w,
        n: n as usize,
    })
}

// What goes into a call KIND:N:HEX of a history: N, and how many bytes.
#[derive(Clone, Copy, Debug, PartialEq, Eq)]
pub struct Given {
    pub n: u64,
    pub size: usize,
}

// Reads a call of a history, and puts its bytes at the start of `out`.
pub fn call_of(text: &[u8], out: &mut [u8]) -> Option<Given>
    ensures { IfSome result (λ given. given.size ≤ length out.new) }
{
    if pieces(text, b':') != 3 {
        return None;
    }
    let n = numeral(piece(text, 1, b':'))?;
    let size = hex(piece(text, 2, b':'), out)?;
    Some(Given { n, size })
}
