// Call tokens: a call of at most 16 bytes, read from bits and written to bits.
#![tactic(auto)]

pub mod encode;
pub mod names;

ghost use Rattle.std.specs.Prelude.{◌≡◌, ◌+◌, ◌-◌, ◌^◌, ◌≤◌, ◌<◌, ℕ, length, get_or, drop};
ghost use Rattle.laws.specs.Bits.{unpack};
ghost use Rattle.laws.specs.Text.{ascii};
ghost use Rattle.bits.specs.Read.{took, after_of};
ghost use Rattle.ax25_token.specs.Call.{empty, pushed, appended, call_of, UpTo, texts, behind_call, form_name, took_wide};
ghost use Rattle.ax25_token.specs.Tables.{call_alphabet};
ghost use Rattle.ax25_token.specs.Token.{two_digits, suffix, form_of, read_letters, read_spelled, read_pair, read_number, read_form, read_token};

use bits::reader::{Two, bit_take_at, bit_text_at, take_at};
use std::marker::Model;

// A call: its text is the first len bytes, and len is at most 16. It is put together letter by letter, and memory is fixed: so it is an array
// with a length.
#[derive(Clone, Copy)]
pub struct Call {
    pub bytes: [u8; 16],
    pub len: usize,
}

// Contracts see the two fields. That len is at most 16 is proved wherever a call is built.
impl Model for Call {
    ghost use Rattle.std.specs.Prelude.{◌≤◌};
    ghost use Rattle.ax25_token.specs.Call.{Call as Shown};

    ghost Value = { Shown };

    ghost view = { λ c. record { bytes = c.bytes; len = c.len } };

    ghost invariant = { λ c. c.len ≤ 16 };

    ghost inverse = { λ c. record { bytes = c.bytes; len = c.len } };
}

// CALL_ALPHABET of the source.
static CALL_ALPHABET: [u8; 37] = *b" ABCDEFGHIJKLMNOPQRSTUVWXYZ0123456789";

// The names of PAIRS, FIXED and NUMBERED, from index 37 on, each with its length: a static cannot hold a Call, which has an invariant.
static NAMES: [([u8; 16], usize); 15] = [
    (*b"WIDE            ", 4),
    (*b"PNW             ", 3),
    (*b"MW              ", 2),
    (*b"OR              ", 2),
    (*b"WA              ", 2),
    (*b"ALL             ", 3),
    (*b"CQ              ", 2),
    (*b"APIN            ", 4),
    (*b"APWW            ", 4),
    (*b"APDR            ", 4),
    (*b"APBPQ1          ", 6),
    (*b"APJYC1          ", 6),
    (*b"APOPYT          ", 6),
    (*b"APU25N          ", 6),
    (*b"APVARA          ", 6),
];

// The call with a byte more.
pub fn push(c: Call, b: u8) -> Call
    requires { c.len < 16 }
    ensures { (result ≡ pushed c b) × (result.len ≡ c.len + 1) }
{
    let mut bytes = c.bytes;
    bytes[c.len] = b;
    Call {
        bytes,
        len: c.len + 1,
    }
}

// The letter of a code.
fn letter(v: u64) -> u8
    requires { v < 37 }
    ensures { result ≡ get_or call_alphabet v 0 }
{
    CALL_ALPHABET[v as usize]
}

// At most n letters, up to a blank, after what the call holds. A code that is no letter ends a strict reading; another skips it.
fn letters(s: &[u8], at: usize, n: usize, strict: bool, c: Call) -> Option<(Call, usize)>
    requires { (length s.now < 2 ^ 60) × (c.len + n ≤ 16) }
    ensures { (call_of (unpack s.now) result ≡ behind_call c (read_letters strict n (drop at (unpack s.now)))) × UpTo (c.len + n) result }
{
    let mut bytes = c.bytes;
    let mut len = c.len;
    let mut p = at;
    for _ in 0..n {
        let (v, q) = take_at(s, p, 6)?;
        p = q;
        if v == 0 {
            return Some((Call { bytes, len }, p));
        }
        if v < 37 {
            bytes[len] = letter(v);
            len += 1;
        } else if strict {
            return None;
        }
    }
    Some((Call { bytes, len }, p))
}

// The call with two digits.
fn two_digits(c: Call, v: u64) -> Call
    requires { (c.len ≤ 14) × (v < 100) }
    ensures { (result ≡ appended c (two_digits v)) × (result.len ≡ c.len + 2) }
{
    let d = push(c, (48 + v / 10) as u8);
    push(d, (48 + v % 10) as u8)
}

// The call with a hyphen and a number, 0 unwritten. The bytes are stored in place: a call handed on by value would be loaded whole after each.
pub fn suffixed(c: Call, v: u64) -> Call
    requires { (c.len ≤ 13) × (v < 100) }
    ensures { (result ≡ appended c (suffix v)) × (result.len ≤ c.len + 3) }
{
    if v == 0 {
        return c;
    }
    let mut bytes = c.bytes;
    bytes[c.len] = b'-';
    let first = c.len + 1;
    if v < 10 {
        bytes[first] = (48 + v) as u8;
        return Call {
            bytes,
            len: first + 1,
        };
    }
    bytes[first] = (48 + v / 10) as u8;
    let second = first + 1;
    bytes[second] = (48 + v % 10) as u8;
    Call {
        bytes,
        len: second + 1,
    }
}

// At most n letters and the SSID.
fn spelled(s: &[u8], at: usize, n: usize, c: Call) -> Option<(Call, usize)>
    requires { (length s.now < 2 ^ 60) × (c.len + n ≤ 13) }
    ensures { (call_of (unpack s.now) result ≡ behind_call c (read_spelled n (drop at (unpack s.now)))) × UpTo (c.len + (n + 3)) result }
{
    let (d, p) = letters(s, at, n, false, c)?;
    let (v, q) = take_at(s, p, 4)?;
    Some((suffixed(d, v), q))
}

// The bit of a digit and the number after it, whose w bits are decimal digits in the original reading and a binary number in the mended one.
fn pair_at(s: &[u8], at: usize, w: usize, mended: bool) -> Two
    requires { (w ≤ 2) × (length s.now < 2 ^ 60) }
    ensures { (result.first ≡ took 1 (unpack s.now) at) × (result.second ≡ took_wide mended w (unpack s.now) (after_of result.first at)) }
{
    if mended {
        bit_take_at(s, at, w)
    } else {
        bit_text_at(s, at, w)
    }
}

// A digit, 1 or 2, and a number of w bits.
fn pair(s: &[u8], at: usize, w: usize, c: Call, mended: bool) -> Option<(Call, usize)>
    requires { (length s.now < 2 ^ 60) × (c.len ≤ 12) × (w ≤ 2) }
    ensures { (call_of (unpack s.now) result ≡ behind_call c (read_pair mended w (drop at (unpack s.now)))) × UpTo (c.len + 4) result }
{
    let two = pair_at(s, at, w, mended);
    let (d, _) = two.first?;
    let (v, q) = two.second?;
    let e = push(c, (49 + d) as u8);
    Some((suffixed(e, v), q))
}

// A number of w bits, counted from low.
fn number(s: &[u8], at: usize, low: u64, w: usize, c: Call) -> Option<(Call, usize)>
    requires { (length s.now < 2 ^ 60) × (c.len ≤ 14) × (w ≤ 5) × (low < 64) }
    ensures { (call_of (unpack s.now) result ≡ behind_call c (read_number low w (drop at (unpack s.now)))) × UpTo (c.len + 2) result }
{
    let (v, q) = take_at(s, at, w)?;
    Some((two_digits(c, v + low), q))
}

// The name of an index from 37 to 51.
fn name(i: u64) -> Call
    requires { (37 ≤ i) × (i ≤ 51) }
    ensures { (result ≡ appended empty (form_name (form_of i))) × (result.len ≤ 6) }
{
    let (bytes, len) = NAMES[(i - 37) as usize];
    Call { bytes, len }
}

// The token of an index from 37 to 51.
fn named(s: &[u8], at: usize, i: u64, mended: bool) -> Option<(Call, usize)>
    requires { (length s.now < 2 ^ 60) × (37 ≤ i) × (i ≤ 51) }
    ensures { ((l : ℕ) → call_of (unpack s.now) result ≡ behind_call empty (read_form mended l (form_of i) (drop at (unpack s.now)))) × UpTo 10 result }
{
    let c = name(i);
    match i {
        37 => pair(s, at, 2, c, mended),
        38..=41 => pair(s, at, 1, c, mended),
        44 => number(s, at, 20, 4, c),
        45 => number(s, at, 11, 3, c),
        46 => number(s, at, 16, 5, c),
        _ => Some((c, at)),
    }
}

// The call of one letter.
fn first(i: u64) -> Call
    requires { i < 37 }
    ensures { (result ≡ pushed empty (get_or call_alphabet i 0)) × (result.len ≡ 1) }
{
    let c = Call {
        bytes: [32u8; 16],
        len: 0,
    };
    push(c, letter(i))
}

// The call AP.
fn begun() -> Call
    ensures { (result ≡ appended empty (ascii "AP")) × (result.len ≡ 2) }
{
    Call {
        bytes: *b"AP              ",
        len: 2,
    }
}

// The token at a position of the bits, for calls of l letters, in the original reading or the mended one.
pub fn token_decode(s: &[u8], at: usize, l: usize, mended: bool) -> Option<(Call, usize)>
    requires { (length s.now < 2 ^ 60) × (2 ≤ l) × (l ≤ 7) }
    ensures { (texts (call_of (unpack s.now) result) ≡ read_token mended l (drop at (unpack s.now))) × UpTo 10 result }
{
    let (i, p) = take_at(s, at, 6)?;
    match i {
        0..=36 => spelled(s, p, l - 1, first(i)),
        37..=51 => named(s, p, i, mended),
        52 => letters(s, p, l - 2, true, begun()),
        _ => None,
    }
}
