// Bytes in hexadecimal, two digits each: written in capitals, read in capitals and small letters.
ghost use Rattle.std.specs.Prelude.{◌≡◌, true, ◌*◌, ◌^◌, ◌≤◌, ◌<◌, length, slice_index};
ghost use Rattle.laws.specs.Wrote.{Wrote};
ghost use Rattle.texts.specs.Hex.{digit_of, hex_byte, hex_of, hex_value, is_hex, bytes_of, read_of, left_by};

use bits_write::byte;

const DIGITS: [u8; 16] = *b"0123456789ABCDEF";

// What is wrong with a text that spells no bytes.
#[derive(Clone, Copy, Debug, PartialEq, Eq)]
pub enum HexError {
    NoDigit,
    Odd,
    TooLong,
}

// The digit of a number below 16.
fn digit_of(n: u8) -> u8
    requires { n < 16 }
    ensures { result ≡ digit_of n }
{
    DIGITS[n as usize]
}

// The two digits of a byte. The next place.
pub fn put_byte(out: &mut [u8], at: usize, x: u8) -> usize
    requires { at < 2 ^ 61 }
    ensures { Wrote out.old at (hex_byte x) out.new result }
{
    let low = byte(out, at, digit_of(x / 16));
    byte(out, low, digit_of(x % 16))
}

// The digits of bytes. The next place.
pub fn put_hex(out: &mut [u8], at: usize, s: &[u8]) -> usize
    requires { (at < 2 ^ 60) × (length s.now < 2 ^ 56) }
    ensures { Wrote out.old at (hex_of s.now) out.new result }
{
    let mut next = at;
    for x in s {
        next = put_byte(out, next, *x);
    }
    next
}

// The value of a digit, or 16 where it is none. An `Option` in place of the 16 was tried and measured: LLVM then reads the digits one by
// one and not many at once, and a run of `receive` takes a third longer.
fn digit(c: u8) -> u8
    ensures { (result ≡ hex_value c) × (result ≤ 16) }
{
    match c {
        b'0'..=b'9' => c - b'0',
        b'A'..=b'F' => c - b'A' + 10,
        b'a'..=b'f' => c - b'a' + 10,
        _ => 16,
    }
}

// Every byte is a digit.
fn is_hex(text: &[u8]) -> bool
    ensures { result ≡ is_hex text.now }
{
    text.iter().all(|c| c.is_ascii_hexdigit())
}

// The value of digit i of a text of digits.
fn value_at(text: &[u8], i: usize) -> u8
    requires { (is_hex text.now ≡ true) × (i < length text.now) }
    ensures { (result ≡ hex_value (slice_index text.now i)) × (result < 16) }
{
    digit(text[i])
}

// The bytes that pairs of digits spell, at the front of `out`.
fn pairs(text: &[u8], n: usize, out: &mut [u8])
    requires { (is_hex text.now ≡ true) × (length text.now ≡ n * 2) × (n < 2 ^ 62) }
    ensures { Wrote out.old 0 (bytes_of text.now) out.new n }
{
    for i in 0..n {
        byte(
            out,
            i,
            value_at(text, i * 2) * 16 + value_at(text, i * 2 + 1),
        );
    }
}

// Puts the bytes that a text spells at the front of `out`: how many. Where something is wrong `out` is as before.
pub fn read_hex(text: &[u8], out: &mut [u8]) -> Result<usize, HexError>
    ensures { (result ≡ read_of (length out.old) text.now) × (out.new ≡ left_by result text.now out.old) }
{
    if !is_hex(text) {
        return Err(HexError::NoDigit);
    }
    if text.len() % 2 == 1 {
        return Err(HexError::Odd);
    }
    let n = text.len() / 2;
    if out.len() < n {
        return Err(HexError::TooLong);
    }
    pairs(text, n, out);
    Ok(n)
}
