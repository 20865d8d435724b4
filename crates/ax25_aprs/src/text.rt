// Position text and messages: `text_encode` and `text_decode` of the source.
ghost use Rattle.std.specs.Prelude.{◌≡◌, true, ◌&&◌, ◌+◌, ◌-◌, ◌*◌, ◌^◌, ◌≤◌, ◌<◌, length, take, drop, eqb, leb};
ghost use Rattle.laws.specs.Bits.{bits_of, unpack};
ghost use Rattle.laws.specs.Wrote.{Wrote};
ghost use Rattle.ax25_aprs.specs.Coded.{or_refused};
ghost use Rattle.ax25_aprs.specs.Text.{altitude, altitude_bits, front_bits, front_size, text_bits, altitude_text, code_text, code_span, read_text};
ghost use Rattle.ax25_aprs.specs.Runs.{part_bits, part_size};
ghost use Rattle.bits.specs.Read.{numbers};
ghost use Rattle.ax25_aprs.specs.Put.{Stepped, Does};
ghost use Rattle.ax25_aprs.specs.Selves.{Selves};
ghost use Rattle.ax25_aprs.specs.Words.{Spells};

use crate::{field, height, number, runs, words};
use refusals::Refusal;

// An altitude: in a position type, the first word with four more bytes.
fn is_altitude(position: bool, n: usize, len: usize) -> bool
    ensures { result ≡ position && (eqb n 1 && leb 9 len) }
{
    position && n == 1 && 9 <= len
}

// The first word, and the number after it in 14 bits: how many bytes that took, and the next position. None where the altitude is no number.
fn with_altitude(s: &[u8], out: &mut [u8], at: usize) -> Option<(usize, usize)>
    requires { (9 ≤ length s.now) × (at < 2 ^ 61) }
    ensures { Stepped (altitude_bits (altitude (take 4 (drop 5 s.now)))) 9 (unpack out.old) at (unpack out.new) result }
{
    let a = height::read(&s[5..9])?;
    let next = bits_write::push(out, at, 1, 7);
    Some((9, bits_write::push_bfi(out, next, a, 14)))
}

// What stands at the front: an altitude, a word or, where there is none, a byte.
fn front_as(
    s: &[u8],
    word: Option<usize>,
    position: bool,
    out: &mut [u8],
    at: usize,
) -> Option<(usize, usize)>
    requires { Spells s.now word × (0 < length s.now) × (at < 2 ^ 61) }
    ensures { Stepped (front_bits position s.now) (front_size position s.now) (unpack out.old) at (unpack out.new) result }
{
    let Some(n) = word else {
        return Some((1, bits_write::push_bfi(out, at, u64::from(s[0]), 7)));
    };
    if is_altitude(position, n, s.len()) {
        return with_altitude(s, out, at);
    }
    Some((words::word(n).len(), bits_write::push(out, at, n as u64, 7)))
}

// What stands at the front or, where that is a plain byte, all the plain bytes there at once.
fn part(s: &[u8], position: bool, out: &mut [u8], at: usize) -> Option<(usize, usize)>
    requires { (0 < length s.now) × (at + length s.now * 7 < 2 ^ 61) }
    ensures { Stepped (part_bits position s.now) (part_size position s.now) (unpack out.old) at (unpack out.new) result }
{
    let word = words::word_at(s);
    if word.is_some() || 0x80 <= s[0] {
        return front_as(s, word, position, out, at);
    }
    let size = runs::plain(s);
    Some((size, bits_write::push_sevens(out, at, &s[0..size])))
}

// A text from a position on; where an altitude is no number nothing is said of the output. A part takes one byte or many, so that no
// `for` counts them.
pub fn text_encode(s: &[u8], position: bool, out: &mut [u8], at: usize) -> Result<usize, Refusal>
    requires { at + length s.now * 7 < 2 ^ 61 }
    ensures { Does (or_refused 5 (text_bits position s.now)) (unpack out.old) at (unpack out.new) result }
{
    let mut i = 0;
    let mut next = at;
    while i < s.len() {
        let (size, place) = part(&s[i..], position, out, next).ok_or(Refusal::Format)?;
        i += size;
        next = place;
    }
    Ok(next)
}

// How many bits a code takes after it.
#[tactic(auto, unfolding(crate::specs::Text::code_span, laws::specs::Pick::pick))]
fn span(position: bool, code: u64) -> usize
    ensures { result ≡ code_span position code }
{
    if position && code == 1 { 14 } else { 0 }
}

// In a position type the number after the first word. The next place.
fn put_altitude(s: &[u8], at: usize, position: bool, out: &mut [u8], to: usize) -> usize
    requires { (length s.now < 2 ^ 56) × (to < 2 ^ 61) }
    ensures { Wrote out.old to (altitude_text position (drop at (unpack s.now))) out.new result }
{
    if !position {
        return to;
    }
    let n = bits::reader::remaining_at(s, at).min(14);
    number::put_padded(out, to, 4, field::value(s, at, n))
}

// What a code of seven bits stands for, by its range, with the bits after it. The next place.
fn put_code(s: &[u8], at: usize, position: bool, code: u64, out: &mut [u8], to: usize) -> usize
    requires { (length s.now < 2 ^ 56) × (code < 128) × (to < 2 ^ 60) }
    ensures { Wrote out.old to (code_text position code (drop at (unpack s.now))) out.new result }
{
    match code {
        0 => to,
        1 => {
            let next = words::put_word(out, to, 1);
            put_altitude(s, at, position, out, next)
        }
        2..=9 => words::put_word(out, to, code as usize),
        10..=31 => to,
        32..=127 => bits_write::byte(out, to, code as u8),
        _ => to,
    }
}

// True only where each of the eight codes of seven bits in a word is 32 or more: one of its first two bits is set.
fn all_selves(v: u64) -> bool
    ensures { result ≡ true → Selves 8 (bits_of 56 v) }
{
    // the second bit of each code, and with it the first, which the shift brings there
    let second: u64 = 0x0040_8102_0408_1020;
    (v | (v >> 1)) & second == second
}

// How many codes from a position on stand for themselves, counted by eights as long as eight bytes are left. The count and the position
// both go on, so that the loop multiplies nothing.
fn selves(s: &[u8], at: usize) -> usize
    requires { length s.now < 2 ^ 55 }
    ensures { (result * 7 ≤ length s.now * 8 - at) × Selves result (drop at (unpack s.now)) }
{
    let mut n = 0;
    let mut i = at;
    while i / 8 + 8 <= s.len() && all_selves(bits::read::block(s, i)) {
        n += 8;
        i += 56;
    }
    n
}

// Those codes, written from a place of the output on. How many.
fn put_selves(s: &[u8], at: usize, out: &mut [u8], to: usize) -> usize
    requires { (length s.now < 2 ^ 55) × (to < 2 ^ 60) }
    ensures result_in_bounds { (result * 7 ≤ length s.now * 8 - at) × Selves result (drop at (unpack s.now)) }
    ensures wrote { Wrote out.old to (numbers 7 result (drop at (unpack s.now))) out.new (to + result) }
{
    let n = selves(s, at);
    bits::read::sevens(s, at, n, out, to);
    n
}

// The text from a position on, written from a place of the output on. The next place. A code takes its own bits and those after it, so
// that no `for` counts them.
pub fn text_decode(s: &[u8], at: usize, position: bool, out: &mut [u8], to: usize) -> usize
    requires { (length s.now < 2 ^ 55) × (to < 2 ^ 56) }
    ensures { Wrote out.old to (read_text position (drop at (unpack s.now))) out.new result }
{
    let mut i = at;
    let mut next = to;
    while 7 <= bits::reader::remaining_at(s, i) {
        let n = put_selves(s, i, out, next);
        i += n * 7;
        next += n;
        if bits::reader::remaining_at(s, i) < 7 {
            return next;
        }
        let code = field::value(s, i, 7);
        let after = i + 7;
        next = put_code(s, after, position, code, out, next);
        i = after + span(position, code);
    }
    next
}
