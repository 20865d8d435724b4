// Readers of bits in a slice, from a position on.
ghost use Rattle.std.specs.Prelude.{◌≡◌, false, map, ◌+◌, ◌-◌, ◌*◌, ◌/◌, ◌%◌, ◌^◌, ◌≤◌, ◌<◌, length, get_or, take, drop};
ghost use Rattle.std.proofs.lemmas.List.Edits.{sets};
ghost use Rattle.laws.specs.Bits.{odd, num, bits_of, value_of, pack_n, unpack};
ghost use Rattle.laws.specs.Digits.{number_of};
ghost use Rattle.laws.specs.Wrote.{Wrote};
ghost use Rattle.bits.specs.Read.{took, took_text, numbers, letter, after_of};
ghost use Rattle.bits.specs.Text7.{end_of, text7_of, text7_next, text7_left};

use bits_write::words::{one, power, wide, word};
use bits_write::{byte, least, put_bytes};

// The position after what was read from a position on: the same where there were too few bits.
pub(crate) fn after(t: Option<(u64, usize)>, at: usize) -> usize
    ensures { result ≡ after_of t at }
{
    match t {
        Some((_, p)) => p,
        None => at,
    }
}

// How many bits there are from a position on.
pub(crate) fn remaining(s: &[u8], at: usize) -> usize
    requires { length s.now < 2 ^ 60 }
    ensures { result ≡ length s.now * 8 - at }
{
    (s.len() * 8).saturating_sub(at)
}

// The bit at a position.
fn get_bit(s: &[u8], at: usize) -> u64
    requires { at < length s.now * 8 }
    ensures { result ≡ num (get_or (unpack s.now) at false) }
{
    let i = at / 8;
    let j = 7 - at % 8;
    (wide(s[i]) >> j) % 2
}

// The n bits from a position on, as a number, where eight bytes are left.
fn value_in(s: &[u8], at: usize, n: usize) -> u64
    requires { (n ≤ 56) × (at / 8 + 8 ≤ length s.now) }
    ensures { result ≡ value_of (take n (drop at (unpack s.now))) }
{
    let v = word(s, at / 8) >> (7 - at % 8);
    (v >> (57 - n)) % power(n)
}

// The n bits from a position on, as a number: in the eight bytes from the first of them on or, where fewer are left, in the last eight.
fn value_near(s: &[u8], at: usize, n: usize) -> u64
    requires { (0 < n) × (n ≤ 56) × (8 ≤ length s.now) × (at + n ≤ length s.now * 8) × (length s.now < 2 ^ 60) }
    ensures { result ≡ value_of (take n (drop at (unpack s.now))) }
{
    let i = least(at / 8, s.len() - 8);
    (word(s, i) >> (64 + i * 8 - (at + n))) % power(n)
}

// The n bits from a position on, one by one.
fn value_each(s: &[u8], at: usize, n: usize) -> u64
    requires { (n ≤ 64) × (at + n ≤ length s.now * 8) × (length s.now < 2 ^ 60) }
    ensures { result ≡ value_of (take n (drop at (unpack s.now))) }
{
    let mut v = 0;
    for i in 0..n {
        v = v * 2 + get_bit(s, at + i);
    }
    v
}

// The n bits from a position on, as a number.
fn value(s: &[u8], at: usize, n: usize) -> u64
    requires { (n ≤ 64) × (at + n ≤ length s.now * 8) × (length s.now < 2 ^ 60) }
    ensures { result ≡ value_of (take n (drop at (unpack s.now))) }
{
    if 56 < n {
        return value_each(s, at, n);
    }
    if at / 8 + 8 <= s.len() {
        return value_in(s, at, n);
    }
    if s.len() < 8 {
        return value_each(s, at, n);
    }
    if n == 0 {
        return 0;
    }
    value_near(s, at, n)
}

// The next n bits, as a number.
pub(crate) fn take(s: &[u8], at: usize, n: usize) -> Option<(u64, usize)>
    requires { (n ≤ 64) × (length s.now < 2 ^ 60) }
    ensures { result ≡ took n (unpack s.now) at }
{
    if remaining(s, at) < n {
        return None;
    }
    if n == 0 {
        return Some((0, at));
    }
    Some((value(s, at, n), at + n))
}

// The n bits from a position on, as decimal digits.
fn digits(s: &[u8], at: usize, n: usize) -> u64
    requires { (n ≤ 16) × (at + n ≤ length s.now * 8) × (length s.now < 2 ^ 60) }
    ensures { result ≡ number_of (map letter (take n (drop at (unpack s.now)))) }
{
    let mut v = 0;
    for i in 0..n {
        v = v * 10 + get_bit(s, at + i);
    }
    v
}

// The next n bits as text of 0 and 1, and the number that `vb_val` reads there.
pub(crate) fn text(s: &[u8], at: usize, n: usize) -> Option<(u64, usize)>
    requires { (n ≤ 16) × (length s.now < 2 ^ 60) }
    ensures { result ≡ took_text n (unpack s.now) at }
{
    if remaining(s, at) < n {
        return None;
    }
    if n == 0 {
        return Some((0, at));
    }
    Some((digits(s, at, n), at + n))
}

// How many bits there are up to the last that differs from the pad.
fn end_of(s: &[u8], pad: u64) -> usize
    requires { (pad < 2) × (length s.now < 2 ^ 60) }
    ensures { result ≡ end_of (odd pad) (unpack s.now) }
{
    for i in (0..s.len() * 8).rev() {
        if get_bit(s, i) != pad {
            return i + 1;
        }
    }
    0
}

// How many sevens there are from one position to another.
fn count(at: usize, end: usize) -> usize
    ensures { result ≡ (end - at) / 7 }
{
    end.saturating_sub(at) / 7
}

// The 56 bits from a position on, where eight bytes are left.
pub fn block(s: &[u8], at: usize) -> u64
    requires { at / 8 + 8 ≤ length s.now }
    ensures { bits_of 56 result ≡ take 56 (drop at (unpack s.now)) }
{
    word(s, at / 8) >> (8 - at % 8)
}

// The last seven bits of a word.
fn low(v: u64) -> u8
    ensures { result ≡ v % 128 }
{
    (v % 128) as u8
}

// Eight numbers of seven bits, to a place of the output.
fn put_eight(out: &mut [u8], to: usize, v: u64)
    requires { to + 8 ≤ length out.old }
    ensures { Wrote out.old to (numbers 7 8 (bits_of 56 v)) out.new (to + 8) }
{
    for k in 0..8 {
        out[to + k] = low(v >> ((7 - k) * 7));
    }
}

// Of n numbers of seven bits as many as go in blocks of eight, written from a place of the output on. How many.
fn blocks(s: &[u8], at: usize, n: usize, out: &mut [u8], to: usize) -> usize
    requires { (n ≤ (length s.now * 8 - at) / 7) × (length s.now < 2 ^ 60) × (to < length out.old) }
    ensures upper_bound { result ≤ n }
    ensures wrote { Wrote out.old to (numbers 7 result (drop at (unpack s.now))) out.new (to + result) }
{
    let most = least(n, out.len() - to);
    for k in 0..most / 8 {
        let p = at + k * 56;
        if s.len() < p / 8 + 8 {
            return k * 8;
        }
        put_eight(out, to + k * 8, block(s, p));
    }
    most / 8 * 8
}

// n numbers of w bits, one by one, written from a place of the output on. The next place.
fn each(s: &[u8], at: usize, w: usize, n: usize, out: &mut [u8], to: usize) -> usize
    requires { (0 < w) × (w ≤ 8) × (n * w ≤ length s.now * 8 - at) × (length s.now < 2 ^ 60) × (to + n < 2 ^ 62) }
    ensures { Wrote out.old to (numbers w n (drop at (unpack s.now))) out.new result }
{
    for i in 0..n {
        byte(out, to + i, value(s, at + i * w, w) as u8);
    }
    to + n
}

// n numbers of seven bits, written from a place of the output on. The next place.
pub fn sevens(s: &[u8], at: usize, n: usize, out: &mut [u8], to: usize) -> usize
    requires { (n ≤ (length s.now * 8 - at) / 7) × (length s.now < 2 ^ 60) × (to < 2 ^ 61) }
    ensures { Wrote out.old to (numbers 7 n (drop at (unpack s.now))) out.new result }
{
    if out.len() <= to {
        return to + n;
    }
    let i = blocks(s, at, n, out, to);
    each(s, at + i * 7, 7, n - i, out, to + i)
}

// The text from a position on, without the pad, written from a place of the output on.
pub(crate) fn text7(s: &[u8], at: usize, out: &mut [u8], to: usize) -> Option<usize>
    requires { (length s.now < 2 ^ 60) × (to < 2 ^ 61) }
    ensures { (result ≡ text7_next to (text7_of (unpack s.now) at))
        × (out.new ≡ text7_left out.old to (text7_of (unpack s.now) at)) }
{
    if s.len() == 0 {
        return None;
    }
    let pad = get_bit(s, s.len() * 8 - 1);
    let end = end_of(s, pad);
    Some(sevens(s, at, count(at, end), out, to))
}

// The 64 bits from a position on, where nine bytes are left.
fn eight(s: &[u8], at: usize) -> u64
    requires { at / 8 + 9 ≤ length s.now }
    ensures { bits_of 64 result ≡ take 64 (drop at (unpack s.now)) }
{
    let i = at / 8;
    let o = at % 8;
    (word(s, i) << o) + (one(s, i + 8) >> (8 - o))
}

// Of n bytes as many as go in words of eight, written from a place of the output on. How many.
fn words(s: &[u8], at: usize, n: usize, out: &mut [u8], to: usize) -> usize
    requires { (n ≤ (length s.now * 8 - at) / 8) × (length s.now < 2 ^ 60) × (to < length out.old) }
    ensures upper_bound { result ≤ n }
    ensures out_after { unpack out.new ≡ sets (unpack out.old) (to * 8) (take (result * 8) (drop at (unpack s.now))) }
{
    // eight bytes from a position on lie in nine
    let most = least(n, out.len() - to);
    let n = most.saturating_sub(1) / 8;
    for k in 0..n {
        put_bytes(out, to + k * 8, eight(s, at + k * 64), 8);
    }
    n * 8
}

// The whole bytes from a position on, written from a place of the output on. The next place.
pub(crate) fn bytes(s: &[u8], at: usize, out: &mut [u8], to: usize) -> usize
    requires { (length s.now < 2 ^ 60) × (to < 2 ^ 61) }
    ensures { Wrote out.old to (pack_n ((length s.now * 8 - at) / 8) (drop at (unpack s.now))) out.new result }
{
    let n = remaining(s, at) / 8;
    if out.len() <= to {
        return to + n;
    }
    let i = words(s, at, n, out, to);
    each(s, at + i * 8, 8, n - i, out, to + i)
}
