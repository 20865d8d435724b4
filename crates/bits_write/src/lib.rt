// Bits, most significant first, into packed bytes: the writers of bits.rs of the source. What lies past the end of the slice is not written, and the place goes on, so that a run over an empty slice measures.
#![tactic(auto)]

pub mod words;

ghost use Rattle.std.specs.Prelude.{◌≡◌, [], ◌∷◌, ◌+◌, ◌-◌, ◌*◌, ◌/◌, ◌%◌, ◌^◌, ◌≤◌, ◌<◌, min, length, take, drop};
ghost use Rattle.std.proofs.lemmas.List.Edits.{sets};
ghost use Rattle.laws.specs.Bits.{bits_of, unpack};
ghost use Rattle.laws.specs.Pick.{pick};
ghost use Rattle.laws.specs.Wrote.{Wrote};
ghost use Rattle.bits_write.specs.Text7.{bits_each, sevens, last_or, text7_bits};
ghost use Rattle.bits_write.specs.Write.{width_of, top_bits};

use crate::words::{power, word};

// A byte at a place. The next place.
pub fn byte(out: &mut [u8], at: usize, x: u8) -> usize
    requires { at < 2 ^ 62 }
    ensures { Wrote out.old at (x ∷ []) out.new result }
{
    if at < out.len() {
        out[at] = x;
    }
    at + 1
}

// Bytes from a place on, all of which fit.
pub fn copy_all(out: &mut [u8], at: usize, src: &[u8])
    requires { at + length src.now ≤ length out.old }
    ensures { out.new ≡ sets out.old at src.now }
{
    out[at..at + src.len()].copy_from_slice(src);
}

// Bytes from a place on. The next place.
pub fn copy(out: &mut [u8], at: usize, src: &[u8]) -> usize
    requires { (at < 2 ^ 61) × (length src.now < 2 ^ 60) }
    ensures { Wrote out.old at src.now out.new result }
{
    if at < out.len() {
        let room = out.len() - at;
        copy_all(out, at, &src[..src.len().min(room)]);
    }
    at + src.len()
}

// The smaller of two numbers, for the crates above, whose proofs name it.
pub fn least(a: usize, b: usize) -> usize
    ensures { result ≡ min a b }
{
    a.min(b)
}

// x with the low m bits of v for those in front of its last r.
fn spliced(x: u8, v: u64, m: usize, r: usize) -> u8
    requires { m + r ≤ 8 }
    ensures { bits_of 8 result ≡ sets (bits_of 8 x) (8 - (m + r)) (bits_of m v) }
{
    let w = u64::from(x);
    let p = power(m);
    let q = power(r);
    ((w / q / p * p + v % p) * q + w % q) as u8
}

// The low m bits of v into one byte.
fn put_part(out: &mut [u8], at: usize, v: u64, m: usize)
    requires { at % 8 + m ≤ 8 }
    ensures { unpack out.new ≡ sets (unpack out.old) at (bits_of m v) }
{
    let i = at / 8;
    if i < out.len() {
        out[i] = spliced(out[i], v, m, 8 - (at % 8 + m));
    }
}

// The low n bits of v. The next position. It goes by as many bits as fit the byte, so that no `for` counts them.
pub fn push(out: &mut [u8], at: usize, v: u64, n: usize) -> usize
    requires { (n ≤ 64) × (at < 2 ^ 62) }
    ensures wrote { Wrote (unpack out.old) at (bits_of n v) (unpack out.new) result }
    ensures value { result ≡ at + n }
{
    if out.len() <= at / 8 {
        return at + n;
    }
    let mut pos = at;
    let mut left = n;
    while 0 < left {
        let m = left.min(8 - pos % 8);
        left -= m;
        put_part(out, pos, v >> left, m);
        pos += m;
    }
    pos
}

// One bit. The next position.
pub fn bit(out: &mut [u8], at: usize, b: bool) -> usize
    requires { at < 2 ^ 62 }
    ensures { Wrote (unpack out.old) at (b ∷ []) (unpack out.new) result }
{
    push(out, at, u64::from(b), 1)
}

// How many bits a number has from its first 1 on.
fn width(v: u64) -> usize
    ensures { (result ≡ width_of v) × (result ≤ 64) }
{
    (u64::BITS - v.leading_zeros()) as usize
}

// The highest n bits of a number wider than n, else its low n bits. The next position.
pub fn push_bfi(out: &mut [u8], at: usize, v: u64, n: usize) -> usize
    requires { (0 < n) × (n ≤ 64) × (at < 2 ^ 62) }
    ensures wrote { Wrote (unpack out.old) at (top_bits n v) (unpack out.new) result }
    ensures value { result ≡ at + n }
{
    push(out, at, v >> width(v).saturating_sub(n), n)
}

// The low seven bits of two bytes from k on, as one number. `two`, `four` and `block` have the shape of those of `words`, which keep all
// eight bits. With the number of bits as a parameter each constant would be a power, and `word` a call of the common form: no plainer.
fn two(text: &[u8], k: usize) -> u64
    requires { k + 2 ≤ length text.now }
    ensures { (bits_of 14 result ≡ sevens (take 2 (drop k text.now))) × (result < 2 ^ 14) }
{
    u64::from(text[k]) % 128 * 128 + u64::from(text[k + 1]) % 128
}

// Of four.
fn four(text: &[u8], k: usize) -> u64
    requires { k + 4 ≤ length text.now }
    ensures { (bits_of 28 result ≡ sevens (take 4 (drop k text.now))) × (result < 2 ^ 28) }
{
    two(text, k) * 0x4000 + two(text, k + 2)
}

// Of eight.
fn block(text: &[u8], k: usize) -> u64
    requires { k + 8 ≤ length text.now }
    ensures { (bits_of 56 result ≡ sevens (take 8 (drop k text.now))) × (result < 2 ^ 56) }
{
    four(text, k) * 0x1000_0000 + four(text, k + 4)
}

// The low n bytes of a word from byte i on.
pub fn put_bytes(out: &mut [u8], i: usize, w: u64, n: usize)
    requires { (n ≤ 8) × (i + n ≤ length out.old) }
    ensures { unpack out.new ≡ sets (unpack out.old) (i * 8) (bits_of (n * 8) w) }
{
    out[i..i + n].copy_from_slice(&w.to_be_bytes()[8 - n..]);
}

// The low seven bits of n blocks of eight bytes, after o bits that are carried to byte i. The last o bits, which fill no byte: the caller stores them.
fn put_blocks(out: &mut [u8], i: usize, o: usize, first: u64, text: &[u8], n: usize) -> u64
    requires { (o < 8) × (first < 2 ^ o) × (i + n * 7 ≤ length out.old) × (n * 8 ≤ length text.now) }
    ensures upper_bound { result < 2 ^ o }
    ensures result_after { sets (unpack out.new) ((i + n * 7) * 8) (bits_of o result) ≡ sets (sets (unpack out.old) (i * 8) (bits_of o first)) (i * 8 + o) (sevens (take (n * 8) text.now)) }
{
    let p = power(o);
    let mut carried = first;
    for j in 0..n {
        let x = carried * 0x100_0000_0000_0000 + block(text, j * 8);
        put_bytes(out, i + j * 7, x >> o, 7);
        carried = x % p;
    }
    carried
}

// The low n bits of each byte, one by one as long as there is room. The next position.
fn push_each(out: &mut [u8], at: usize, s: &[u8], n: usize) -> usize
    requires { (n ≤ 8) × (at + length s.now * n < 2 ^ 62) }
    ensures wrote { Wrote (unpack out.old) at (bits_each n s.now) (unpack out.new) result }
    ensures value { result ≡ at + length s.now * n }
{
    let mut pos = at;
    for x in s {
        if out.len() <= pos / 8 {
            return at + s.len() * n;
        }
        pos = push(out, pos, u64::from(*x), n);
    }
    pos
}

// The low seven bits of each byte. The next position.
pub fn push_sevens(out: &mut [u8], at: usize, text: &[u8]) -> usize
    requires { at + length text.now * 7 < 2 ^ 62 }
    ensures wrote { Wrote (unpack out.old) at (sevens text.now) (unpack out.new) result }
    ensures value { result ≡ at + length text.now * 7 }
{
    let i = at / 8;
    if out.len() <= i {
        return at + text.len() * 7;
    }
    let o = at % 8;
    let n = (text.len() / 8).min((out.len() - i) / 7);
    let first = u64::from(out[i]) >> (8 - o);
    let carried = put_blocks(out, i, o, first, text, n);
    let pos = push(out, (i + n * 7) * 8, carried, o);
    push_each(out, pos, &text[n * 8..], 7)
}

// n words of eight bytes, after the last o bits of `first`, which are carried to byte i. The last word: the caller stores its last o bits.
fn put_words(out: &mut [u8], i: usize, o: usize, first: u64, s: &[u8], n: usize) -> u64
    requires { (0 < o) × (o < 8) × (i + n * 8 ≤ length out.old) × (n * 8 ≤ length s.now) }
    ensures { sets (unpack out.new) ((i + n * 8) * 8) (bits_of o result) ≡ sets (sets (unpack out.old) (i * 8) (bits_of o first)) (i * 8 + o) (take (n * 64) (unpack s.now)) }
{
    let mut carried = first;
    for j in 0..n {
        let v = word(s, j * 8);
        put_bytes(out, i + j * 8, (carried << (64 - o)) + (v >> o), 8);
        carried = v;
    }
    carried
}

// Whole bytes after a part of a byte. The next position.
fn push_behind(out: &mut [u8], at: usize, s: &[u8]) -> usize
    requires { (0 < at % 8) × (at / 8 < length out.old) × (at < 2 ^ 61) × (length s.now < 2 ^ 56) }
    ensures { Wrote (unpack out.old) at (unpack s.now) (unpack out.new) result }
{
    let i = at / 8;
    let o = at % 8;
    let n = (s.len() / 8).min((out.len() - i) / 8);
    let first = u64::from(out[i]) >> (8 - o);
    let carried = put_words(out, i, o, first, s, n);
    let pos = push(out, (i + n * 8) * 8, carried, o);
    push_each(out, pos, &s[n * 8..], 8)
}

// Whole bytes, eight bits each. The next position.
pub fn push_bytes(out: &mut [u8], at: usize, s: &[u8]) -> usize
    requires { (at < 2 ^ 61) × (length s.now < 2 ^ 56) }
    ensures { Wrote (unpack out.old) at (unpack s.now) (unpack out.new) result }
{
    let i = at / 8;
    if out.len() <= i {
        return at + s.len() * 8;
    }
    if at % 8 == 0 {
        return copy(out, i, s) * 8;
    }
    push_behind(out, at, s)
}

// Eight pad bits after a text: the opposite of its last bit, or of the bit before it where it is empty.
fn pad_of(last: bool, text: &[u8]) -> u64
    ensures { result ≡ pick (last_or last (sevens text.now)) 0x00 0xFF }
{
    let last = match text.last() {
        Some(c) => c % 2 == 1,
        None => last,
    };
    if last { 0x00 } else { 0xFF }
}

// A text, seven bits a byte, and its pad. `last` is the bit before it, false where there is none. The next position.
pub fn push_text7(out: &mut [u8], at: usize, last: bool, text: &[u8]) -> usize
    requires { (at < 2 ^ 61) × (length text.now < 2 ^ 56) }
    ensures wrote { Wrote (unpack out.old) at (text7_bits at last text.now) (unpack out.new) result }
    ensures value { result ≡ at + length text.now * 7 + (8 - (at + length text.now * 7) % 8) }
{
    let pos = push_sevens(out, at, text);
    push(out, pos, pad_of(last, text), 8 - pos % 8)
}
