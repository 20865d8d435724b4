// The bits of a call: `token_encode` of the source.
ghost use Rattle.std.specs.Prelude.{◌≡◌, true, [], ◌∷◌, map, ◌+◌, ◌^◌, ◌≤◌, ◌<◌, length};
ghost use Rattle.laws.specs.Bits.{unpack};
ghost use Rattle.laws.specs.Text.{same, is_one_of, starts};
ghost use Rattle.laws.specs.Wrote.{Wrote};
ghost use Rattle.bits.specs.Val.{val_of};
ghost use Rattle.ax25_token.specs.Call.{text_of};
ghost use Rattle.ax25_token.specs.Put.{cased_of, paired_bits, unnamed_bits, unpaired_bits, Puts};
ghost use Rattle.ax25_token.specs.Tables.{alpha_of, numbered_rows};
ghost use Rattle.ax25_token.specs.Token.{base_of, behind, number_at, numbered_bits, spell, ending, plain_ap, ap_bits, spelled_bits, or_else, token_bits};

use crate::Call;
use crate::names::{fixed_of, numbered_of, pair_of, two_at};
use bits_write::push;

// The letter codes of all bytes, sixteen a row, 255 for none: the inverse of CALL_ALPHABET.
static CODES: [u8; 256] = *b"\
    \xFF\xFF\xFF\xFF\xFF\xFF\xFF\xFF\xFF\xFF\xFF\xFF\xFF\xFF\xFF\xFF\
    \xFF\xFF\xFF\xFF\xFF\xFF\xFF\xFF\xFF\xFF\xFF\xFF\xFF\xFF\xFF\xFF\
    \x00\xFF\xFF\xFF\xFF\xFF\xFF\xFF\xFF\xFF\xFF\xFF\xFF\xFF\xFF\xFF\
    \x1B\x1C\x1D\x1E\x1F\x20\x21\x22\x23\x24\xFF\xFF\xFF\xFF\xFF\xFF\
    \xFF\x01\x02\x03\x04\x05\x06\x07\x08\x09\x0A\x0B\x0C\x0D\x0E\x0F\
    \x10\x11\x12\x13\x14\x15\x16\x17\x18\x19\x1A\xFF\xFF\xFF\xFF\xFF\
    \xFF\xFF\xFF\xFF\xFF\xFF\xFF\xFF\xFF\xFF\xFF\xFF\xFF\xFF\xFF\xFF\
    \xFF\xFF\xFF\xFF\xFF\xFF\xFF\xFF\xFF\xFF\xFF\xFF\xFF\xFF\xFF\xFF\
    \xFF\xFF\xFF\xFF\xFF\xFF\xFF\xFF\xFF\xFF\xFF\xFF\xFF\xFF\xFF\xFF\
    \xFF\xFF\xFF\xFF\xFF\xFF\xFF\xFF\xFF\xFF\xFF\xFF\xFF\xFF\xFF\xFF\
    \xFF\xFF\xFF\xFF\xFF\xFF\xFF\xFF\xFF\xFF\xFF\xFF\xFF\xFF\xFF\xFF\
    \xFF\xFF\xFF\xFF\xFF\xFF\xFF\xFF\xFF\xFF\xFF\xFF\xFF\xFF\xFF\xFF\
    \xFF\xFF\xFF\xFF\xFF\xFF\xFF\xFF\xFF\xFF\xFF\xFF\xFF\xFF\xFF\xFF\
    \xFF\xFF\xFF\xFF\xFF\xFF\xFF\xFF\xFF\xFF\xFF\xFF\xFF\xFF\xFF\xFF\
    \xFF\xFF\xFF\xFF\xFF\xFF\xFF\xFF\xFF\xFF\xFF\xFF\xFF\xFF\xFF\xFF\
    \xFF\xFF\xFF\xFF\xFF\xFF\xFF\xFF\xFF\xFF\xFF\xFF\xFF\xFF\xFF\xFF";

// The code of a letter.
fn alpha(x: u8) -> Option<u64>
    ensures { result ≡ alpha_of x }
{
    let v = CODES[usize::from(x)];
    (v < 37).then_some(u64::from(v))
}

// A byte, in upper case where that is asked for.
pub fn cased(x: u8, up: bool) -> u8
    ensures { result ≡ cased_of up x }
{
    if up { x.to_ascii_uppercase() } else { x }
}

// The letters, 6 bits each.
fn put_letters(c: &[u8], up: bool, out: &mut [u8], at: usize) -> Option<usize>
    requires { (length c.now ≤ 16) × (at < 2 ^ 61) }
    ensures { Puts (unpack out.old) at (spell (map (cased_of up) c.now)) (unpack out.new) result }
{
    let mut p = at;
    for x in c {
        let v = alpha(cased(*x, up))?;
        p = push(out, p, v, 6);
    }
    Some(p)
}

// 6 zero bits after fewer than l letters.
fn put_end(out: &mut [u8], at: usize, n: usize, l: usize) -> usize
    requires { at < 2 ^ 62 }
    ensures wrote { Wrote (unpack out.old) at (ending l n) (unpack out.new) result }
    ensures upper_bound { result ≤ at + 6 }
{
    if n < l { push(out, at, 0, 6) } else { at }
}

// The AP form: its index, the letters after AP, and the end.
fn put_ap(c: &[u8], l: usize, out: &mut [u8], at: usize) -> Option<usize>
    requires { (2 ≤ length c.now) × (length c.now ≤ 16) × (at < 2 ^ 60) }
    ensures { Puts (unpack out.old) at (ap_bits l c.now) (unpack out.new) result }
{
    let p = push(out, at, 52, 6);
    let q = put_letters(&c[2..], false, out, p)?;
    Some(put_end(out, q, c.len(), l))
}

// The place of the first hyphen, or the length.
pub fn hyphen(c: &[u8]) -> usize
    ensures { result ≡ length (base_of c.now) }
{
    for (i, x) in c.iter().enumerate() {
        if *x == b'-' {
            return i;
        }
    }
    c.len()
}

// The number after a hyphen at k, or 0.
fn ssid(c: &[u8], k: usize) -> u64
    requires { k ≡ length (base_of c.now) }
    ensures { result ≡ val_of (behind c.now) }
{
    if k < c.len() {
        bits::vb_val(&c[k + 1..])
    } else {
        0
    }
}

// A spelled call: the letters before the hyphen, the end, and 4 bits of SSID.
fn put_spelled(c: &[u8], l: usize, out: &mut [u8], at: usize) -> Option<usize>
    requires { (length c.now ≤ 16) × (at < 2 ^ 60) }
    ensures { Puts (unpack out.old) at (spelled_bits l c.now) (unpack out.new) result }
{
    let k = hyphen(c);
    let p = put_letters(&c[..k], true, out, at)?;
    let q = put_end(out, p, k, l);
    Some(push(out, q, ssid(c, k), 4))
}

// c starts with w.
pub fn starts(c: &[u8], w: &[u8]) -> bool
    ensures { result ≡ starts w.now c.now }
{
    c.starts_with(w)
}

// A call that starts with AP and has no hyphen.
fn plain_ap(c: &[u8]) -> bool
    ensures { result ≡ plain_ap c.now }
{
    starts(c, b"AP") && hyphen(c) == c.len()
}

// The same bytes.
pub fn same(c: &[u8], n: &[u8]) -> bool
    ensures { result ≡ same c.now n.now }
{
    c == n
}

// One of four texts. A `match` over byte strings was tried in its place, here and for the names of FIXED: its later arms know no more of the bytes than their number, so it is not proved.
pub(crate) fn one_of(c: &[u8], v: &[u8], w: &[u8], x: &[u8], y: &[u8]) -> bool
    ensures { result ≡ is_one_of c.now (v.now ∷ w.now ∷ x.now ∷ y.now ∷ []) }
{
    same(c, v) || same(c, w) || same(c, x) || same(c, y)
}

// The number in n bytes from a place on, as far as there are any.
pub(crate) fn number_at(c: &[u8], a: usize, n: usize) -> u64
    requires { (a ≤ 16) × (n ≤ 16) }
    ensures { result ≡ number_at c.now a n }
{
    let end = c.len().min(a + n);
    if a < end { bits::vb_val(&c[a..end]) } else { 0 }
}

// A call with a row of PAIRS: the index, the digit as one bit, and w bits of the number. The name has k bytes.
fn put_pair(c: &[u8], i: u64, k: usize, w: usize, out: &mut [u8], at: usize) -> usize
    requires { (k ≤ 4) × (w ≤ 2) × (at < 2 ^ 60) }
    ensures { Wrote (unpack out.old) at (paired_bits i k w c.now) (unpack out.new) result }
{
    let p = push(out, at, i, 6);
    let q = push(out, p, two_at(c, k), 1);
    push(out, q, number_at(c, k + 2, 1), w)
}

// A call that starts with AP and has no hyphen: a row of NUMBERED, or the AP form.
fn put_plain(c: &[u8], l: usize, out: &mut [u8], at: usize) -> Option<usize>
    requires { (plain_ap c.now ≡ true) × (length c.now ≤ 16) × (at < 2 ^ 60) }
    ensures { Puts (unpack out.old) at (or_else (numbered_bits numbered_rows c.now) (ap_bits l c.now)) (unpack out.new) result }
{
    let Some((i, v, w)) = numbered_of(c) else {
        return put_ap(c, l, out, at);
    };
    let p = push(out, at, i, 6);
    Some(push(out, p, v, w))
}

// A call without a whole name: a row of NUMBERED, the AP form, or spelled.
fn put_unnamed(c: &[u8], l: usize, out: &mut [u8], at: usize) -> Option<usize>
    requires { (length c.now ≤ 16) × (at < 2 ^ 60) }
    ensures { Puts (unpack out.old) at (unnamed_bits l c.now) (unpack out.new) result }
{
    if plain_ap(c) {
        put_plain(c, l, out, at)
    } else {
        put_spelled(c, l, out, at)
    }
}

// A call that no row of PAIRS takes.
fn put_unpaired(c: &[u8], l: usize, out: &mut [u8], at: usize) -> Option<usize>
    requires { (length c.now ≤ 16) × (at < 2 ^ 60) }
    ensures { Puts (unpack out.old) at (unpaired_bits l c.now) (unpack out.new) result }
{
    let Some(i) = fixed_of(c) else {
        return put_unnamed(c, l, out, at);
    };
    Some(push(out, at, i, 6))
}

// The bits of a call at a position, for calls of l letters. What lies past the end of out is not written.
pub fn token_encode(c: &[u8], l: usize, out: &mut [u8], at: usize) -> Option<usize>
    requires { (length c.now ≤ 16) × (at < 2 ^ 60) }
    ensures { Puts (unpack out.old) at (token_bits l c.now) (unpack out.new) result }
{
    let Some((i, k, w)) = pair_of(c) else {
        return put_unpaired(c, l, out, at);
    };
    Some(put_pair(c, i, k, w, out, at))
}

// The same of a call that is held.
pub fn put_call(c: Call, l: usize, out: &mut [u8], at: usize) -> Option<usize>
    requires { at < 2 ^ 60 }
    ensures { Puts (unpack out.old) at (token_bits l (text_of c)) (unpack out.new) result }
{
    token_encode(&c.bytes[..c.len], l, out, at)
}

// A call that is held starts with w.
pub fn call_starts(c: Call, w: &[u8]) -> bool
    ensures { result ≡ starts w.now (text_of c) }
{
    starts(&c.bytes[..c.len], w)
}
