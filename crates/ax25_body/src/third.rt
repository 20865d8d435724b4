// Third-party bodies: that arm of `encode` and of `decode` of the source.
ghost use Rattle.std.specs.Prelude.{◌≡◌, ℕ, ◌^◌, ◌≤◌, ◌<◌, length, drop};
ghost use Rattle.laws.specs.Bits.{unpack};
ghost use Rattle.ax25_token.specs.Token.{read_token};
ghost use Rattle.ax25_address.specs.Kind.{type_number};
ghost use Rattle.ax25_aprs.specs.Put.{Does, Reads};
ghost use Rattle.ax25_aprs.specs.Third.{collect_of, last_field, path_field, inner_bits, third_bits, inner_type, read_third};
ghost use Rattle.ax25_body.specs.Read.{inner_number, second_bits, read_inner};
ghost use Rattle.ax25_body.specs.Pass.{Codes, Passes};

use crate::body;
use ax25_address::classify::{AprsType, opens};
use ax25_aprs::third::collect;
use bits_write::least;
use refusals::Refusal;

// The token of the call at the front of d, up to a stop byte among its first ten.
fn call_encode(
    d: &[u8],
    stop: u8,
    l: usize,
    out: &mut [u8],
    at: usize,
) -> Result<(usize, usize), Refusal>
    requires { (at < 2 ^ 60) × (2 ≤ l) × (l ≤ 7) }
    ensures { Codes l (collect_of stop 10 d.now) d.now (unpack out.old) at (unpack out.new) result }
{
    let f = collect(d, stop, 10).ok_or(Refusal::Short)?;
    let p = body::put_trimmed(&d[..f.end], l, out, at).ok_or(Refusal::BadCall)?;
    Ok((f.next, p))
}

// The number of the inner type, by its first two bytes.
fn inner_number(d: &[u8]) -> u64
    requires { 2 ≤ length d.now }
    ensures { (result ≡ inner_number d.now) × (result < 4) }
{
    if opens(d, b'!', b'=') {
        return 0;
    }
    if opens(d, b'@', b'/') {
        return 1;
    }
    if d[0] == b':' {
        return 2;
    }
    3
}

// The inner type in two bits, and the inner body.
fn inner_encode(d: &[u8], l: usize, out: &mut [u8], at: usize) -> Result<usize, Refusal>
    requires { (length d.now < 2 ^ 56) × (at < 2 ^ 58) × (2 ≤ l) × (l ≤ 7) }
    ensures { Does (inner_bits l d.now) (unpack out.old) at (unpack out.new) result }
{
    if d.len() < 2 {
        return Err(Refusal::Short);
    }
    let k = inner_number(d);
    let p = bits_write::push(out, at, k, 2);
    body::aprs_encode(inner_type(k), d, l, out, p)
}

// The third call, up to '*', after which one byte is skipped, and the inner body.
fn last_encode(d: &[u8], l: usize, out: &mut [u8], at: usize) -> Result<usize, Refusal>
    requires { (length d.now < 2 ^ 56) × (at < 2 ^ 57) × (2 ≤ l) × (l ≤ 7) }
    ensures { Does (last_field l (collect_of 0x2A 10 d.now) d.now) (unpack out.old) at (unpack out.new) result }
{
    let (i, p) = call_encode(d, b'*', l, out, at)?;
    if i == 0 {
        return inner_encode(d, l, out, p);
    }
    let j = least(i + 1, d.len());
    inner_encode(&d[j..], l, out, p)
}

// The field of "TCPIP", whose comma must be there, and what follows it.
fn path_encode(d: &[u8], l: usize, out: &mut [u8], at: usize) -> Result<usize, Refusal>
    requires { (length d.now < 2 ^ 56) × (at < 2 ^ 57) × (2 ≤ l) × (l ≤ 7) }
    ensures { Does (path_field l (collect_of 0x2C 14 d.now)) (unpack out.old) at (unpack out.new) result }
{
    let f = collect(d, b',', 14).ok_or(Refusal::Short)?;
    if f.next == 0 {
        return Err(Refusal::Format);
    }
    last_encode(&d[f.next..], l, out, at)
}

// The second call, up to ',', and what follows it.
fn second_encode(d: &[u8], l: usize, out: &mut [u8], at: usize) -> Result<usize, Refusal>
    requires { (length d.now < 2 ^ 56) × (at < 2 ^ 56) × (2 ≤ l) × (l ≤ 7) }
    ensures { Does (second_bits l d.now) (unpack out.old) at (unpack out.new) result }
{
    let (i, p) = call_encode(d, b',', l, out, at)?;
    path_encode(&d[i..], l, out, p)
}

// The first call, up to '>', and what follows it.
fn first_encode(d: &[u8], l: usize, out: &mut [u8], at: usize) -> Result<usize, Refusal>
    requires { (length d.now < 2 ^ 56) × (at < 2 ^ 55) × (2 ≤ l) × (l ≤ 7) }
    ensures { Does (third_bits l d.now) (unpack out.old) at (unpack out.new) result }
{
    let (i, p) = call_encode(d, b'>', l, out, at)?;
    second_encode(&d[i..], l, out, p)
}

// A third-party body from its type byte on, which is dropped here.
pub fn third_encode(d: &[u8], l: usize, out: &mut [u8], at: usize) -> Result<usize, Refusal>
    requires { (0 < length d.now) × (length d.now < 2 ^ 56) × (at < 2 ^ 55) × (2 ≤ l) × (l ≤ 7) }
    ensures { Does (third_bits l (drop 1 d.now)) (unpack out.old) at (unpack out.new) result }
{
    first_encode(&d[1..], l, out, at)
}

// A text, and after it the call that stands from a bit on; where there is none, nothing is said of the output.
fn call_decode(
    s: &[u8],
    at: usize,
    l: usize,
    before: &[u8],
    out: &mut [u8],
    to: usize,
    mended: bool,
) -> Option<(usize, usize)>
    requires { (length s.now < 2 ^ 55) × (2 ≤ l) × (l ≤ 7) × (length before.now ≤ 16) × (to < 2 ^ 54) }
    ensures { Passes (read_token mended l (drop at (unpack s.now))) (unpack s.now) before.now out.old to out.new result }
{
    // let .. else is the form that document 01 names for a token's answer
    let Some((call, p)) = ax25_token::token_decode(s, at, l, mended) else {
        return None;
    };
    let i = bits_write::copy(out, to, before);
    Some((p, body::put_text(call, out, i)))
}

// The type of an inner type's number.
fn inner_type(k: u64) -> AprsType
    requires { k < 4 }
    ensures { type_number result ≡ inner_type k }
{
    match k {
        0 => AprsType::Position,
        1 => AprsType::TimestampedPosition,
        2 => AprsType::Message,
        _ => AprsType::Text,
    }
}

// The end of the head, and the inner body that stands from a bit on after its type in two bits.
fn inner_decode(
    s: &[u8],
    at: usize,
    l: usize,
    out: &mut [u8],
    to: usize,
    mended: bool,
) -> Option<usize>
    requires { (length s.now < 2 ^ 55) × (to < 2 ^ 53) × (2 ≤ l) × (l ≤ 7) }
    ensures { Reads (read_inner mended l (drop at (unpack s.now))) out.old to out.new result }
{
    let (k, p) = bits::reader::take_at(s, at, 2)?;
    let i = bits_write::copy(out, to, b"*:");
    body::aprs_decode(inner_type(k), s, p, l, out, i, mended)
}

// The third-party body that stands from a bit on; where there is none, nothing is said of the output.
pub fn third_decode(
    s: &[u8],
    at: usize,
    l: usize,
    out: &mut [u8],
    to: usize,
    mended: bool,
) -> Option<usize>
    requires { (length s.now < 2 ^ 55) × (to < 2 ^ 52) × (2 ≤ l) × (l ≤ 7) }
    ensures { Reads (read_third mended l (drop at (unpack s.now))) out.old to out.new result }
{
    let (p, i) = call_decode(s, at, l, b"}", out, to, mended)?;
    let (q, j) = call_decode(s, p, l, b">", out, i, mended)?;
    let (r, k) = call_decode(s, q, l, b",TCPIP,", out, j, mended)?;
    inner_decode(s, r, l, out, k, mended)
}
