// A message as a frame: `decode` of the source. Addresses are written as they are read; where nothing can be read, nothing is said of the output.
#![tactic(auto)]

ghost use Rattle.std.specs.Prelude.{◌≡◌, false, [], ◌∷◌, ◌+◌, ◌*◌, ◌/◌, ◌^◌, ◌≤◌, ◌<◌, ℕ, length, get_or, drop};
ghost use Rattle.std.specs.Prelude.{None, Some};
ghost use Rattle.laws.specs.Bits.{odd, unpack};
ghost use Rattle.laws.specs.Pick.{pick};
ghost use Rattle.laws.specs.Wrote.{Wrote};
ghost use Rattle.bits.specs.Read.{took};
ghost use Rattle.ax25_token.specs.Token.{read_token};
ghost use Rattle.ax25_address.specs.Parse.{aliases, alias_calls};
ghost use Rattle.ax25_address.specs.Kind.{type_number};
ghost use Rattle.ax25_aprs.specs.Put.{Reads};
ghost use Rattle.ax25.specs.Decode.{digi_count, known, bytes_in, read_tokens, read_alias, read_aliased, read_digis, read_head, read_info, read_frame};
ghost use Rattle.ax25.specs.Encode.{type_width};
ghost use Rattle.ax25_decode.specs.Put.{ReadsTo, field_of, ap_in, read_ends, ends_bytes, digi_bytes, type_is, read_type, Types, Heads};

use ax25_address::alias::alias_call;
use ax25_address::call_bytes::call_bytes;
use ax25_address::classify::AprsType;
use ax25_address::record::{PID_NO_L3, UI_CTRL};
use ax25_aprs::field;
use ax25_body::body::aprs_decode;
use ax25_body::third::third_decode;
use ax25_token::encode::call_starts;
use ax25_token::token_decode;
use bits::reader::bit_take_at;

// Bits 80 and 01 of an SSID byte.
fn mark(h: bool, last: bool) -> u8
    ensures { result ≡ pick h 0x80 0 + pick last 0x01 0 }
{
    match (h, last) {
        (true, true) => 0x81,
        (true, false) => 0x80,
        (false, true) => 0x01,
        (false, false) => 0x00,
    }
}

// A call as its address field, with its H bit and the bit of the last.
fn read_address(
    s: &[u8],
    at: usize,
    l: usize,
    h: bool,
    last: bool,
    out: &mut [u8],
    to: usize,
    mended: bool,
) -> Option<(usize, usize)>
    requires { (length s.now < 5000) × (2 ≤ l) × (l ≤ 7) × (to < 2 ^ 20) }
    ensures { ReadsTo (field_of l h last) (unpack s.now) (read_token mended l (drop at (unpack s.now))) out.old to out.new result }
{
    // let .. else is the form that document 01 names for a token's answer
    let Some((c, p)) = token_decode(s, at, l, mended) else {
        return None;
    };
    Some((p, call_bytes(c, l, mark(h, last), out, to)))
}

// The call at a position starts with AP.
fn is_ap(s: &[u8], at: usize, l: usize, mended: bool) -> bool
    requires { (length s.now < 5000) × (2 ≤ l) × (l ≤ 7) }
    ensures { result ≡ ap_in (read_token mended l (drop at (unpack s.now))) }
{
    let Some((c, _)) = token_decode(s, at, l, mended) else {
        return false;
    };
    call_starts(c, b"AP")
}

// Destination and source; the source is the last address where there are no digipeaters.
fn read_ends(
    s: &[u8],
    at: usize,
    l: usize,
    last: bool,
    out: &mut [u8],
    mended: bool,
) -> Option<(usize, usize)>
    requires { (length s.now < 5000) × (2 ≤ l) × (l ≤ 7) }
    ensures { ReadsTo (ends_bytes l last) (unpack s.now) (read_ends mended l (drop at (unpack s.now))) out.old 0 out.new result }
{
    let (p, q) = read_address(s, at, l, false, false, out, 0, mended)?;
    read_address(s, p, l, false, last, out, q, mended)
}

// n digipeaters by tokens, the first with the H bit at k.
fn read_tokens(
    s: &[u8],
    at: usize,
    l: usize,
    n: usize,
    k: usize,
    out: &mut [u8],
    to: usize,
    mended: bool,
) -> Option<(usize, usize)>
    requires { (length s.now < 5000) × (2 ≤ l) × (l ≤ 7) × (k + n ≤ length s.now * 8) × (to + n * 8 < 2 ^ 20) }
    ensures { ReadsTo (digi_bytes l (unpack s.now) n k) (unpack s.now) (read_tokens mended l n (drop at (unpack s.now))) out.old to out.new result }
{
    if n == 0 {
        return Some((at, to));
    }
    let (p, q) = read_address(s, at, l, field::bit(s, k), n == 1, out, to, mended)?;
    read_tokens(s, p, l, n - 1, k + 1, out, q, mended)
}

// n calls of an alias, the first with the H bit at k and the number k + 1. The next place.
fn put_alias(s: &[u8], l: usize, i: usize, n: usize, k: usize, out: &mut [u8], to: usize) -> usize
    requires { (length s.now < 5000) × (l ≤ 7) × (i < 5) × (k + n ≤ 8) × (k + n ≤ length s.now * 8) × (to + n * 8 < 2 ^ 20) }
    ensures { Wrote out.old to (digi_bytes l (unpack s.now) n k (alias_calls (get_or aliases i []) (k + 1) n)) out.new result }
{
    if n == 0 {
        return to;
    }
    let q = call_bytes(
        alias_call(i, k + 1),
        l,
        mark(field::bit(s, k), n == 1),
        out,
        to,
    );
    put_alias(s, l, i, n - 1, k + 1, out, q)
}

// The digipeaters of an alias whose number was read.
fn read_alias(
    s: &[u8],
    number: Option<(u64, usize)>,
    l: usize,
    n: usize,
    out: &mut [u8],
    to: usize,
) -> Option<(usize, usize)>
    requires { (length s.now < 5000) × (l ≤ 7) × (n ≤ 8) × (n ≤ length s.now * 8) × (to < 2 ^ 10) }
    ensures { (at : ℕ) → number ≡ took 3 (unpack s.now) at
        → ReadsTo (digi_bytes l (unpack s.now) n 0) (unpack s.now) (read_alias n (drop at (unpack s.now))) out.old to out.new result }
{
    let (i, p) = number?;
    if i == 0 || 5 < i {
        return None;
    }
    Some((p, put_alias(s, l, (i - 1) as usize, n, 0, out, to)))
}

// The alias bit, then the alias or the tokens. Where the bit is set, the three bits after it are the alias's number.
fn read_aliased(
    s: &[u8],
    at: usize,
    l: usize,
    n: usize,
    out: &mut [u8],
    to: usize,
    mended: bool,
) -> Option<(usize, usize)>
    requires { (length s.now < 5000) × (2 ≤ l) × (l ≤ 7) × (n ≤ 8) × (n ≤ length s.now * 8) × (to < 2 ^ 10) }
    ensures { ReadsTo (digi_bytes l (unpack s.now) n 0) (unpack s.now) (read_aliased mended l n (drop at (unpack s.now))) out.old to out.new result }
{
    let t = bit_take_at(s, at, 3);
    let (x, p) = t.first?;
    if x == 1 {
        return read_alias(s, t.second, l, n, out, to);
    }
    read_tokens(s, p, l, n, 0, out, to, mended)
}

// The digipeaters; ap: the destination starts with AP.
fn read_digis(
    s: &[u8],
    at: usize,
    l: usize,
    ap: bool,
    n: usize,
    out: &mut [u8],
    to: usize,
    mended: bool,
) -> Option<(usize, usize)>
    requires { (length s.now < 5000) × (2 ≤ l) × (l ≤ 7) × (n ≤ 8) × (n ≤ length s.now * 8) × (to < 2 ^ 10) }
    ensures { ReadsTo (digi_bytes l (unpack s.now) n 0) (unpack s.now) (read_digis mended l ap n (drop at (unpack s.now))) out.old to out.new result }
{
    if n == 0 {
        return Some((at, to));
    }
    if ap {
        return read_aliased(s, at, l, n, out, to, mended);
    }
    read_tokens(s, at, l, n, 0, out, to, mended)
}

// The type of a code.
fn from_code(v: u64, at: usize) -> Option<(AprsType, usize)>
    ensures { type_is result ≡ pick (known v) (Some (v, at)) None }
{
    match v {
        0 => Some((AprsType::Text, at)),
        1 => Some((AprsType::Binary, at)),
        2 => Some((AprsType::Position, at)),
        3 => Some((AprsType::TimestampedPosition, at)),
        4 => Some((AprsType::Message, at)),
        6 => Some((AprsType::ThirdParty, at)),
        _ => None,
    }
}

// How many bits the type has; ap: the destination starts with AP.
fn type_width(ap: bool) -> usize
    ensures { (result ≡ type_width ap) × (0 < result) × (result ≤ 3) }
{
    if ap { 3 } else { 1 }
}

// The type at a position; ap: the destination starts with AP.
fn read_type(s: &[u8], at: usize, ap: bool) -> Option<(AprsType, usize)>
    requires { length s.now < 5000 }
    ensures { Types (unpack s.now) (read_type ap (drop at (unpack s.now))) result }
{
    let (v, p) = bits::reader::take_at(s, at, type_width(ap))?;
    from_code(v, p)
}

// What stands before the body, for n digipeaters: H bits, destination, source, digipeaters, type.
fn read_head(
    s: &[u8],
    l: usize,
    n: usize,
    out: &mut [u8],
    mended: bool,
) -> Option<(usize, usize, AprsType)>
    requires { (length s.now < 5000) × (2 ≤ l) × (l ≤ 7) × (n ≤ 8) }
    ensures { Heads l (unpack s.now) (read_head mended l n (unpack s.now)) out.old out.new result }
{
    if bits::reader::bits_in(s) < n {
        return None;
    }
    let ap = is_ap(s, n, l, mended);
    let (p, q) = read_ends(s, n, l, n == 0, out, mended)?;
    let (u, v) = read_digis(s, p, l, ap, n, out, q, mended)?;
    let (typ, e) = read_type(s, u, ap)?;
    Some((e, v, typ))
}

// How many digipeaters a header names.
fn digi_count(header: u8) -> usize
    ensures { (result ≡ digi_count header) × (result ≤ 8) }
{
    if header / 8 % 2 == 1 {
        return (header % 8) as usize + 1;
    }
    0
}

// Control 03 and PID F0, where the header has bit 40. The next place.
fn put_ui(header: u8, out: &mut [u8], to: usize) -> usize
    requires { to < 2 ^ 20 }
    ensures wrote { Wrote out.old to (pick (odd (header / 64)) (0x03 ∷ 0xF0 ∷ []) []) out.new result }
    ensures upper_bound { result ≤ to + 2 }
{
    if header / 64 % 2 == 1 {
        let p = bits_write::byte(out, to, UI_CTRL);
        return bits_write::byte(out, p, PID_NO_L3);
    }
    to
}

// Whole bytes from a position on. The next place.
fn read_bytes(s: &[u8], at: usize, out: &mut [u8], to: usize) -> usize
    requires { (length s.now < 5000) × (at ≤ length s.now * 8) × (to < 2 ^ 20) }
    ensures { Wrote out.old to (bytes_in (drop at (unpack s.now))) out.new result }
{
    bits::reader::bytes_at(s, at, out, to)
}

// The body of a type, from a position on; where there is none, nothing is said of the output.
fn read_info(
    s: &[u8],
    at: usize,
    l: usize,
    typ: AprsType,
    out: &mut [u8],
    to: usize,
    mended: bool,
) -> Option<usize>
    requires { (length s.now < 5000) × (at ≤ length s.now * 8) × (2 ≤ l) × (l ≤ 7) × (to < 2 ^ 20) }
    ensures { Reads (read_info mended l (type_number typ) (unpack s.now) (drop at (unpack s.now))) out.old to out.new result }
{
    match typ {
        AprsType::Text => bits::reader::text7_at(s, at, out, to),
        AprsType::Binary => Some(read_bytes(s, at, out, to)),
        AprsType::ThirdParty => third_decode(s, at, l, out, to, mended),
        _ => aprs_decode(typ, s, at, l, out, to, mended),
    }
}

// The frame of a message whose header byte is given and whose other bytes are s, for calls of l letters, in the original reading of tokens or the mended one. What lies past the end of out is not written.
pub fn decode(s: &[u8], header: u8, l: usize, out: &mut [u8], mended: bool) -> Option<usize>
    requires { (length s.now < 5000) × (2 ≤ l) × (l ≤ 7) }
    ensures { Reads (read_frame mended l header (unpack s.now)) out.old 0 out.new result }
{
    let (p, q, typ) = read_head(s, l, digi_count(header), out, mended)?;
    let behind = put_ui(header, out, q);
    read_info(s, p, l, typ, out, behind, mended)
}
