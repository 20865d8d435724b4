// A body by its type: `aprs_encode` and `aprs_decode` of the source.
ghost use Rattle.std.specs.Prelude.{◌≡◌, ◌+◌, ◌^◌, ◌≤◌, ◌<◌, length, drop};
ghost use Rattle.laws.specs.Bits.{unpack};
ghost use Rattle.laws.specs.Text.{filled};
ghost use Rattle.laws.specs.Wrote.{Wrote};
ghost use Rattle.ax25_token.specs.Call.{text_of};
ghost use Rattle.ax25_token.specs.Put.{Puts};
ghost use Rattle.ax25_token.specs.Token.{token_bits};
ghost use Rattle.ax25_address.specs.Kind.{type_number};
ghost use Rattle.ax25_aprs.specs.Body.{call_of, message_bits, body_bits, read_message, read_body};
ghost use Rattle.ax25_aprs.specs.Put.{Does, Reads};
ghost use Rattle.ax25_body.specs.Read.{after_type, read_position};

use ax25_address::classify::AprsType;
use ax25_address::trim::trimmed;
use ax25_aprs::text::text_encode;
use ax25_token::Call;
use ax25_token::encode::put_call;
use bits_write::least;
use refusals::Refusal;

// The token of a call from its text, trimmed and in capitals.
pub(crate) fn put_trimmed(s: &[u8], l: usize, out: &mut [u8], at: usize) -> Option<usize>
    requires { (length s.now ≤ 10) × (at < 2 ^ 60) }
    ensures { Puts (unpack out.old) at (token_bits l (call_of s.now)) (unpack out.new) result }
{
    put_call(trimmed(s), l, out, at)
}

// A message after its type byte: the token of its addressee, and the text after the second ':'.
pub fn message_encode(s: &[u8], l: usize, out: &mut [u8], at: usize) -> Result<usize, Refusal>
    requires { (length s.now < 2 ^ 56) × (at < 2 ^ 59) × (2 ≤ l) × (l ≤ 7) }
    ensures { Does (message_bits l s.now) (unpack out.old) at (unpack out.new) result }
{
    let n = least(9, s.len());
    let p = put_trimmed(&s[..n], l, out, at).ok_or(Refusal::BadCall)?;
    let m = least(10, s.len());
    text_encode(&s[m..], false, out, p)
}

// A body of a type from its first byte on. The type byte, which only a Text has not, is dropped here.
pub fn aprs_encode(
    typ: AprsType,
    s: &[u8],
    l: usize,
    out: &mut [u8],
    at: usize,
) -> Result<usize, Refusal>
    requires { (0 < length s.now) × (length s.now < 2 ^ 56) × (at < 2 ^ 59) × (2 ≤ l) × (l ≤ 7) }
    ensures { Does (body_bits (type_number typ) l (after_type (type_number typ) s.now)) (unpack out.old) at (unpack out.new) result }
{
    match typ {
        AprsType::Text => text_encode(s, false, out, at),
        AprsType::Position => ax25_aprs::latlon::latlon_encode(&s[1..], out, at),
        AprsType::TimestampedPosition => ax25_aprs::body::timestamped_encode(&s[1..], out, at),
        _ => message_encode(&s[1..], l, out, at),
    }
}

// The text of a call that is held. The next place.
pub(crate) fn put_text(c: Call, out: &mut [u8], to: usize) -> usize
    requires { to < 2 ^ 60 }
    ensures wrote { Wrote out.old to (text_of c) out.new result }
    ensures value { result ≡ to + c.len }
{
    bits_write::copy(out, to, &c.bytes[..c.len])
}

// `call:<9`: the text of a call with blanks up to nine. The next place.
fn put_filled(c: Call, out: &mut [u8], to: usize) -> usize
    requires { to < 2 ^ 60 }
    ensures wrote { Wrote out.old to (filled 9 (text_of c)) out.new result }
    ensures upper_bound { result ≤ to + 16 }
{
    let p = put_text(c, out, to);
    if 9 <= c.len {
        return p;
    }
    bits_write::copy(out, p, &[b' '; 9][c.len..])
}

// The message that stands from a bit on, with its type byte; where there is none, nothing is said of the output.
pub fn message_decode(
    s: &[u8],
    at: usize,
    l: usize,
    out: &mut [u8],
    to: usize,
    mended: bool,
) -> Option<usize>
    requires { (length s.now < 2 ^ 55) × (to < 2 ^ 54) × (2 ≤ l) × (l ≤ 7) }
    ensures { Reads (read_message mended l (drop at (unpack s.now))) out.old to out.new result }
{
    // let .. else is the form that document 01 names for a token's answer
    let Some((call, p)) = ax25_token::token_decode(s, at, l, mended) else {
        return None;
    };
    let i = bits_write::byte(out, to, b':');
    let j = put_filled(call, out, i);
    let k = bits_write::byte(out, j, b':');
    Some(ax25_aprs::text::text_decode(s, p, false, out, k))
}

// The position that stands from a bit on, with its type byte; where there is none, nothing is said of the output.
fn position_decode(s: &[u8], at: usize, out: &mut [u8], to: usize) -> Option<usize>
    requires { (length s.now < 2 ^ 55) × (at < 2 ^ 59) × (to < 2 ^ 54) }
    ensures { Reads (read_position (drop at (unpack s.now))) out.old to out.new result }
{
    let p = bits_write::byte(out, to, b'!');
    ax25_aprs::latlon::latlon_decode(s, at, out, p)
}

// The body of a type that stands from a bit on, with its type byte; where there is none, nothing is said of the output.
pub fn aprs_decode(
    typ: AprsType,
    s: &[u8],
    at: usize,
    l: usize,
    out: &mut [u8],
    to: usize,
    mended: bool,
) -> Option<usize>
    requires { (length s.now < 2 ^ 55) × (at < 2 ^ 59) × (to < 2 ^ 54) × (2 ≤ l) × (l ≤ 7) }
    ensures { Reads (read_body mended (type_number typ) l (drop at (unpack s.now))) out.old to out.new result }
{
    match typ {
        AprsType::Text => Some(ax25_aprs::text::text_decode(s, at, false, out, to)),
        AprsType::Position => position_decode(s, at, out, to),
        AprsType::TimestampedPosition => ax25_aprs::body::timestamped_decode(s, at, out, to),
        _ => message_decode(s, at, l, out, to, mended),
    }
}
