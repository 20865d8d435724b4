// A frame as a message: `encode` of the source.
ghost use Rattle.std.specs.Prelude.{◌≡◌, Bool, false, ◌&&◌, List, map, ◌+◌, ◌*◌, ◌^◌, ◌≤◌, ◌<◌, length, eqb};
ghost use Rattle.std.specs.Prelude.{Some};
ghost use Rattle.laws.specs.Bits.{bits_of, unpack};
ghost use Rattle.laws.specs.Pick.{pick};
ghost use Rattle.laws.specs.Wrote.{Wrote};
ghost use Rattle.bits_write.specs.Text7.{last_or};
ghost use Rattle.ax25_token.specs.Put.{cased_of, Puts};
ghost use Rattle.ax25_token.specs.Token.{token_bits};
ghost use Rattle.ax25_address.specs.Address.{addr_call, heard_in};
ghost use Rattle.ax25_address.specs.Kind.{type_number};
ghost use Rattle.ax25_address.specs.Record.{alias_number};
ghost use Rattle.ax25_address.specs.Parse.{Parsed, fields_of, parse_of, type_of, alias_of};
ghost use Rattle.ax25_address.specs.Record.{record_of, seen_of};
ghost use Rattle.ax25_address.specs.Types.{Text, call_len};
ghost use Rattle.ax25_aprs.specs.Put.{Does};
ghost use Rattle.ax25.specs.Codes.{Codes};
ghost use Rattle.ax25.specs.Encode.{digi_code, type_width, tokens_bits, digi_bits, head_bits, info_bits, encode_of};

use ax25_address::address::addr_call;
use ax25_address::classify::AprsType;
use ax25_address::parse::addr_end;
use ax25_address::record::{PID_NO_L3, Record, UI_CTRL, call_len};
use ax25_body::body::aprs_encode;
use ax25_body::third::third_encode;
use ax25_token::encode::put_call;
use bits_write::{bit, byte, push, push_bytes, push_text7};
use refusals::Refusal;

// The H bits of n digipeaters, of which f starts at the first. The next position.
fn put_heard(f: &[u8], l: usize, n: usize, out: &mut [u8], at: usize) -> usize
    requires { (n ≤ 8) × (l ≤ 7) × (n * (l + 1) ≤ length f.now) × (length f.now < 2 ^ 60) × (at + n < 2 ^ 61) }
    ensures { Wrote (unpack out.old) at (map (heard_in l) (fields_of l n f.now)) (unpack out.new) result }
{
    if n == 0 {
        return at;
    }
    let p = bit(out, at, 0x80 <= f[l]);
    put_heard(&f[l + 1..], l, n - 1, out, p)
}

// The token of the call in an address field, as it is or in capitals.
fn put_address(f: &[u8], l: usize, up: bool, out: &mut [u8], at: usize) -> Option<usize>
    requires { (l < length f.now) × (l ≤ 7) × (at < 2 ^ 60) }
    ensures { Puts (unpack out.old) at (token_bits l (map (cased_of up) (addr_call l f.now))) (unpack out.new) result }
{
    put_call(addr_call(f, l, up), l, out, at)
}

// The tokens of n digipeaters, of which f starts at the first.
fn put_tokens(f: &[u8], l: usize, n: usize, out: &mut [u8], at: usize) -> Option<usize>
    requires { (n ≤ 8) × (2 ≤ l) × (l ≤ 7) × (n * (l + 1) ≤ length f.now) × (length f.now < 2 ^ 60) × (at + n * 100 < 2 ^ 60) }
    ensures { Puts (unpack out.old) at (tokens_bits l (map (addr_call l) (fields_of l n f.now))) (unpack out.new) result }
{
    if n == 0 {
        return Some(at);
    }
    let p = put_address(f, l, false, out, at)?;
    put_tokens(&f[l + 1..], l, n - 1, out, p)
}

// The digipeaters: where the destination starts with AP a bit says whether they are an alias, else there are only tokens.
fn put_digis(
    f: &[u8],
    l: usize,
    n: usize,
    ap: bool,
    alias: Option<usize>,
    out: &mut [u8],
    at: usize,
) -> Option<usize>
    requires { (n ≤ 8) × (2 ≤ l) × (l ≤ 7) × (n * (l + 1) ≤ length f.now) × (length f.now < 2 ^ 60) × (at < 2 ^ 59)
        × (alias_number alias ≡ alias_of (map (addr_call l) (fields_of l n f.now))) }
    ensures { Puts (unpack out.old) at (digi_bits l ap (map (addr_call l) (fields_of l n f.now))) (unpack out.new) result }
{
    if n == 0 {
        return Some(at);
    }
    if !ap {
        return put_tokens(f, l, n, out, at);
    }
    let p = bit(out, at, alias.is_some());
    if let Some(i) = alias {
        return Some(push(out, p, i as u64 + 1, 3));
    }
    put_tokens(f, l, n, out, p)
}

// The type: three bits where the destination starts with AP, else one. The next position.
fn put_type(t: AprsType, ap: bool, out: &mut [u8], at: usize) -> usize
    requires { at < 2 ^ 62 }
    ensures { Wrote (unpack out.old) at (bits_of (type_width ap) (type_number t)) (unpack out.new) result }
{
    push(out, at, u64::from(u8::from(t)), if ap { 3 } else { 1 })
}

// The bits before the body, after the header byte: H bits, destination, source, digipeaters, type.
fn put_head(frame: &[u8], command: u8, l: usize, r: Record, out: &mut [u8]) -> Option<usize>
    requires { (2 ≤ l) × (l ≤ 7) × (length frame.now < 2 ^ 56) × (Some (record_of r) ≡ seen_of command (parse_of l frame.now)) }
    ensures { (p : Parsed) → parse_of l frame.now ≡ Some p
        → Puts (unpack out.old) 8 (head_bits l p (type_of command p)) (unpack out.new) result }
{
    let digis = &frame[2 * (l + 1)..];
    let at = put_heard(digis, l, r.digis, out, 8);
    let p = put_address(frame, l, true, out, at)?;
    let q = put_address(&frame[l + 1..], l, true, out, p)?;
    let e = put_digis(digis, l, r.digis, r.ap, r.alias, out, q)?;
    Some(put_type(r.aprs_type, r.ap, out, e))
}

// 08 and the number of digipeaters less one, or 0.
fn digi_code(n: usize) -> u8
    requires { n ≤ 8 }
    ensures { (result ≡ digi_code n) × (result ≤ 15) }
{
    if n == 0 {
        return 0;
    }
    (n + 7) as u8
}

// Both control 03 and PID F0.
fn is_ui(ctrl: u8, pid: u8) -> bool
    ensures { result ≡ eqb ctrl 0x03 && eqb pid 0xF0 }
{
    ctrl == UI_CTRL && pid == PID_NO_L3
}

// The header byte: 10 for Ax25Long, 40 for a UI frame, and the digipeaters.
fn header(command: u8, ui: bool, n: usize) -> u8
    requires { n ≤ 8 }
    ensures { (result ≡ pick (eqb command 1) 0x10 0 + (pick ui 0x40 0 + digi_code n)) × (result < 0x80) }
{
    let long = either(command == 1, 0x10);
    let plain = either(ui, 0x40);
    long + (plain + digi_code(n))
}

// A byte where something holds, else 0.
fn either(b: bool, x: u8) -> u8
    ensures { (result ≡ pick b x 0) × (result ≤ x) }
{
    if b { x } else { 0 }
}

// Where the bytes of a text or binary body start: after control 03 and PID F0, else at control.
fn body_start(end: usize, ctrl: u8, pid: u8) -> usize
    requires { end < 2 ^ 60 }
    ensures { result ≡ pick (eqb ctrl 0x03 && eqb pid 0xF0) (end + 2) end }
{
    if is_ui(ctrl, pid) {
        return end + 2;
    }
    end
}

// The body after the bits of the head.
fn put_body(
    frame: &[u8],
    command: u8,
    l: usize,
    r: Record,
    out: &mut [u8],
    at: usize,
) -> Result<usize, Refusal>
    requires { (2 ≤ l) × (l ≤ 7) × (length frame.now ≤ 4999) × (at < 2 ^ 54) × (Some (record_of r) ≡ seen_of command (parse_of l frame.now)) }
    ensures { (p : Parsed) (head : List Bool) → parse_of l frame.now ≡ Some p → at ≡ 8 + length head
        → (type_of command p ≡ Text → last_or false head ≡ false)
        → Does (info_bits l p (type_of command p) head) (unpack out.old) at (unpack out.new) result }
{
    let end = addr_end(r.digis, l);
    let body = body_start(end, r.ctrl, r.pid);
    let start = end + 2;
    match r.aprs_type {
        AprsType::Text => Ok(push_text7(out, at, false, &frame[body..])),
        AprsType::Binary => Ok(push_bytes(out, at, &frame[body..])),
        AprsType::ThirdParty => third_encode(&frame[start..], l, out, at),
        typ => aprs_encode(typ, &frame[start..], l, out, at),
    }
}

// The message of a frame, whose record is r, as far as the output goes: its length, or the refusal's number.
pub fn encode(frame: &[u8], command: u8, r: Record, out: &mut [u8]) -> Result<usize, Refusal>
    requires { (length frame.now ≤ 4999) × (Some (record_of r) ≡ seen_of command (parse_of (call_len command) frame.now)) }
    ensures { Codes (encode_of command frame.now) out.old out.new result }
{
    let l = call_len(command);
    byte(out, 0, header(command, is_ui(r.ctrl, r.pid), r.digis));
    let p = put_head(frame, command, l, r, out).ok_or(Refusal::BadCall)?;
    let q = put_body(frame, command, l, r, out, p)?;
    Ok(push(out, q, 0, (8 - q % 8) % 8) / 8)
}
