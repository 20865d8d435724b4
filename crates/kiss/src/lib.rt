// Data coded and messages decoded.
#![tactic(auto)]

mod generic;
mod lengths;
mod summaries;

ghost use Rattle.std.specs.Prelude.{◌≡◌, ◌≤◌, ◌<◌, length, get_or, drop};
ghost use Rattle.std.specs.Prelude.{Some};
ghost use Rattle.laws.specs.Bits.{unpack};
ghost use Rattle.refusals.specs.Outcome.{answer};
ghost use Rattle.ax25.specs.Decode.{read_frame};
ghost use Rattle.ax25.specs.Encode.{encode_of};
ghost use Rattle.ax25_address.specs.Parse.{parse_of};
ghost use Rattle.ax25_address.specs.Record.{record_of, seen_of};
ghost use Rattle.ax25_address.specs.Types.{Text, Generic, call_len};
ghost use Rattle.kiss.specs.Codec.{code_of, or_seven, decode_of};
ghost use Rattle.kiss.specs.Generic.{generic_of, generic_back};
ghost use Rattle.kiss.specs.Told.{encoded_of, code_into, decoded_of, decode_into};

use ax25_address::classify::AprsType;
use ax25_address::record::Record;
pub use lengths::coded_length;
use refusals::{MAX_DATA, MAX_MESSAGE, Refusal};
pub use summaries::{Facts, summary};

// Up to so many bytes an input is short.
const SHORT_INPUT: usize = 512;

// Generic bytes: a run over no output measures, the next one writes.
fn encode_generic(data: &[u8], out: &mut [u8]) -> Result<(usize, AprsType), Refusal>
    requires { length «data».now ≤ 4999 }
    ensures { (encoded_of result, out.new) ≡ code_into (answer (record { bytes = generic_of «data».now; typ = Text })) out.old }
{
    let n = generic::generic_encode(data, &mut out[..0]);
    if out.len() < n {
        return Err(Refusal::Output);
    }
    generic::generic_encode(data, out);
    Ok((n, AprsType::Text))
}

// How many bytes of an array of `most` bytes the first run over an input of n bytes is lent: all where the input is short, so that what it writes there can be copied, else none, so that it only measures.
fn first_room(n: usize, most: usize) -> usize
    ensures { result ≤ most }
{
    if SHORT_INPUT < n { 0 } else { most }
}

// A frame whose record is found. The first run measures here too; what it wrote whole to the array is not coded again.
fn encode_found(
    command: u8,
    data: &[u8],
    r: Record,
    out: &mut [u8],
) -> Result<(usize, AprsType), Refusal>
    requires { (length «data».now ≤ 4999) × (Some (record_of r) ≡ seen_of command (parse_of (call_len command) «data».now)) }
    ensures { (encoded_of result, out.new) ≡ code_into (encode_of command «data».now) out.old }
{
    let typ = r.aprs_type;
    let mut scratch = [0u8; 512];
    let room = first_room(data.len(), 512);
    let size = ax25::encode::encode(data, command, r, &mut scratch[0..room])?;
    if out.len() < size {
        return Err(Refusal::Output);
    }
    if room < size {
        let _ = ax25::encode::encode(data, command, r, out);
        return Ok((size, typ));
    }
    bits_write::copy_all(out, 0, &scratch[0..size]);
    Ok((size, typ))
}

// A frame.
fn encode_frame(command: u8, data: &[u8], out: &mut [u8]) -> Result<(usize, AprsType), Refusal>
    requires { length «data».now ≤ 4999 }
    ensures { (encoded_of result, out.new) ≡ code_into (encode_of command «data».now) out.old }
{
    let r = ax25_address::record::parse(data, command).ok_or(Refusal::Short)?;
    encode_found(command, data, r, out)
}

// The message of data under a command: its length and type, and its bytes in out.
pub fn encode(command: u8, data: &[u8], out: &mut [u8]) -> Result<(usize, AprsType), Refusal>
    ensures { (encoded_of result, out.new) ≡ code_into (code_of command «data».now) out.old }
{
    if 2 < command {
        return Err(Refusal::Command);
    }
    if MAX_DATA < data.len() {
        return Err(Refusal::TooLong);
    }
    if command == 2 {
        return encode_generic(data, out);
    }
    encode_frame(command, data, out)
}

// The generic bytes of a message: a run over no output measures, the next one writes.
fn decode_generic(message: &[u8], out: &mut [u8]) -> Result<(u8, usize), Refusal>
    requires { (0 < length message.now) × (length message.now ≤ 5000) }
    ensures { (decoded_of result, out.new) ≡ decode_into (answer (record { command = Generic; bytes = generic_back (get_or message.now 0 0) (drop 1 message.now) })) out.old }
{
    let n = generic::generic_decode(message, &mut out[..0]);
    if out.len() < n {
        return Err(Refusal::Output);
    }
    generic::generic_decode(message, out);
    Ok((2, n))
}

// The frame of a message. The first run measures here too; what it wrote whole to the array is not read again.
fn decode_frame(
    message: &[u8],
    command: u8,
    out: &mut [u8],
    mended: bool,
) -> Result<(u8, usize), Refusal>
    requires { (0 < length message.now) × (length message.now ≤ 5000) }
    ensures { (decoded_of result, out.new) ≡ decode_into (or_seven command (read_frame mended (call_len command) (get_or message.now 0 0) (unpack (drop 1 message.now)))) out.old }
{
    let l = ax25_address::record::call_len(command);
    let mut scratch = [0u8; 1024];
    let room = first_room(message.len(), 1024);
    let first = &mut scratch[0..room];
    let needed = ax25_decode::decode(&message[1..], message[0], l, first, mended).ok_or(
        Refusal::NotDecoded,
    )?;
    if out.len() < needed {
        return Err(Refusal::Output);
    }
    if room < needed {
        let _ = ax25_decode::decode(&message[1..], message[0], l, out, mended);
        return Ok((command, needed));
    }
    bits_write::copy_all(out, 0, &scratch[0..needed]);
    Ok((command, needed))
}

// The bytes that a message was coded from. Mended: the last two bits of a WIDE token are a binary number; the original reading takes them as decimal digits.
pub fn decode(message: &[u8], mended: bool, out: &mut [u8]) -> Result<(u8, usize), Refusal>
    ensures { (decoded_of result, out.new) ≡ decode_into (decode_of mended message.now) out.old }
{
    if MAX_MESSAGE < message.len() {
        return Err(Refusal::TooLong);
    }
    if message.len() == 0 {
        return Err(Refusal::NotDecoded);
    }
    let command = message[0] / 16 % 4;
    if command == 3 {
        return Err(Refusal::NotDecoded);
    }
    if command == 2 {
        return decode_generic(message, out);
    }
    decode_frame(message, command, out, mended)
}
