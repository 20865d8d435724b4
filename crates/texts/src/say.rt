// What is said of a line: the words of commands, the reasons of refusals, errors.
ghost use Rattle.std.specs.Prelude.{◌≡◌, ◌^◌, ◌<◌, length};
ghost use Rattle.laws.specs.Wrote.{Wrote};
ghost use Rattle.texts.specs.Say.{word_of, reason_of, named_of, numbered_line, refusal_line, error_line, fault_of, unread_line};

use crate::hex::HexError;
use crate::number::put_number;
use bits_write::{byte, copy};

// The word of a command, by its number; empty where it has none.
fn word(command: u8) -> &'static [u8]
    ensures { result.now ≡ word_of command }
{
    match command {
        0 => b"ax25",
        1 => b"long",
        2 => b"generic",
        _ => b"",
    }
}

// The reason of a refusal of documents 01 and 02, by its number; empty where it has none.
fn reason(n: u8) -> &'static [u8]
    ensures { result.now ≡ reason_of n }
{
    match n {
        1 => b"unknown command",
        2 => b"data over 4,999 bytes or message over 5,000",
        3 => b"frame too short",
        4 => b"bad call",
        5 => b"bad format",
        6 => b"output too short",
        7 => b"message cannot be decoded",
        8 => b"field not 3 to 512",
        9 => b"mask not the top 1 to 7 bits of a byte",
        10 => b"empty message",
        11 => b"first byte 0x80 or more",
        12 => b"too many fragments for the mask",
        13 => b"no such fragment",
        14 => b"fragment empty or over the field",
        15 => b"marker 0x14",
        16 => b"reply over 3 or hint over 7",
        17 => b"store or state out of bounds",
        20 => b"name not 1 to 8 bytes or not kept",
        21 => b"eight states are kept already",
        27 => b"a tally is already the largest 64-bit number",
        _ => b"",
    }
}

// The word of a command. The next place.
pub fn put_word(out: &mut [u8], at: usize, command: u8) -> usize
    requires { at < 2 ^ 60 }
    ensures { Wrote out.old at (word_of command) out.new result }
{
    copy(out, at, word(command))
}

// The command that a word names.
pub fn command_of(word: &[u8]) -> Option<u8>
    ensures { result ≡ named_of word.now }
{
    if word == b"ax25".as_slice() {
        Some(0)
    } else if word == b"long".as_slice() {
        Some(1)
    } else if word == b"generic".as_slice() {
        Some(2)
    } else {
        None
    }
}

// A line of an opening, a number, a colon and a text. The next place.
fn put_line(out: &mut [u8], at: usize, opening: &[u8], n: u64, text: &[u8]) -> usize
    requires { (at < 2 ^ 60) × (length opening.now < 2 ^ 56) × (length text.now < 2 ^ 56) }
    ensures { Wrote out.old at (numbered_line opening.now n text.now) out.new result }
{
    let p = copy(out, at, opening);
    let q = put_number(out, p, n);
    let r = copy(out, q, b": ");
    let e = copy(out, r, text);
    byte(out, e, b'\n')
}

// The line of a refusal. The next place.
pub fn put_refusal(out: &mut [u8], at: usize, n: u8) -> usize
    requires { at < 2 ^ 60 }
    ensures { Wrote out.old at (refusal_line n) out.new result }
{
    put_line(out, at, b"refused ", u64::from(n), reason(n))
}

// The line of an error in line `number`. The next place.
pub fn put_error(out: &mut [u8], at: usize, number: u64, what: &[u8]) -> usize
    requires { (at < 2 ^ 60) × (length what.now < 2 ^ 56) }
    ensures { Wrote out.old at (error_line number what.now) out.new result }
{
    put_line(out, at, b"error: line ", number, what)
}

// What is wrong with a text that spells no bytes, in words.
fn fault(error: HexError) -> &'static [u8]
    ensures { result.now ≡ fault_of error }
{
    match error {
        HexError::NoDigit => b"no hexadecimal digit",
        HexError::Odd => b"an odd number of digits",
        HexError::TooLong => b"too long",
    }
}

// The error of a text that spells no bytes; nothing where it spells some. The next place.
// It takes the whole result of `read_hex`, and not its error alone, as its contract promises an answer to either.
pub fn put_unread(out: &mut [u8], at: usize, number: u64, read: Result<usize, HexError>) -> usize
    requires { at < 2 ^ 60 }
    ensures { Wrote out.old at (unread_line number read) out.new result }
{
    match read {
        Ok(_) => at,
        Err(error) => put_error(out, at, number, fault(error)),
    }
}
