// What is said of a frame: that more are to come, that it was dropped, the message that it finishes, a refusal or an error.
ghost use Rattle.std.specs.Prelude.{◌≡◌, ◌^◌, ◌≤◌, ◌<◌, length};
ghost use Rattle.laws.specs.Wrote.{Wrote};
ghost use Rattle.kiss.specs.Codec.{decode_of};
ghost use Rattle.receiver.specs.Join.{told_of, heard_of};
ghost use Rattle.receiver.specs.Tally.{push_tallied};
ghost use Rattle.room.specs.Room.{most_decoded};
ghost use Rattle.texts.specs.Say.{digits_of};
ghost use Rattle.receive_lines.specs.Line.{readable_of, done_text, decoded_text, heard_text, line_text, line_left};

use bits_write::{byte, copy};
use input::LINE_ROOM;
use monitor::put_monitor;
use receiver::{Push, Reassembler};
use refusals::Refusal;
use texts::hex::{put_hex, read_hex};
use texts::part::front;
use texts::say::{put_refusal, put_unread, put_word};
use texts::show::put_shown;
use texts::space::zeros;

// How frames are read: the bytes of their field, and the original reading of messages or the mended one.
#[derive(Clone, Copy, Debug, PartialEq, Eq)]
pub struct Reading {
    pub field: usize,
    pub mended: bool,
}

// What is said, so many bytes of the output, and the receiver that a line leaves.
#[derive(Clone, Copy)]
pub struct Step {
    pub size: usize,
    pub receiver: Reassembler,
}

// A blank and the digits of bytes, where there are any. The next place.
fn put_digits(data: &[u8], out: &mut [u8], at: usize) -> usize
    requires { (length «data».now < 2 ^ 50) × (at < 2 ^ 50) }
    ensures { Wrote out.old at (digits_of «data».now) out.new result × (result < 2 ^ 53) }
{
    if data.is_empty() {
        return at;
    }
    let p = byte(out, at, b' ');
    put_hex(out, p, data)
}

// Data as people read them. The next place.
#[tactic(auto, using(crate::proofs::LineLaws::readable_generic, crate::proofs::LineLaws::readable_frame, texts::proofs::ShowLaws::shown_length))]
fn put_readable(command: u8, data: &[u8], out: &mut [u8], at: usize) -> usize
    requires { (length «data».now < 2 ^ 50) × (at < 2 ^ 54) }
    ensures { Wrote out.old at (readable_of command «data».now) out.new result × (result < 2 ^ 60) }
{
    if command == 2 {
        return put_shown(out, at, data);
    }
    put_monitor(command, data, out, at)
}

// The line that `send` takes, after `done`, and a line that people read. Their length.
fn put_done(command: u8, data: &[u8], out: &mut [u8]) -> usize
    requires { length «data».now < 2 ^ 50 }
    ensures { Wrote out.old 0 (done_text command «data».now) out.new result }
{
    let p = copy(out, 0, b"done ");
    let q = put_word(out, p, command);
    let r = put_digits(data, out, q);
    let s = copy(out, r, b"\n  ");
    let e = put_readable(command, data, out, s);
    byte(out, e, b'\n')
}

// The message that is done, decoded in the original reading or the mended one.
fn decoded(message: &[u8], data: &mut [u8], out: &mut [u8], mended: bool) -> usize
    requires { (most_decoded ≤ length «data».old) × (length «data».old < 2 ^ 50) }
    ensures { Wrote out.old 0 (decoded_text (decode_of mended message.now)) out.new result }
{
    match kiss::decode(message, mended, data) {
        Ok((command, n)) => put_done(command, front(data, n), out),
        Err(refusal) => put_refusal(out, 0, u8::from(refusal)),
    }
}

// What a fragment comes to, with a message first in the receiver's store.
fn pushed(push: Push, store: &[u8], data: &mut [u8], out: &mut [u8], mended: bool) -> usize
    requires { (most_decoded ≤ length «data».old) × (length «data».old < 2 ^ 50) }
    ensures { Wrote out.old 0 (heard_text mended (told_of push store.now)) out.new result }
{
    match push {
        Push::Dropped(_) => copy(out, 0, b"dropped\n"),
        Push::More => copy(out, 0, b"more\n"),
        Push::Done(n) => decoded(front(store, n), data, out, mended),
    }
}

// What the receiver answers, with a message first in its store.
fn told(
    answer: Result<Push, Refusal>,
    store: &[u8],
    data: &mut [u8],
    out: &mut [u8],
    mended: bool,
) -> usize
    requires { (most_decoded ≤ length «data».old) × (length «data».old < 2 ^ 50) }
    ensures { Wrote out.old 0 (heard_text mended (heard_of answer store.now)) out.new result }
{
    match answer {
        Ok(push) => pushed(push, store, data, out, mended),
        Err(refusal) => put_refusal(out, 0, u8::from(refusal)),
    }
}

// A frame is pushed.
fn heard(
    receiver: Reassembler,
    store: &mut [u8],
    frame: &[u8],
    reading: Reading,
    data: &mut [u8],
    out: &mut [u8],
) -> Step
    requires { (most_decoded ≤ length «data».old) × (length «data».old < 2 ^ 50) }
    ensures { Wrote out.old 0 (heard_text reading.mended (push_tallied receiver store.old frame.now reading.field).heard) out.new result.size
        × (result.receiver ≡ (push_tallied receiver store.old frame.now reading.field).receiver)
        × (store.new ≡ (push_tallied receiver store.old frame.now reading.field).store) }
{
    let pushed = receiver.push(store, frame, reading.field);
    Step {
        size: told(pushed.answer, store, data, out, reading.mended),
        receiver: pushed.receiver,
    }
}

// What is said of a line with its number. Nothing is said of an empty line.
pub fn said(
    receiver: Reassembler,
    store: &mut [u8],
    line: &[u8],
    number: u64,
    reading: Reading,
    data: &mut [u8],
    out: &mut [u8],
) -> Step
    requires { (most_decoded ≤ length «data».old) × (length «data».old < 2 ^ 50) }
    ensures { Wrote out.old 0 (line_text reading.mended reading.field number receiver store.old line.now) out.new result.size
        × ((result.receiver, store.new) ≡ line_left reading.field receiver store.old line.now) }
{
    if line.is_empty() {
        return Step { size: 0, receiver };
    }
    let mut frame: [u8; LINE_ROOM] = zeros();
    let read = read_hex(line, &mut frame);
    match read {
        Ok(n) => heard(receiver, store, front(&frame, n), reading, data, out),
        Err(_) => Step {
            size: put_unread(out, 0, number, read),
            receiver,
        },
    }
}
