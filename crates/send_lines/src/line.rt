// What is said of a line: the frames of what it holds or their price, a refusal or an error.
ghost use Rattle.std.specs.Prelude.{◌*◌, ◌^◌, ◌≤◌, ◌<◌, length};
ghost use Rattle.laws.specs.Wrote.{Wrote};
ghost use Rattle.frame.specs.Frame.{build_of};
ghost use Rattle.sender.specs.Send.{count_for, send_of};
ghost use Rattle.send_lines.specs.Line.{plain, marker, framed_of, frames_of, counted_text, data_text, price_line, price_text, is_price, said_of, spelled_text, line_text, Sends};

use crate::{Job, Task};
use bits_write::{byte, copy};
use frame::Control;
use input::LINE_ROOM;
use preview::Price;
use refusals::Refusal;
use texts::hex::{put_hex, read_hex};
use texts::number::put_number;
use texts::part::{front, piece, rest};
use texts::say::{command_of, put_error, put_refusal, put_unread};
use texts::space::zeros;

// The byte after the terminator: what the source's `term_marker` takes where a CRC gives none.
const MARKER: u8 = 0x01;

// The command of bytes that are no frame.
const GENERIC: u8 = 2;

// The frame of a fragment as a line: the place after it.
fn framed(field: usize, data: &[u8], out: &mut [u8], at: usize) -> Result<usize, Refusal>
    requires { at < 2 ^ 59 }
    ensures { Sends out.old at (build_of field «data».now plain marker) out.new result }
{
    let mut space = [0u8; 515];
    let control = Control {
        reply: 0,
        compressed: false,
        hint: 0,
    };
    let n = frame::build_frame(field, data, control, MARKER, &mut space)?;
    let end = put_hex(out, at, front(&space, n));
    Ok(byte(out, end, b'\n'))
}

// The frame of fragment k of a message as a line: the place after it.
fn one(message: &[u8], job: Job, k: usize, out: &mut [u8], at: usize) -> Result<usize, Refusal>
    requires { at < 2 ^ 59 }
    ensures { Sends out.old at (framed_of job.field (send_of message.now job.field job.mask k)) out.new result }
{
    let mut space = [0u8; 512];
    let n = sender::fragment(message, job.field, job.mask, k, &mut space)?;
    framed(job.field, front(&space, n), out, at)
}

// The frames of the first fragments of a message, a line each, up to the first refusal. Their length.
fn all(message: &[u8], job: Job, count: usize, out: &mut [u8]) -> usize
    requires { count * 1031 < 2 ^ 58 }
    ensures { Wrote out.old 0 (frames_of message.now job.field job.mask count 0) out.new result }
{
    let mut at = 0;
    for k in 0..count {
        match one(message, job, k, out, at) {
            Ok(next) => at = next,
            Err(refusal) => return put_refusal(out, at, u8::from(refusal)),
        }
    }
    at
}

// The frames of a message. Their length.
fn frames(message: &[u8], job: Job, out: &mut [u8]) -> usize
    requires { length message.now ≤ 5000 }
    ensures { Wrote out.old 0 (counted_text message.now job.field job.mask (count_for (length message.now) job.field)) out.new result }
{
    match sender::count_for_field(message.len(), job.field) {
        Ok(count) => all(message, job, count, out),
        Err(refusal) => put_refusal(out, 0, u8::from(refusal)),
    }
}

// The frames of data under a command.
fn coded(command: u8, data: &[u8], job: Job, out: &mut [u8]) -> usize
    ensures { Wrote out.old 0 (data_text job.field job.mask command «data».now) out.new result }
{
    let mut message: [u8; LINE_ROOM] = zeros();
    match kiss::encode(command, data, &mut message) {
        Ok((n, _)) => frames(front(&message, n), job, out),
        Err(refusal) => put_refusal(out, 0, u8::from(refusal)),
    }
}

// The bytes and the frames of a price, as a line. Its length.
fn put_price(p: Price, out: &mut [u8]) -> usize
    ensures { Wrote out.old 0 (price_line p) out.new result }
{
    let a = put_number(out, 0, p.length as u64);
    let b = copy(out, a, b" bytes, ");
    let e = put_number(out, b, p.count as u64);
    copy(out, e, b" frames\n")
}

// The price of data under a command.
fn cost(command: u8, data: &[u8], job: Job, out: &mut [u8]) -> usize
    ensures { Wrote out.old 0 (price_text job.field job.mask command «data».now) out.new result }
{
    match preview::preview(command, data, job.field, job.mask) {
        Ok(price) => put_price(price, out),
        Err(refusal) => put_refusal(out, 0, u8::from(refusal)),
    }
}

// What `send` says of data under a command, or what `price` says.
fn of_data(command: u8, data: &[u8], job: Job, out: &mut [u8]) -> usize
    ensures { Wrote out.old 0 (said_of (is_price job.task) job.field job.mask command «data».now) out.new result }
{
    match job.task {
        Task::Send => coded(command, data, job, out),
        Task::Price => cost(command, data, job, out),
    }
}

// What is said of bytes in hexadecimal under a command.
fn spelled(command: u8, text: &[u8], number: u64, job: Job, out: &mut [u8]) -> usize
    ensures { Wrote out.old 0 (spelled_text (is_price job.task) job.field job.mask number command text.now) out.new result }
{
    let mut data: [u8; LINE_ROOM] = zeros();
    let read = read_hex(text, &mut data);
    match read {
        Ok(n) => of_data(command, front(&data, n), job, out),
        Err(_) => put_unread(out, 0, number, read),
    }
}

// What `send` says of a line with its number, or what `price` says: how many bytes of `out`. Nothing is said of an empty line.
pub fn said(job: Job, line: &[u8], number: u64, out: &mut [u8]) -> usize
    ensures { Wrote out.old 0 (line_text (is_price job.task) job.field job.mask number line.now) out.new result }
{
    if line.is_empty() {
        return 0;
    }
    let word = piece(line, 0, b' ');
    let text = rest(line, b' ');
    if word == b"text".as_slice() {
        return of_data(GENERIC, text, job, out);
    }
    match command_of(word) {
        Some(command) => spelled(command, text, number, job, out),
        None => put_error(out, 0, number, b"unknown command"),
    }
}
