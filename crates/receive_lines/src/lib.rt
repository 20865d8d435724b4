// What `receive` does: it reads frames from standard input, one a line, and writes what comes of each.
#![tactic(auto)]

mod line;
mod loss;

ghost use Rattle.std.specs.Prelude.{◌^◌, ◌≤◌, ◌<◌, length};
ghost use Rattle.room.specs.Room.{most_decoded};

use input::{LINE_ROOM, Stand, has_word, hold, mask_of, must_wait, next, numbers, print};
use line::{Reading, Step};
use loss::put_losses;
use receiver::Reassembler;
use std::env::Env;
use std::io::Read;
use texts::part::without_cr;
use texts::say::{put_error, put_refusal};
use texts::space::zeros;

// Room for what is said of a line: two digits and at most six characters for each of 45,764 bytes, and some words.
const ANSWER: usize = 370000;

// The whole program: FIELD and MASK from the command line, then every line. After them may stand, in any order, the word `mended` for
// the mended reading and the word `tallies` for a line at the end that says where the frames went.
pub fn run<E: Env, R: Read>(env: &E, reader: &mut R) {
    let mended = has_word(env, b"mended");
    let tallies = has_word(env, b"tallies");
    let Some((field, mask)) = numbers(env, mended, tallies) else {
        io::write_all(
            1,
            b"usage: receive FIELD MASK [mended] [tallies] (bytes of a frame's field, 3 to 512; mask of 1 to 7 check bits: 128, 192, 224, 240 (HF), 248 (FM), 252 or 254; mended: WIDE1-2, WIDE1-3, WIDE2-2 and WIDE2-3 are read as sent; tallies: a last line counts the frames by what came of them)\n",
        );
        return;
    };
    let reading = Reading {
        field: field as usize,
        mended,
    };
    let mut out: [u8; 400000] = zeros();
    match Reassembler::with_crc_mask(mask_of(mask)) {
        Ok(receiver) => {
            let Some(left) = every(reader, receiver, reading, &mut out) else {
                return;
            };
            if tallies {
                let size = put_losses(&mut out, left.tallies);
                print(&out, size);
            }
        }
        Err(refusal) => {
            let size = put_refusal(&mut out, 0, u8::from(refusal));
            print(&out, size);
        }
    }
}

// Answers every line of standard input. The receiver that is left, or none where an answer could not be written.
fn every<R: Read>(
    reader: &mut R,
    receiver: Reassembler,
    reading: Reading,
    out: &mut [u8],
) -> Option<Reassembler> {
    let mut chunk = io::buffer();
    let mut line: [u8; LINE_ROOM] = zeros();
    let mut store: [u8; 5000] = zeros();
    let mut data = io::large_buffer();
    lines(
        reader, receiver, reading, &mut chunk, &mut line, &mut store, &mut data, out,
    )
}

// Answers every line, as long as the answers can be written. Those of all lines that were read at once are written at once. The
// receiver that is left, or none where an answer could not be written. The loop of `send_lines` is the same but for the receiver, which this one
// hands on from line to line: one loop for both would take a closure that lends it store and data, and is no plainer.
fn lines<R: Read>(
    reader: &mut R,
    receiver: Reassembler,
    reading: Reading,
    chunk: &mut [u8],
    line: &mut [u8],
    store: &mut [u8],
    data: &mut [u8],
    out: &mut [u8],
) -> Option<Reassembler>
    requires { (length chunk.old < 2 ^ 60) × (length line.old < 2 ^ 60) × (most_decoded ≤ length «data».old) × (length «data».old < 2 ^ 50) }
{
    let mut stand = input::start();
    let mut state = receiver;
    let mut at = 0;
    for _ in 0..u64::MAX {
        stand = next(reader, stand, chunk, line);
        if stand.is_over() {
            print(out, at);
            return Some(state);
        }
        let said = answer(state, store, line, stand, reading, data, &mut out[at..]);
        state = said.receiver;
        at = hold(out, at, said.size, must_wait(stand, chunk), ANSWER)?;
    }
    Some(state)
}

// What is said of the line that was read.
fn answer(
    state: Reassembler,
    store: &mut [u8],
    line: &[u8],
    stand: Stand,
    reading: Reading,
    data: &mut [u8],
    out: &mut [u8],
) -> Step
    requires { (most_decoded ≤ length «data».old) × (length «data».old < 2 ^ 50) }
{
    match line.get(..stand.len) {
        Some(text) => line::said(
            state,
            store,
            without_cr(text),
            stand.number,
            reading,
            data,
            out,
        ),
        None => Step {
            size: put_error(out, 0, stand.number, b"too long"),
            receiver: state,
        },
    }
}
