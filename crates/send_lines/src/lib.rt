// What `send` and `price` do: they read lines from standard input, `ax25 HEX`, `long HEX`, `generic HEX` or `text TEXT`. `send` writes
// the frames of each, `price` how many bytes and frames they are.
#![tactic(auto)]

mod line;

ghost use Rattle.std.specs.Prelude.{◌^◌, ◌<◌, length};

use input::{LINE_ROOM, Stand, hold, mask_of, must_wait, next, numbers, print};
use std::env::Env;
use std::io::Read;
use texts::part::without_cr;
use texts::say::put_error;
use texts::space::zeros;

// Room for what is said of a line, which has at most 12,716 bytes.
const ANSWER: usize = 16384;

// What is said of a line: the frames of what it holds, or their price.
#[derive(Clone, Copy, Debug, PartialEq, Eq)]
pub enum Task {
    Send,
    Price,
}

// What is said of each line, and the field and the mask that the frames have.
#[derive(Clone, Copy, Debug, PartialEq, Eq)]
pub struct Job {
    pub task: Task,
    pub field: usize,
    pub mask: u8,
}

// The whole program `send`, or `price`: FIELD and MASK from the command line, then every line.
pub fn run<E: Env, R: Read>(env: &E, reader: &mut R, task: Task) {
    let Some((field, mask)) = numbers(env, false, false) else {
        usage(task);
        return;
    };
    let job = Job {
        task,
        field: field as usize,
        mask: mask_of(mask),
    };
    let mut chunk = io::buffer();
    let mut line: [u8; LINE_ROOM] = zeros();
    let mut out = io::large_buffer();
    lines(reader, job, &mut chunk, &mut line, &mut out);
}

// How the program is called.
fn usage(task: Task) {
    match task {
        Task::Send => io::write_all(1, b"usage: send"),
        Task::Price => io::write_all(1, b"usage: price"),
    };
    io::write_all(
        1,
        b" FIELD MASK (bytes of a frame's field, 3 to 512; mask of 1 to 7 check bits: 128, 192, 224, 240 (HF), 248 (FM), 252 or 254)\n",
    );
}

// Answers every line, as long as the answers can be written. Those of all lines that were read at once are written at once.
fn lines<R: Read>(reader: &mut R, job: Job, chunk: &mut [u8], line: &mut [u8], out: &mut [u8])
    requires { (length chunk.old < 2 ^ 60) × (length line.old < 2 ^ 60) }
{
    let mut stand = input::start();
    let mut at = 0;
    for _ in 0..u64::MAX {
        stand = next(reader, stand, chunk, line);
        if stand.is_over() {
            print(out, at);
            return;
        }
        let n = answer(job, line, stand, &mut out[at..]);
        let Some(held) = hold(out, at, n, must_wait(stand, chunk), ANSWER) else {
            return;
        };
        at = held;
    }
}

// What is said of the line that was read.
fn answer(job: Job, line: &[u8], stand: Stand, out: &mut [u8]) -> usize {
    match line.get(..stand.len) {
        Some(text) => line::said(job, without_cr(text), stand.number, out),
        None => put_error(out, 0, stand.number, b"too long"),
    }
}
