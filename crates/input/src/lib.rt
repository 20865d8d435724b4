// Standard input, line by line, the numbers of the command line, and what is written of a line.
#![tactic(auto)]

ghost use Rattle.std.specs.Prelude.{◌≡◌, ◌+◌, ◌^◌, ◌<◌, ◌≤◌, length, IfSome};
ghost use Rattle.input.specs.Stand.{is_over};

use bits_write::copy;
use std::env::{Env, FillError};
use std::io::Read;
use texts::number::decimal;
use texts::part::find;

// The longest line.
pub const LINE_ROOM: usize = 16384;

// How far reading has come.
#[derive(Clone, Copy, Debug, PartialEq, Eq)]
pub enum Reached {
    // the line goes on
    Middle,
    // the line's end was seen
    LineEnd,
    // the input has ended
    InputEnd,
}

// Where reading stands.
#[derive(Clone, Copy)]
pub struct Stand {
    // what was read and not taken yet is `chunk[from..to]`
    pub from: usize,
    pub to: usize,
    // the line's length, one more than its room where it is longer
    pub len: usize,
    // the line's number, counted from 1
    pub number: u64,
    pub reached: Reached,
}

impl Stand {
    // The input has ended, and no line is left of it.
    pub fn is_over(&self) -> bool
        ensures { result ≡ is_over self.now }
    {
        self.reached == Reached::InputEnd && self.len == 0
    }
}

// Nothing is read yet.
pub fn start() -> Stand
    ensures { result.to ≡ 0 }
{
    Stand {
        from: 0,
        to: 0,
        len: 0,
        number: 0,
        reached: Reached::Middle,
    }
}

// Reads where all is taken. The input has ended where nothing came or the reading failed.
fn filled<R: Read>(reader: &mut R, s: Stand, chunk: &mut [u8]) -> Stand
    requires { s.to ≤ length chunk.old }
    ensures { (result.from ≤ result.to) × (result.to ≤ length chunk.new) × (result.len ≡ s.len) }
{
    if s.from < s.to {
        return s;
    }
    let to = reader.read(chunk).unwrap_or(0);
    let reached = if to == 0 {
        Reached::InputEnd
    } else {
        Reached::Middle
    };
    Stand {
        from: 0,
        to,
        reached,
        ..s
    }
}

// Takes what was read up to the line's end.
fn taken(s: Stand, chunk: &[u8], line: &mut [u8]) -> Stand
    requires { (s.from ≤ s.to) × (s.to ≤ length chunk.now) × (s.len ≤ length line.old + 1) × (length chunk.now < 2 ^ 60) × (length line.old < 2 ^ 60) }
    ensures { (result.to ≡ s.to) × (result.len ≤ length line.new + 1) }
{
    let end = find(&chunk[..s.to], s.from, b'\n');
    let n = copy(line, s.len, &chunk[s.from..end]);
    let len = n.min(line.len() + 1);
    if end < s.to {
        Stand {
            from: end + 1,
            len,
            reached: Reached::LineEnd,
            ..s
        }
    } else {
        Stand {
            from: end,
            len,
            reached: Reached::Middle,
            ..s
        }
    }
}

// Reads where all is taken, and takes what was read up to the line's end.
fn step<R: Read>(reader: &mut R, s: Stand, chunk: &mut [u8], line: &mut [u8]) -> Stand
    requires { (s.to ≤ length chunk.old) × (s.len ≤ length line.old + 1) × (length chunk.old < 2 ^ 60) × (length line.old < 2 ^ 60) }
    ensures { (result.to ≤ length chunk.new) × (result.len ≤ length line.new + 1) }
{
    let f = filled(reader, s, chunk);
    if f.reached == Reached::InputEnd {
        return f;
    }
    taken(f, chunk, line)
}

// The next line, its first bytes in `line`. At the end of the input it is empty.
pub fn next<R: Read>(reader: &mut R, s: Stand, chunk: &mut [u8], line: &mut [u8]) -> Stand
    requires { (s.to ≤ length chunk.old) × (length chunk.old < 2 ^ 60) × (length line.old < 2 ^ 60) }
    ensures { (result.to ≤ length chunk.new) × (result.len ≤ length line.new + 1) }
{
    let mut stand = Stand {
        len: 0,
        number: s.number.wrapping_add(1),
        ..s
    };
    if s.reached == Reached::InputEnd {
        return stand;
    }
    for _ in 0..u64::MAX {
        stand = step(reader, stand, chunk, line);
        if stand.reached != Reached::Middle {
            return stand;
        }
    }
    stand
}

// No whole line is left of what was read: the next one has to be waited for.
pub fn must_wait(s: Stand, chunk: &[u8]) -> bool
    requires { s.to ≤ length chunk.now }
{
    s.to <= s.from || find(&chunk[..s.to], s.from, b'\n') == s.to
}

// How many bytes word i of the command line has, put at the start of `text`: none where there is no such word or no room for it.
fn word_at<E: Env>(env: &E, i: usize, text: &mut [u8]) -> usize
    ensures { result ≤ length text.new }
{
    env.arg(i, text).unwrap_or(0)
}

// The command line has a word i, counted from 0, which is the program's own name.
fn has_place<E: Env>(env: &E, i: usize) -> bool {
    let mut text = io::buffer();
    !matches!(env.arg(i, &mut text), Err(FillError::NotPresent))
}

// Word i of the command line is this one; the program's own name is word 0.
fn is_word<E: Env>(env: &E, i: usize, word: &[u8]) -> bool {
    let mut text = io::buffer();
    let n = word_at(env, i, &mut text);
    &text[..n] == word
}

// A number of the command line.
fn number_at<E: Env>(env: &E, i: usize) -> Option<u64> {
    let mut text = io::buffer();
    let n = word_at(env, i, &mut text);
    decimal(&text[..n])
}

// The command line has this word after its two numbers, first or second.
pub fn has_word<E: Env>(env: &E, word: &[u8]) -> bool {
    is_word(env, 3, word) || is_word(env, 4, word)
}

// The command line has so many words.
fn has_count<E: Env>(env: &E, count: usize) -> bool
    requires { 0 < count }
{
    has_place(env, count - 1) && !has_place(env, count)
}

// The two numbers of the command line, with one word or two after them where these are so, and with nothing else. Before them stands
// the program's name.
pub fn numbers<E: Env>(env: &E, first: bool, second: bool) -> Option<(u64, u64)> {
    if !has_count(env, 3 + usize::from(first) + usize::from(second)) {
        return None;
    }
    Some((number_at(env, 1)?, number_at(env, 2)?))
}

// A number as a mask. What is no byte is no mask, as 0 is none.
pub fn mask_of(n: u64) -> u8 {
    u8::try_from(n).unwrap_or(0)
}

// Writes the first n bytes, or an error line where there are fewer. Whether all of it could be written; where not, that is said on standard error.
pub fn print(out: &[u8], n: usize) -> bool {
    match out.get(..n) {
        Some(text) => put(text),
        None => put(b"error: no room for the answer\n"),
    }
}

// n bytes more are held after the first `at` of the output. All are written where the next line has to be waited for, and where fewer
// than `least` bytes of room are left. How many bytes are held then and not written yet, or none where they could not be written.
pub fn hold(out: &[u8], at: usize, n: usize, wait: bool, least: usize) -> Option<usize>
    requires { at ≤ length out.now }
    ensures { IfSome result (λ held. held ≤ length out.now) }
{
    let room = out.len() - at;
    if room < n {
        let written = print(out, at) && put(b"error: no room for the answer\n");
        return written.then_some(0);
    }
    if !wait && least <= room - n {
        return Some(at + n);
    }
    print(out, at + n).then_some(0)
}

// Writes to standard output. Where that fails, says so on standard error.
fn put(text: &[u8]) -> bool {
    if io::write_all(1, text) {
        return true;
    }
    io::write_all(2, b"error: the output can't be written\n");
    false
}
