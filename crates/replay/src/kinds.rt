// The kinds of lines. A new kind is a variant, one more in `KINDS` and `ALL`, a name, a row of `run` or `call`, and rows of `numbers` and `few`
// where its line has any.
ghost use Rattle.std.specs.Prelude.{◌≤◌, length};

use crate::answer::{same_answer, same_counted, same_got, same_taken};
use codings::{decode, encode, preview, summary};
use frame::Control;
use lines::answer::{Outcome, same_bytes, same_number};
use lines::field::{field, inputs, last, numbers, two_words};

// What a line is a record of.
#[derive(Clone, Copy, Debug, PartialEq, Eq)]
pub enum Kind {
    Crc,
    Push,
    Bfi,
    Text,
    Take,
    Digits,
    Text7,
    Val,
    Count,
    Fragment,
    Frame,
    History,
    Encode,
    Summary,
    Decode,
    Channel,
    Preview,
}

// How many kinds there are.
pub const KINDS: usize = 17;

impl Kind {
    // The kinds in order.
    pub const ALL: [Kind; KINDS] = [
        Kind::Crc,
        Kind::Push,
        Kind::Bfi,
        Kind::Text,
        Kind::Take,
        Kind::Digits,
        Kind::Text7,
        Kind::Val,
        Kind::Count,
        Kind::Fragment,
        Kind::Frame,
        Kind::History,
        Kind::Encode,
        Kind::Summary,
        Kind::Decode,
        Kind::Channel,
        Kind::Preview,
    ];

    // The word that a line of this kind starts with.
    pub fn name(self) -> &'static [u8] {
        match self {
            Kind::Crc => b"crc",
            Kind::Push => b"push",
            Kind::Bfi => b"bfi",
            Kind::Text => b"text",
            Kind::Take => b"take",
            Kind::Digits => b"digits",
            Kind::Text7 => b"text7",
            Kind::Val => b"val",
            Kind::Count => b"count",
            Kind::Fragment => b"fragment",
            Kind::Frame => b"frame",
            Kind::History => b"history",
            Kind::Encode => b"encode",
            Kind::Summary => b"summary",
            Kind::Decode => b"decode",
            Kind::Channel => b"channel",
            Kind::Preview => b"preview",
        }
    }

    // How many numbers stand after the kind in a line of numbers, a few bytes, bytes and an answer.
    fn numbers(self) -> usize
        ensures { result ≤ 3 }
    {
        match self {
            Kind::Text7 | Kind::Summary | Kind::Decode => 1,
            Kind::Text | Kind::Take | Kind::Digits | Kind::Frame | Kind::Encode | Kind::Preview =>
                2,
            Kind::Fragment => 3,
            _ => 0,
        }
    }

    // How many bytes are the few.
    fn few(self) -> usize
        ensures { result ≤ 4 }
    {
        match self {
            Kind::Fragment | Kind::Preview => 1,
            Kind::Frame => 4,
            _ => 0,
        }
    }
}

// The kind that a line names.
pub fn kind_of(line: &[u8]) -> Option<Kind> {
    let word = field(line, 0);
    for kind in Kind::ALL {
        if kind.name() == word {
            return Some(kind);
        }
    }
    None
}

// Makes the call of a line again and compares the answers.
pub fn run(kind: Kind, line: &[u8]) -> Outcome {
    match kind {
        Kind::Push => push(line),
        Kind::Bfi => bfi(line),
        Kind::Count => count(line),
        Kind::History => histories::history(line),
        Kind::Channel => histories::channel::channel(line),
        _ => plain(kind, line),
    }
}

// Reads a line of numbers, a few bytes, bytes and an answer, and makes its call.
fn plain(kind: Kind, line: &[u8]) -> Outcome {
    let mut v = [0u64; 3];
    let mut few = [0u8; 4];
    let mut data = io::large_buffer();
    let read = inputs(
        line,
        &mut v[..kind.numbers()],
        &mut few[..kind.few()],
        &mut data,
    );
    match read {
        Some(n) => call(kind, &v, &few, &data[..n], last(line)),
        None => Outcome::Bad,
    }
}

// Makes the call of a line that was read.
fn call(kind: Kind, v: &[u64; 3], few: &[u8; 4], s: &[u8], answer: &[u8]) -> Outcome
    requires { length s.now ≤ 65536 }
{
    match kind {
        Kind::Crc => crc(s, answer),
        Kind::Text => text(v[0], v[1], s, answer),
        Kind::Take => take(v[0], v[1], s, answer),
        Kind::Digits => digits(v[0], v[1], s, answer),
        Kind::Text7 => text7(v[0], s, answer),
        Kind::Val => same_number(answer, bits::vb_val(s)),
        Kind::Fragment => within(v[2], |out| fragment(v[0], v[1], few[0], s, answer, out)),
        Kind::Frame => within(v[1], |out| frame(v[0], few, s, answer, out)),
        Kind::Encode => within(v[1], |out| encode(v[0], s, answer, out)),
        Kind::Summary => summary(v[0], s, answer),
        Kind::Decode => within(v[0], |out| decode(s, answer, out)),
        Kind::Preview => preview(v[0], v[1], few[0], s, answer),
        _ => Outcome::Bad,
    }
}

// Makes a call that writes to an output of so many bytes.
// Never inlined, for the reason that stands at `same_bytes` of crate lines.
#[inline(never)]
fn within<F: FnOnce(&mut [u8]) -> Outcome>(room: u64, write: F) -> Outcome
    requires { F.IsAlwaysCallable write }
{
    let mut out = io::large_buffer();
    let n = room as usize;
    if out.len() < n {
        return Outcome::Bad;
    }
    write(&mut out[..n])
}

// crc HEX CRC
fn crc(data: &[u8], answer: &[u8]) -> Outcome {
    same_bytes(answer, &crc::crc16_genibus(data).to_be_bytes())
}

// push V AT W N HEX: V in AT bits, then the low N bits of W
fn push(line: &[u8]) -> Outcome {
    let Some(r) = two_words(line) else {
        return Outcome::Bad;
    };
    let mut out = [0u8; 16];
    let mid = bits_write::push(&mut out, 0, r.v, r.at);
    let end = bits_write::push(&mut out, mid, r.w, r.n);
    same_bytes(last(line), &out[..end.div_ceil(8)])
}

// bfi V AT W N HEX: V in AT bits, then the highest N of W; N is not 0
fn bfi(line: &[u8]) -> Outcome {
    let Some(r) = two_words(line) else {
        return Outcome::Bad;
    };
    if r.n == 0 {
        return Outcome::Bad;
    }
    let mut out = [0u8; 16];
    let mid = bits_write::push(&mut out, 0, r.v, r.at);
    let end = bits_write::push_bfi(&mut out, mid, r.w, r.n);
    same_bytes(last(line), &out[..end.div_ceil(8)])
}

// text V AT TEXT HEX: V in AT bits, then a text of seven bits a byte
fn text(v: u64, at: u64, s: &[u8], answer: &[u8]) -> Outcome
    requires { length s.now ≤ 65536 }
{
    if 64 < at {
        return Outcome::Bad;
    }
    let mut out = io::large_buffer();
    let end = push_text(&mut out, v, at as usize, s);
    same_bytes(answer, &out[..end])
}

// Makes the calls of a text line. How many bytes were written: the pad goes up to a whole byte.
fn push_text(out: &mut [u8], v: u64, at: usize, text: &[u8]) -> usize
    requires { (at ≤ 64) × (length text.now ≤ 65536) }
    ensures { result ≤ 65536 }
{
    let mid = bits_write::push(out, 0, v, at);
    let last = 0 < at && v % 2 == 1;
    bits_write::push_text7(out, mid, last, text) / 8
}

// take AT N HEX VALUE: the number of N bits at AT
fn take(at: u64, n: u64, s: &[u8], answer: &[u8]) -> Outcome
    requires { length s.now ≤ 65536 }
{
    if 64 < n {
        return Outcome::Bad;
    }
    same_taken(answer, bits::reader::take_at(s, at as usize, n as usize))
}

// digits AT N HEX VALUE: the number whose decimal digits are the N bits at AT
fn digits(at: u64, n: u64, s: &[u8], answer: &[u8]) -> Outcome
    requires { length s.now ≤ 65536 }
{
    if 16 < n {
        return Outcome::Bad;
    }
    same_taken(answer, bits::reader::text_at(s, at as usize, n as usize))
}

// text7 AT HEX TEXT: the text of seven bits a byte from AT on
fn text7(at: u64, s: &[u8], answer: &[u8]) -> Outcome
    requires { length s.now ≤ 65536 }
{
    let mut out = io::large_buffer();
    let ours = bits::reader::text7_at(s, at as usize, &mut out, 0);
    same_got(answer, &out, ours)
}

// count TOTAL FIELD ANSWER
fn count(line: &[u8]) -> Outcome {
    let mut v = [0u64; 2];
    if !numbers(line, 4, &mut v) {
        return Outcome::Bad;
    }
    let ours = sender::count_for_field(v[0] as usize, v[1] as usize);
    same_counted(last(line), ours)
}

// fragment FIELD K ROOM MASK HEX ANSWER: fragment K of a message, to an output of ROOM bytes
fn fragment(size: u64, k: u64, mask: u8, s: &[u8], answer: &[u8], out: &mut [u8]) -> Outcome {
    let ours = sender::fragment(s, size as usize, mask, k as usize, out);
    same_answer(answer, out, ours)
}

// frame FIELD ROOM BYTES HEX ANSWER: the frame of a fragment, to an output of ROOM bytes; BYTES are reply, compressed, hint and marker
fn frame(size: u64, b: &[u8; 4], s: &[u8], answer: &[u8], out: &mut [u8]) -> Outcome {
    let control = Control {
        reply: b[0],
        compressed: b[1] != 0,
        hint: b[2],
    };
    let ours = frame::build_frame(size as usize, s, control, b[3], out);
    same_answer(answer, out, ours)
}
