// Bytes as people read them.
ghost use Rattle.std.specs.Prelude.{◌++◌, ◌^◌, ◌<◌, length};
ghost use Rattle.laws.specs.Text.{ascii};
ghost use Rattle.laws.specs.Wrote.{Wrote};
ghost use Rattle.texts.specs.Hex.{hex_byte};
ghost use Rattle.texts.specs.Show.{shown_byte, shown};

use crate::hex::put_byte;
use bits_write::{byte, copy};

// A byte by its digits. The next place.
fn put_number(out: &mut [u8], at: usize, x: u8) -> usize
    requires { at < 2 ^ 60 }
    ensures { Wrote out.old at (ascii "<0x" ++ (hex_byte x ++ ascii ">")) out.new result }
{
    let p = copy(out, at, b"<0x");
    let q = put_byte(out, p, x);
    byte(out, q, b'>')
}

// A byte of 20 to 7E as it is, any other by its digits. The next place.
fn put_one(out: &mut [u8], at: usize, x: u8) -> usize
    requires { at < 2 ^ 60 }
    ensures { Wrote out.old at (shown_byte x) out.new result }
{
    match x {
        0x20..=0x7E => byte(out, at, x),
        _ => put_number(out, at, x),
    }
}

// Bytes as they are shown. The next place. The loop is that of `put_hex` with another function for a byte: as a parameter, that function
// would bring a contract on all its calls, which is longer than the loop.
pub fn put_shown(out: &mut [u8], at: usize, s: &[u8]) -> usize
    requires { (at < 2 ^ 59) × (length s.now < 2 ^ 56) }
    ensures { Wrote out.old at (shown s.now) out.new result }
{
    let mut next = at;
    for x in s {
        next = put_one(out, next, *x);
    }
    next
}
