// A reader that borrows the message bytes and keeps a bit position: `Reader` of the source, over the functions of `read`.
// `bit`, `take` and `text` move the position past what they read, and leave it where there are too few bits.
ghost use Rattle.std.specs.Prelude.{◌≡◌, ◌-◌, ◌*◌, ◌/◌, ◌^◌, ◌≤◌, ◌<◌, length, drop};
ghost use Rattle.laws.specs.Bits.{pack_n, unpack};
ghost use Rattle.laws.specs.Wrote.{Wrote};
ghost use Rattle.bits.specs.Read.{took, took_text, after_of, moved};
ghost use Rattle.bits.specs.Text7.{text7_of, text7_next, text7_left};

use crate::read;

#[derive(Clone, Copy)]
pub struct Reader<'a> {
    pub bytes: &'a [u8],
    pub at: usize,
}

// Two answers in turn: the second from where the first left the reader.
#[derive(Clone, Copy)]
pub struct Two {
    pub first: Option<(u64, usize)>,
    pub second: Option<(u64, usize)>,
}

impl<'a> Reader<'a> {
    // A reader at the first bit.
    pub fn new(bytes: &'a [u8]) -> Reader<'a>
        ensures { (result.bytes ≡ bytes.entry) × (result.at ≡ 0) }
    {
        Reader { bytes, at: 0 }
    }

    // How many bits there are from the position on.
    pub fn remaining(self) -> usize
        requires { length self.bytes.now < 2 ^ 60 }
        ensures { result ≡ length self.entry.bytes.now * 8 - self.entry.at }
    {
        read::remaining(self.bytes, self.at)
    }

    // The next bit, 0 or 1.
    pub fn bit(&mut self) -> Option<(u64, usize)>
        requires { length self.old.bytes.now < 2 ^ 60 }
        ensures { (result ≡ took 1 (unpack self.old.bytes.now) self.old.at)
            × (self.new ≡ moved self.old result) }
    {
        self.take(1)
    }

    // The next n bits, as a number.
    pub fn take(&mut self, n: usize) -> Option<(u64, usize)>
        requires { (n ≤ 64) × (length self.old.bytes.now < 2 ^ 60) }
        ensures { (result ≡ took n (unpack self.old.bytes.now) self.old.at)
            × (self.new ≡ moved self.old result) }
    {
        let at = self.at;
        let t = read::take(self.bytes, at, n);
        self.at = read::after(t, at);
        t
    }

    // The next n bits as text of 0 and 1, and the number that `vb_val` reads there.
    pub fn text(&mut self, n: usize) -> Option<(u64, usize)>
        requires { (n ≤ 16) × (length self.old.bytes.now < 2 ^ 60) }
        ensures { (result ≡ took_text n (unpack self.old.bytes.now) self.old.at)
            × (self.new ≡ moved self.old result) }
    {
        let at = self.at;
        let t = read::text(self.bytes, at, n);
        self.at = read::after(t, at);
        t
    }

    // The text from the position on, without the pad, written from a place of the output on.
    pub fn text7(self, out: &mut [u8], to: usize) -> Option<usize>
        requires { (length self.bytes.now < 2 ^ 60) × (to < 2 ^ 61) }
        ensures { (result ≡ text7_next to (text7_of (unpack self.entry.bytes.now) self.entry.at))
            × (out.new ≡ text7_left out.old to (text7_of (unpack self.entry.bytes.now) self.entry.at)) }
    {
        read::text7(self.bytes, self.at, out, to)
    }

    // The whole bytes from the position on, written from a place of the output on. The next place.
    pub fn bytes(self, out: &mut [u8], to: usize) -> usize
        requires { (length self.bytes.now < 2 ^ 60) × (to < 2 ^ 61) }
        ensures { Wrote out.old to (pack_n ((length self.entry.bytes.now * 8 - self.entry.at) / 8) (drop self.entry.at (unpack self.entry.bytes.now))) out.new result }
    {
        read::bytes(self.bytes, self.at, out, to)
    }
}

// How many bits a slice has. This function and those below take no reader: who calls them needs no walk by hand.
pub fn bits_in(s: &[u8]) -> usize
    requires { length s.now < 2 ^ 60 }
    ensures { result ≡ length s.now * 8 }
{
    Reader::new(s).remaining()
}

// How many bits there are from a position on.
pub fn remaining_at(s: &[u8], at: usize) -> usize
    requires { length s.now < 2 ^ 60 }
    ensures { result ≡ length s.now * 8 - at }
{
    Reader { bytes: s, at }.remaining()
}

// The n bits from a position on, as a number.
pub fn take_at(s: &[u8], at: usize, n: usize) -> Option<(u64, usize)>
    requires { (n ≤ 64) × (length s.now < 2 ^ 60) }
    ensures { result ≡ took n (unpack s.now) at }
{
    let mut r = Reader { bytes: s, at };
    r.take(n)
}

// The n bits from a position on as text of 0 and 1, and the number that `vb_val` reads there. `take_at` and `text_at` spend a reader on the
// two calls that the source has: one of both would take the choice as a parameter at every call, and is no plainer.
pub fn text_at(s: &[u8], at: usize, n: usize) -> Option<(u64, usize)>
    requires { (n ≤ 16) × (length s.now < 2 ^ 60) }
    ensures { result ≡ took_text n (unpack s.now) at }
{
    let mut r = Reader { bytes: s, at };
    r.text(n)
}

// The bit at a position and the n bits after it, as a number: one reader takes both.
pub fn bit_take_at(s: &[u8], at: usize, n: usize) -> Two
    requires { (n ≤ 64) × (length s.now < 2 ^ 60) }
    ensures { (result.first ≡ took 1 (unpack s.now) at) × (result.second ≡ took n (unpack s.now) (after_of result.first at)) }
{
    let mut r = Reader { bytes: s, at };
    let first = r.bit();
    let second = r.take(n);
    Two { first, second }
}

// The bit at a position and the n bits after it as text of 0 and 1, and the number that `vb_val` reads there: one reader takes both.
pub fn bit_text_at(s: &[u8], at: usize, n: usize) -> Two
    requires { (n ≤ 16) × (length s.now < 2 ^ 60) }
    ensures { (result.first ≡ took 1 (unpack s.now) at) × (result.second ≡ took_text n (unpack s.now) (after_of result.first at)) }
{
    let mut r = Reader { bytes: s, at };
    let first = r.bit();
    let second = r.text(n);
    Two { first, second }
}

// The text from a position on, without the pad, written from a place of the output on.
pub fn text7_at(s: &[u8], at: usize, out: &mut [u8], to: usize) -> Option<usize>
    requires { (length s.now < 2 ^ 60) × (to < 2 ^ 61) }
    ensures { (result ≡ text7_next to (text7_of (unpack s.now) at))
        × (out.new ≡ text7_left out.old to (text7_of (unpack s.now) at)) }
{
    Reader { bytes: s, at }.text7(out, to)
}

// The whole bytes from a position on, written from a place of the output on. The next place.
pub fn bytes_at(s: &[u8], at: usize, out: &mut [u8], to: usize) -> usize
    requires { (length s.now < 2 ^ 60) × (to < 2 ^ 61) }
    ensures { Wrote out.old to (pack_n ((length s.now * 8 - at) / 8) (drop at (unpack s.now))) out.new result }
{
    Reader { bytes: s, at }.bytes(out, to)
}
