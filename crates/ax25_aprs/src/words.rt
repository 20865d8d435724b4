// DICTIONARY, the words of position text and messages.
ghost use Rattle.std.specs.Prelude.{◌≡◌, ◌^◌, ◌≤◌, ◌<◌, length, drop};
ghost use Rattle.laws.specs.Pick.{pick};
ghost use Rattle.laws.specs.Text.{starts};
ghost use Rattle.laws.specs.Wrote.{Wrote};
ghost use Rattle.ax25_aprs.specs.Words.{word, Spells};
ghost use Rattle.ax25_aprs.specs.Openings.{first_letter, second_letter, may_open, has_mark};

// The marks of the words' first letters and of their second letters: bit k is set for a letter whose low six bits are k.
const FIRSTS: u64 = 0x0001_8002_0041_0192;

const SECONDS: u64 = 0x0000_020A_0001_0042;

// The word of a code: DICTIONARY of the source.
#[tactic(auto, unfolding(crate::specs::Words::word, crate::specs::Words::words))]
pub fn word(n: usize) -> &'static [u8]
    requires { (1 ≤ n) × (n ≤ 9) }
    ensures { result.now ≡ word n }
{
    match n {
        1 => b"/A=00",
        2 => b"VARA",
        3 => b"PinPoint",
        4 => b"HF ",
        5 => b"ack",
        6 => b"APRS",
        7 => b"ping{",
        8 => b"Digi",
        _ => b"Gate",
    }
}

// n where s starts with word n. Where n is known the compiler compares with that word alone.
fn word_if(s: &[u8], n: usize) -> Option<usize>
    requires { (1 ≤ n) × (n ≤ 9) }
    ensures { result ≡ pick (starts (word n) s.now) (Some n) None }
{
    if s.starts_with(word(n)) {
        Some(n)
    } else {
        None
    }
}

// The first word that s starts with. No two words start with the same letter, so one comparison decides.
pub fn word_at(s: &[u8]) -> Option<usize>
    ensures { Spells s.now result }
{
    match s.first()? {
        b'/' => word_if(s, 1),
        b'V' => word_if(s, 2),
        b'P' => word_if(s, 3),
        b'H' => word_if(s, 4),
        b'a' => word_if(s, 5),
        b'A' => word_if(s, 6),
        b'p' => word_if(s, 7),
        b'D' => word_if(s, 8),
        b'G' => word_if(s, 9),
        _ => None,
    }
}

// x is the first letter of some word. There is no branch, so that the compiler tests many bytes at once.
#[tactic(auto, unfolding(crate::specs::Openings::first_letter))]
fn is_first(x: u8) -> bool
    ensures { result ≡ first_letter x }
{
    (x == b'/')
        | (x == b'V')
        | (x == b'P')
        | (x == b'H')
        | (x == b'a')
        | (x == b'A')
        | (x == b'p')
        | (x == b'D')
        | (x == b'G')
}

// x is the second letter of some word.
#[tactic(auto, unfolding(crate::specs::Openings::second_letter))]
fn is_second(x: u8) -> bool
    ensures { result ≡ second_letter x }
{
    (x == b'A') | (x == b'i') | (x == b'F') | (x == b'c') | (x == b'P') | (x == b'a')
}

// A word may start with x and y: x is the first letter of some word, and y the second letter of some word.
#[tactic(auto, unfolding(crate::specs::Openings::may_open))]
pub fn may_open(x: u8, y: u8) -> bool
    ensures { result ≡ may_open x y }
{
    is_first(x) & is_second(y)
}

// x has a mark in m: the bit of its low six bits is set.
#[tactic(auto, unfolding(crate::specs::Openings::has_mark))]
fn has_mark(m: u64, x: u8) -> bool
    ensures { result ≡ has_mark m x }
{
    (m >> (x % 64)) % 2 == 1
}

// The first word that s has from place i on. At most places the marks of two bytes tell that there is none: both are tested, with one
// branch.
pub fn word_from(s: &[u8], i: usize) -> Option<usize>
    requires { i < length s.now }
    ensures { Spells (drop i s.now) result }
{
    if s.len() <= i + 1 {
        return None;
    }
    if has_mark(FIRSTS, s[i]) & has_mark(SECONDS, s[i + 1]) {
        return word_at(&s[i..]);
    }
    None
}

// Word n at a place. The next place. Letter by letter: a call to copy so few takes longer.
pub fn put_word(out: &mut [u8], at: usize, n: usize) -> usize
    requires { (1 ≤ n) × (n ≤ 9) × (at < 2 ^ 61) }
    ensures { Wrote out.old at (word n) out.new result }
{
    let mut next = at;
    for &letter in word(n) {
        next = bits_write::byte(out, next, letter);
    }
    next
}
