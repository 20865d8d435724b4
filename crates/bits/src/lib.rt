// Bits, most significant first, from packed bytes, and the number at the front of a text: bits.rs of the source but for its writers.
#![tactic(auto)]

pub mod read;
pub mod reader;

ghost use Rattle.std.specs.Prelude.{◌≡◌, ◌+◌, ◌*◌, ◌<◌, min};
ghost use Rattle.bits.specs.Val.{stops, next_val, val_of};

// a * 10 + d, or the largest word.
fn saturating(a: u64, d: u64) -> u64
    requires { d < 256 }
    ensures { result ≡ min (a * 10 + d) 0xffff_ffff_ffff_ffff }
{
    a.saturating_mul(10).saturating_add(d)
}

// Neither a blank nor a digit.
fn is_stop(c: u8) -> bool
    ensures { result ≡ stops c }
{
    c != b' ' && !c.is_ascii_digit()
}

// The number with one byte more.
fn next_val(a: u64, c: u8) -> u64
    ensures { result ≡ next_val a c }
{
    if c == b' ' {
        return a;
    }
    if c < b'0' {
        return saturating(a, 0);
    }
    saturating(a, c as u64 - 48)
}

// The number at the front of a text, with blanks skipped.
pub fn vb_val(s: &[u8]) -> u64
    ensures { result ≡ val_of s.now }
{
    let mut a = 0;
    for &c in s {
        if is_stop(c) {
            return a;
        }
        a = next_val(a, c);
    }
    a
}
