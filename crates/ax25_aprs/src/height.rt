// An altitude: four bytes that are a number, with white space around it and a plus sign before it.
ghost use Rattle.std.specs.Prelude.{◌≡◌};
ghost use Rattle.ax25_aprs.specs.Text.{all_digits, unsigned, no_plus, altitude};

use ax25_address::trim::{end, front};

// Nothing but digits.
fn all_digits(s: &[u8]) -> bool
    ensures { result ≡ all_digits s.now }
{
    s.iter().all(|c| c.is_ascii_digit())
}

// One or more digits as a number.
#[tactic(auto, using(crate::proofs::HeightLaws::unsigned_none, crate::proofs::HeightLaws::unsigned_no, crate::proofs::HeightLaws::unsigned_yes))]
fn digits(s: &[u8]) -> Option<u64>
    ensures { result ≡ unsigned s.now }
{
    if s.is_empty() || !all_digits(s) {
        return None;
    }
    Some(bits::vb_val(s))
}

// The same after a plus sign, if there is one.
#[tactic(auto, using(crate::proofs::HeightLaws::plus_yes, crate::proofs::HeightLaws::plus_no))]
fn signed(s: &[u8]) -> Option<u64>
    ensures { result ≡ unsigned (no_plus s.now) }
{
    match s {
        [b'+', rest @ ..] => digits(rest),
        _ => digits(s),
    }
}

// The number that an altitude's bytes are.
pub fn read(s: &[u8]) -> Option<u64>
    ensures { result ≡ altitude s.now }
{
    let a = front(s, false);
    let e = a + end(&s[a..], false);
    signed(&s[a..e])
}
