// Decimal numbers, read and written.
ghost use Rattle.std.specs.Prelude.{◌≡◌, [], ◌∷◌, ◌<◌, ◌^◌};
ghost use Rattle.laws.specs.Wrote.{Wrote};
ghost use Rattle.texts.specs.Number.{numeral_of, number_from, decimal_of};

use bits_write::byte;

// A number with one more digit after it; none where the byte is no digit, and where it takes more than 64 bits.
fn with_digit(v: u64, c: u8) -> Option<u64>
    ensures { result ≡ number_from v (c ∷ []) }
{
    if !c.is_ascii_digit() {
        return None;
    }
    v.checked_mul(10)?.checked_add(u64::from(c - b'0'))
}

// The number that a text spells: none where there is another byte, no byte, or more than 64 bits.
pub fn decimal(text: &[u8]) -> Option<u64>
    ensures { result ≡ decimal_of text.now }
{
    if text.is_empty() {
        return None;
    }
    let mut v = 0;
    for c in text {
        v = with_digit(v, *c)?;
    }
    Some(v)
}

// The digits of a number, the fewest that hold it. The next place.
pub fn put_number(out: &mut [u8], at: usize, n: u64) -> usize
    requires { at < 2 ^ 61 }
    ensures { Wrote out.old at (numeral_of n) out.new result }
{
    if n < 10 {
        return byte(out, at, b'0' + n as u8);
    }
    let p = put_number(out, at, n / 10);
    byte(out, p, b'0' + (n % 10) as u8)
}
