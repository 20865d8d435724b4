// Fields of bits as numbers.
ghost use Rattle.std.specs.Prelude.{◌≡◌, false, ◌-◌, ◌*◌, ◌^◌, ◌≤◌, ◌<◌, length, get_or, take, drop};
ghost use Rattle.laws.specs.Bits.{value_of, unpack};

// The n bits from a position on, as a number.
pub fn value(s: &[u8], at: usize, n: usize) -> u64
    requires { (n ≤ 64) × (n ≤ length s.now * 8 - at) × (length s.now < 2 ^ 60) }
    ensures { result ≡ value_of (take n (drop at (unpack s.now))) }
{
    let (v, _) = bits::reader::take_at(s, at, n).unwrap();
    v
}

// The bit at a position.
pub fn bit(s: &[u8], at: usize) -> bool
    requires { (at < length s.now * 8) × (length s.now < 2 ^ 60) }
    ensures { result ≡ get_or (unpack s.now) at false }
{
    value(s, at, 1) == 1
}
