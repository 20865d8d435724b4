// Words: a byte as a word, a power of two, and several bytes of a slice as one number.
ghost use Rattle.std.specs.Prelude.{◌≡◌, ◌+◌, ◌*◌, ◌^◌, ◌≤◌, ◌<◌, length, take, drop};
ghost use Rattle.laws.specs.Bits.{bits_of, unpack};

// A byte as a word, for the crate `bits`, whose proofs name it.
pub fn wide(x: u8) -> u64
    ensures { result ≡ x }
{
    u64::from(x)
}

// 1 and k zeros in binary.
pub fn power(k: usize) -> u64
    requires { k < 64 }
    ensures { result ≡ 2 ^ k }
{
    1u64 << k
}

// The byte i.
pub fn one(s: &[u8], i: usize) -> u64
    requires { i < length s.now }
    ensures { (bits_of 8 result ≡ take 8 (drop (i * 8) (unpack s.now))) × (result < 2 ^ 8) }
{
    u64::from(s[i])
}

// Two bytes from byte i on, as one number.
fn two(s: &[u8], i: usize) -> u64
    requires { i + 2 ≤ length s.now }
    ensures { (bits_of 16 result ≡ take 16 (drop (i * 8) (unpack s.now))) × (result < 2 ^ 16) }
{
    one(s, i) * 256 + one(s, i + 1)
}

// Four.
fn four(s: &[u8], i: usize) -> u64
    requires { i + 4 ≤ length s.now }
    ensures { (bits_of 32 result ≡ take 32 (drop (i * 8) (unpack s.now))) × (result < 2 ^ 32) }
{
    two(s, i) * 0x1_0000 + two(s, i + 2)
}

// Eight.
pub fn word(s: &[u8], i: usize) -> u64
    requires { i + 8 ≤ length s.now }
    ensures { bits_of 64 result ≡ take 64 (drop (i * 8) (unpack s.now)) }
{
    four(s, i) * 0x1_0000_0000 + four(s, i + 4)
}
