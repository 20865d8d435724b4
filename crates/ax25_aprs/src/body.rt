// Positions with a time: that arm of `aprs_encode` and of `aprs_decode` of the source.
ghost use Rattle.std.specs.Prelude.{◌^◌, ◌<◌, length, drop};
ghost use Rattle.laws.specs.Bits.{unpack};
ghost use Rattle.ax25_aprs.specs.Body.{timestamped_bits, read_timestamped};
ghost use Rattle.ax25_aprs.specs.Put.{Does, Reads};

use crate::{latlon, number};
use refusals::Refusal;

// Six digits, a byte that is skipped, and then a position.
pub fn timestamped_encode(s: &[u8], out: &mut [u8], at: usize) -> Result<usize, Refusal>
    requires { (length s.now < 2 ^ 56) × (at < 2 ^ 59) }
    ensures { Does (timestamped_bits s.now) (unpack out.old) at (unpack out.new) result }
{
    if s.len() < 7 {
        return Err(Refusal::Short);
    }
    let p = bits_write::push_bfi(out, at, bits::vb_val(&s[0..6]), 20);
    latlon::latlon_encode(&s[7..], out, p)
}

// A position with a time, with its type byte; where there is none, nothing is said of the output.
pub fn timestamped_decode(s: &[u8], at: usize, out: &mut [u8], to: usize) -> Option<usize>
    requires { (length s.now < 2 ^ 55) × (at < 2 ^ 59) × (to < 2 ^ 54) }
    ensures { Reads (read_timestamped (drop at (unpack s.now))) out.old to out.new result }
{
    let (time, next) = bits::reader::take_at(s, at, 20)?;
    let p = bits_write::byte(out, to, b'@');
    let q = number::put_padded(out, p, 6, time);
    let after = bits_write::byte(out, q, b'h');
    latlon::latlon_decode(s, next, out, after)
}
