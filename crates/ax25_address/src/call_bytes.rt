// The address field of a call: `call_bytes` of the source.
ghost use Rattle.std.specs.Prelude.{◌≡◌, map, ◌+◌, ◌^◌, ◌≤◌, ◌<◌, length, get_or, set};
ghost use Rattle.std.specs.Int.Bits.{bit_or};
ghost use Rattle.laws.specs.Text.{upper};
ghost use Rattle.laws.specs.Wrote.{Wrote};
ghost use Rattle.ax25_token.specs.Call.{text_of};
ghost use Rattle.ax25_token.specs.Token.{base_of, behind};
ghost use Rattle.ax25_address.specs.Address.{double, cut_to, ssid_of, call_bytes};

use ax25_token::Call;
use ax25_token::encode::{cased, hyphen};
use bits_write::byte;

// A byte of the letters of a field: a capital, or a blank after the last, shifted.
fn letter_byte(b: &[u8], i: usize, l: usize) -> u8
    requires { i < l }
    ensures { result ≡ get_or (map double (cut_to l (map upper b.now))) i 0 }
{
    if i < b.len() {
        cased(b[i], true) % 128 * 2
    } else {
        b' ' * 2
    }
}

// The letters of a field: capitals, blanks up to l, shifted. The next place.
fn put_base(b: &[u8], l: usize, out: &mut [u8], to: usize) -> usize
    requires { (l ≤ 7) × (to < 2 ^ 60) }
    ensures wrote { Wrote out.old to (map double (cut_to l (map upper b.now))) out.new result }
    ensures upper_bound { result ≤ to + 7 }
{
    let mut next = to;
    for i in 0..l {
        next = byte(out, next, letter_byte(b, i, l));
    }
    next
}

// The number of an SSID: four letters have their own.
#[tactic(auto, using(crate::proofs::CallField::ssid_one, crate::proofs::CallField::ssid_other), unfolding(laws::specs::Pick::pick))]
fn ssid_of(s: &[u8]) -> u64
    ensures { result ≡ ssid_of s.now }
{
    match s {
        [b'T'] => 16,
        [b'R'] => 17,
        [b'X'] => 18,
        [b'L'] => 19,
        _ => bits::vb_val(s),
    }
}

// The SSID after a hyphen at k, shifted; 0 where there is none.
fn ssid_byte(c: &[u8], k: usize) -> u8
    requires { k ≡ length (base_of c.now) }
    ensures { result ≡ double (ssid_of (behind c.now)) }
{
    if c.len() <= k {
        return 0;
    }
    (ssid_of(&c[k + 1..]) % 128 * 2) as u8
}

// The address field of a call's text, with marks in its SSID byte. The next place.
fn text_bytes(c: &[u8], l: usize, mark: u8, out: &mut [u8], to: usize) -> usize
    requires { (l ≤ 7) × (to < 2 ^ 60) }
    ensures { Wrote out.old to (set (call_bytes l c.now) l (bit_or (get_or (call_bytes l c.now) l 0) mark)) out.new result }
{
    let k = hyphen(c);
    let p = put_base(&c[0..k], l, out, to);
    byte(out, p, 0x60 | ssid_byte(c, k) | mark)
}

// The address field of a call: its letters shifted, blanks up to l, and the SSID byte, with the marks set in it. The next place.
pub fn call_bytes(c: Call, l: usize, mark: u8, out: &mut [u8], to: usize) -> usize
    requires { (l ≤ 7) × (to < 2 ^ 60) }
    ensures { Wrote out.old to (set (call_bytes l (text_of c)) l (bit_or (get_or (call_bytes l (text_of c)) l 0) mark)) out.new result }
{
    text_bytes(&c.bytes[0..c.len], l, mark, out, to)
}
