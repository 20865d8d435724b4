// Positions after their type byte: `latlon_encode` and `latlon_decode` of the source.
ghost use Rattle.std.specs.Prelude.{◌≡◌, true, ◌∷◌, ◌++◌, ◌+◌, ◌/◌, ◌^◌, ◌≤◌, ◌<◌, length, get_or, take, drop, MatchOption};
ghost use Rattle.laws.specs.Bits.{unpack};
ghost use Rattle.laws.specs.Digits.{digits};
ghost use Rattle.laws.specs.Wrote.{Wrote};
ghost use Rattle.bits.specs.Val.{val_of};
ghost use Rattle.ax25_aprs.specs.LatLon.{side_bits, table_code, table_bits, lat_bits, lon_bits, latlon_bits, tables, dotted, side, read_latlon};
ghost use Rattle.ax25_aprs.specs.Place.{table_of, half_text, place_text};
ghost use Rattle.ax25_aprs.specs.Put.{Does, Reads};
ghost use Rattle.ax25_aprs.specs.Text.{padded};

use crate::place::{Place, place_at};
use crate::{number, text};
use refusals::Refusal;

const SYMBOL_TABLES: [u8; 8] = *b"/\\IRVTDS";

// The six digits of DDMM.mm as a number.
fn lat(s: &[u8]) -> u64
    requires { 19 ≤ length s.now }
    ensures { result ≡ val_of (take 4 s.now ++ take 2 (drop 5 s.now)) }
{
    let d = [s[0], s[1], s[2], s[3], s[5], s[6]];
    bits::vb_val(&d)
}

// The seven digits of DDDMM.mm as a number. It has places of its own: one function for both would take each of them as a parameter, and is no
// plainer.
fn lon(s: &[u8]) -> u64
    requires { 19 ≤ length s.now }
    ensures { result ≡ val_of (take 5 (drop 9 s.now) ++ take 2 (drop 15 s.now)) }
{
    let d = [s[9], s[10], s[11], s[12], s[13], s[15], s[16]];
    bits::vb_val(&d)
}

// The bit of one of two letters; of any other, none. The next position.
#[tactic(auto, unfolding(crate::specs::LatLon::side_bits, laws::specs::Pick::pick))]
fn put_side(out: &mut [u8], at: usize, c: u8, y: u8, n: u8) -> usize
    requires { at < 2 ^ 62 }
    ensures { Wrote (unpack out.old) at (side_bits y n c) (unpack out.new) result }
{
    if c == y {
        bits_write::bit(out, at, true)
    } else if c == n {
        bits_write::bit(out, at, false)
    } else {
        at
    }
}

// The place of a symbol table among SYMBOL_TABLES, where the byte is in SYMBOL_TABLES_CODED. The source has both tables, one for each direction.
#[tactic(auto, unfolding(crate::specs::LatLon::table_code, laws::specs::Pick::pick))]
fn table_code(c: u8) -> Option<u64>
    ensures { MatchOption result (table_code c ≡ 8) (λ k. (table_code c ≡ k) × (k < 8)) }
{
    match c {
        b'/' => Some(0),
        b'\\' => Some(1),
        b'I' => Some(2),
        b'R' => Some(3),
        b'V' => Some(4),
        b'D' => Some(6),
        b'S' => Some(7),
        _ => None,
    }
}

// A symbol table: by its place, or as a byte of seven bits. The next position.
fn put_table(out: &mut [u8], at: usize, c: u8) -> usize
    requires { at + 1 < 2 ^ 62 }
    ensures { Wrote (unpack out.old) at (table_bits c) (unpack out.new) result }
{
    match table_code(c) {
        Some(code) => {
            let next = bits_write::bit(out, at, true);
            bits_write::push(out, next, code, 3)
        }
        None => {
            let next = bits_write::bit(out, at, false);
            bits_write::push_bfi(out, next, u64::from(c), 7)
        }
    }
}

// Latitude, N or S, table. The next position.
fn put_lat(s: &[u8], out: &mut [u8], at: usize) -> usize
    requires { (19 ≤ length s.now) × (at < 2 ^ 61) }
    ensures { Wrote (unpack out.old) at (lat_bits s.now) (unpack out.new) result }
{
    let p = bits_write::push_bfi(out, at, lat(s), 20);
    let q = put_side(out, p, s[7], b'N', b'S');
    put_table(out, q, s[8])
}

// Longitude, W or E, symbol. The next position. It has widths and places of its own, as `lon` has.
fn put_lon(s: &[u8], out: &mut [u8], at: usize) -> usize
    requires { (19 ≤ length s.now) × (at < 2 ^ 61) }
    ensures { Wrote (unpack out.old) at (lon_bits s.now) (unpack out.new) result }
{
    let p = bits_write::push_bfi(out, at, lon(s), 21);
    let q = put_side(out, p, s[17], b'W', b'E');
    bits_write::push_bfi(out, q, u64::from(s[18]), 7)
}

// A position from a bit position on; on a refusal nothing is said of the output.
pub fn latlon_encode(s: &[u8], out: &mut [u8], at: usize) -> Result<usize, Refusal>
    requires { (length s.now < 2 ^ 56) × (at < 2 ^ 60) }
    ensures { Does (latlon_bits s.now) (unpack out.old) at (unpack out.new) result }
{
    if s.len() < 19 {
        return Err(Refusal::Short);
    }
    let p = put_lat(s, out, at);
    let q = put_lon(s, out, p);
    text::text_encode(&s[19..], true, out, q)
}

// k digits, a dot, and the m low digits. The next place.
fn put_around(out: &mut [u8], to: usize, k: usize, m: usize, v: u64) -> usize
    requires { (k ≤ 8) × (m < 8) × (to < 2 ^ 60) }
    ensures { Wrote out.old to (digits k (v / 10 ^ m) ++ 46 ∷ digits m v) out.new result }
{
    let p = number::put_digits(out, to, k, v / number::ten(m));
    let q = bits_write::byte(out, p, b'.');
    number::put_digits(out, q, m, v)
}

// v in n digits, or in one more, with a dot after the first k. The next place.
fn put_dotted(out: &mut [u8], to: usize, k: usize, n: usize, v: u64) -> usize
    requires { (k ≤ n) × (n < 8) × (0 < k) × (to < 2 ^ 60) }
    ensures { Wrote out.old to (dotted k (padded n v)) out.new result }
{
    let m = if v < number::ten(n) { n - k } else { n + 1 - k };
    put_around(out, to, k, m, v)
}

// One of two letters, by a bit.
#[tactic(auto, unfolding(crate::specs::LatLon::side, laws::specs::Pick::pick))]
fn side_of(x: bool, y: u8, n: u8) -> u8
    ensures { result ≡ side y n x }
{
    if x { y } else { n }
}

// A symbol table by its place.
#[tactic(auto, unfolding(crate::specs::LatLon::tables))]
fn table_byte(k: u64) -> u8
    requires { k < 8 }
    ensures { result ≡ get_or tables k 0 }
{
    SYMBOL_TABLES[k as usize]
}

// A symbol table: by its place where the bit before it says so, else the byte itself.
#[tactic(auto, unfolding(crate::specs::Place::table_of, laws::specs::Pick::pick))]
fn table_of(listed: bool, table: u64) -> u8
    requires { (table < 128) × (listed ≡ true → table < 8) }
    ensures { result ≡ table_of listed table }
{
    if listed {
        table_byte(table)
    } else {
        table as u8
    }
}

// A number with a dot, a letter and a byte. The next place.
fn put_half(k: usize, n: usize, v: u64, letter: u8, last: u8, out: &mut [u8], to: usize) -> usize
    requires { (k ≤ n) × (n < 8) × (0 < k) × (to < 2 ^ 59) }
    ensures { Wrote out.old to (half_text k n v letter last) out.new result }
{
    let p = put_dotted(out, to, k, n, v);
    let q = bits_write::byte(out, p, letter);
    bits_write::byte(out, q, last)
}

// The text of a position's numbers. The next place.
fn put_place(x: Place, out: &mut [u8], to: usize) -> usize
    requires { (x.table < 128) × (x.listed ≡ true → x.table < 8) × (x.symbol < 128) × (to < 2 ^ 58) }
    ensures { Wrote out.old to (place_text x) out.new result }
{
    let north = side_of(x.north, b'N', b'S');
    let table = table_of(x.listed, x.table);
    let p = put_half(4, 6, x.lat, north, table, out, to);
    let west = side_of(x.west, b'W', b'E');
    put_half(5, 7, x.lon, west, x.symbol as u8, out, p)
}

// The position that stands from a bit on, written from a place of the output on; where there is none, nothing is said of the output.
pub fn latlon_decode(s: &[u8], at: usize, out: &mut [u8], to: usize) -> Option<usize>
    requires { (length s.now < 2 ^ 55) × (at < 2 ^ 60) × (to < 2 ^ 55) }
    ensures { Reads (read_latlon (drop at (unpack s.now))) out.old to out.new result }
{
    let x = place_at(s, at)?;
    let p = put_place(x, out, to);
    Some(text::text_decode(s, x.next, true, out, p))
}
