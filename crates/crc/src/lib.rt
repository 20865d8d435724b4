// CRC-16/GENIBUS, eight bytes a step, and long inputs 128 at a time. The definition goes bit by bit.
#![tactic(auto)]

mod table;

ghost use Rattle.std.specs.Prelude.{◌≡◌, ◌+◌, ◌*◌, ◌/◌, ◌%◌, ◌≤◌, ◌<◌, length, get_or, take, drop};
ghost use Rattle.std.specs.Int.Bits.{bit_xor};
ghost use Rattle.crc.specs.Crc.{start, crc_bit, crc_byte, crc_from, crc_of, crc_bits};
ghost use Rattle.crc.specs.Rows.{pair_of};
ghost use Rattle.crc.specs.Fold.{Window, held};

use crate::table::entry;

// One step of the division.
fn crc_bit(c: u16) -> u16
    ensures { result ≡ crc_bit c }
{
    if 0x8000 <= c {
        ((c - 0x8000) * 2) ^ 0x1021
    } else {
        c * 2
    }
}

// One byte more.
fn crc_byte(c: u16, b: u8) -> u16
    ensures { result ≡ crc_byte c b }
{
    let mut x = c ^ (u16::from(b) * 256);
    for _ in 0..8u8 {
        x = crc_bit(x);
    }
    x
}

// Two bytes, with k bytes of zeros after them. They are indices here: with bytes the compiler takes longer over the two that are joined with c.
fn crc_pair(k: usize, a: usize, b: usize) -> u16
    requires { (k < 7) × (a < 256) × (b < 256) }
    ensures { result ≡ pair_of k a b }
{
    entry(k + 1, a) ^ entry(k, b)
}

// Eight bytes more. Those that do not wait for c come first; the first two are joined with c.
fn crc_eight(c: u16, eight: &[u8]) -> u16
    requires { length eight.now ≡ 8 }
    ensures { result ≡ crc_from c eight.now }
{
    let six = crc_pair(4, usize::from(eight[2]), usize::from(eight[3]))
        ^ crc_pair(2, usize::from(eight[4]), usize::from(eight[5]))
        ^ crc_pair(0, usize::from(eight[6]), usize::from(eight[7]));
    let high = usize::from(c) / 256 ^ usize::from(eight[0]);
    let low = usize::from(c) % 256 ^ usize::from(eight[1]);
    six ^ crc_pair(6, high, low)
}

// All whole groups of eight bytes, after what came before them. It is put in place at each call: a call costs short inputs more than their groups do.
#[inline(always)]
fn crc_rest(before: u16, data: &[u8]) -> u16
    ensures { result ≡ crc_from before (take (length «data».now / 8 * 8) «data».now) }
{
    let mut c = before;
    for eight in data.chunks_exact(8) {
        c = crc_eight(c, eight);
    }
    c
}

// What a window stands for: three numbers on one way through it.
fn crc_window(w: &[u8]) -> u16
    requires { length w.now ≡ 128 }
    ensures { result ≡ held w.now }
{
    let first = crc_rest(0, &w[..40]);
    let second = crc_rest(first, &w[40..96]);
    let third = crc_rest(second, &w[96..]);
    first ^ second ^ third
}

// 128 bytes more: each takes the place of the oldest, and is joined with those 128, 88 and 32 before it. There are three loops, each with its own places, since the compiler makes each one of 16 bytes.
fn fold(old: [u8; 128], block: &[u8]) -> [u8; 128]
    requires { (length block.now ≡ 128) × Window old }
    ensures { (held result ≡ crc_from (held old) block.now) × Window result }
{
    let mut w = old;
    for j in 0..32 {
        w[j] = block[j] ^ w[j] ^ w[j + 40] ^ w[j + 96];
    }
    for j in 32..88 {
        w[j] = block[j] ^ w[j] ^ w[j + 40] ^ w[j - 32];
    }
    for j in 88..128 {
        w[j] = block[j] ^ w[j] ^ w[j - 88] ^ w[j - 32];
    }
    w
}

// All whole groups of 128 bytes.
fn crc_folded(data: &[u8]) -> u16
    ensures { result ≡ crc_from start (take (length «data».now / 128 * 128) «data».now) }
{
    let mut w = [0u8; 128];
    w[0] = 255;
    w[1] = 255;
    for block in data.chunks_exact(128) {
        w = fold(w, block);
    }
    crc_window(&w)
}

// The bytes after the last whole group of eight, and the complement.
#[inline(always)]
fn crc_end(before: u16, data: &[u8]) -> u16
    requires { before ≡ crc_from start (take (length «data».now / 8 * 8) «data».now) }
    ensures { result ≡ crc_of «data».now }
{
    let mut c = before;
    for i in data.len() / 8 * 8..data.len() {
        c = crc_byte(c, data[i]);
    }
    c ^ 0xFFFF
}

// The CRC of many bytes, by a window. Nothing follows its call, so that short inputs save no registers for it.
#[inline(never)]
fn crc_long(data: &[u8]) -> u16
    ensures { result ≡ crc_of «data».now }
{
    let c = crc_folded(data);
    crc_end(crc_rest(c, &data[data.len() / 128 * 128..]), data)
}

// The CRC of any bytes, by the way that is faster for so many.
pub fn crc16_genibus(data: &[u8]) -> u16
    ensures { result ≡ crc_of «data».now }
{
    if 256 <= data.len() {
        return crc_long(data);
    }
    crc_end(crc_rest(0xFFFF, data), data)
}

// The CRC's high byte under a mask.
pub fn crc_bits(buf: &[u8], crc_mask: u8) -> u8
    ensures { result ≡ crc_bits buf.now crc_mask }
{
    let high = (crc16_genibus(buf) / 256) as u8;
    high & crc_mask
}
