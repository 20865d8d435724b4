// The alias whose calls the digipeaters are: the search over ALIASES of the source.
ghost use Rattle.std.specs.Prelude.{◌≡◌, [], ◌∷◌, ◌++◌, map, ◌+◌, ◌*◌, ◌^◌, ◌≤◌, ◌<◌, length, get_or};
ghost use Rattle.laws.specs.Text.{ascii, same};
ghost use Rattle.ax25_token.specs.Call.{text_of, empty, appended};
ghost use Rattle.ax25_address.specs.Address.{addr_call};
ghost use Rattle.ax25_address.specs.Parse.{aliases, alias_calls, same_all, alias_of, fields_of};
ghost use Rattle.ax25_address.specs.Record.{alias_number};

use crate::address::addr_call;
use ax25_token::{Call, push};

// The name of an alias, counted from 0.
#[tactic(auto, unfolding(crate::specs::Parse::aliases, ax25_token::specs::Call::appended))]
fn alias_name(i: usize) -> Call
    requires { i < 5 }
    ensures { (result ≡ appended empty (get_or aliases i [])) × (result.len ≤ 4) }
{
    match i {
        0 => Call {
            bytes: *b"WIDE            ",
            len: 4,
        },
        1 => Call {
            bytes: *b"PNW             ",
            len: 3,
        },
        2 => Call {
            bytes: *b"MW              ",
            len: 2,
        },
        3 => Call {
            bytes: *b"OR              ",
            len: 2,
        },
        _ => Call {
            bytes: *b"WA              ",
            len: 2,
        },
    }
}

// The k-th call of an alias: its name, the digit k and "-1".
pub fn alias_call(i: usize, k: usize) -> Call
    requires { (i < 5) × (k ≤ 9) }
    ensures { (text_of result ≡ get_or aliases i [] ++ ((48 + k) ∷ ascii "-1")) × (result.len ≤ 7) × (result ≡ appended empty (text_of result)) }
{
    let c = alias_name(i);
    let d = push(c, (48 + k) as u8);
    push(push(d, b'-'), b'1')
}

// The same text. A call has blanks after its text, so that whole arrays are compared: a comparison of the texts, whose lengths the
// compiler does not know, took the search a quarter longer.
fn same_call(c: Call, d: Call) -> bool
    requires { (c ≡ appended empty (text_of c)) × (d ≡ appended empty (text_of d)) }
    ensures { result ≡ same (text_of c) (text_of d) }
{
    c.len == d.len && c.bytes == d.bytes
}

// The field's call is the k-th call of an alias.
fn is_alias(f: &[u8], l: usize, i: usize, k: usize) -> bool
    requires { (l < length f.now) × (l ≤ 7) × (i < 5) × (k ≤ 9) }
    ensures { result ≡ same (addr_call l f.now) (get_or aliases i [] ++ ((48 + k) ∷ ascii "-1")) }
{
    same_call(addr_call(f, l, false), alias_call(i, k))
}

// The calls of n fields are those of an alias, from its k-th on. It calls itself for the fields that follow: a loop would count the place of
// each field besides, and is no plainer.
fn are_alias(f: &[u8], l: usize, n: usize, i: usize, k: usize) -> bool
    requires { (k + n ≤ 9) × (l ≤ 7) × (i < 5) × (n * (l + 1) ≤ length f.now) × (length f.now < 2 ^ 60) }
    ensures { result ≡ same_all (map (addr_call l) (fields_of l n f.now)) (alias_calls (get_or aliases i []) k n) }
{
    n == 0 || is_alias(f, l, i, k) && are_alias(&f[l + 1..], l, n - 1, i, k + 1)
}

// The calls of n fields, of which c is the first, are those of an alias.
fn is_path(c: Call, f: &[u8], l: usize, n: usize, i: usize) -> bool
    requires c_value { (text_of c ≡ addr_call l f.now) × (c ≡ appended empty (text_of c)) }
    requires n_nonzero { (0 < n) × (n ≤ 8) × (l ≤ 7) × (i < 5) × (n * (l + 1) ≤ length f.now) × (length f.now < 2 ^ 60) }
    ensures { result ≡ same_all (map (addr_call l) (fields_of l n f.now)) (alias_calls (get_or aliases i []) 1 n) }
{
    same_call(c, alias_call(i, 1)) && are_alias(&f[l + 1..], l, n - 1, i, 2)
}

// The alias whose calls the n digipeaters are, counted from 0. f starts at the first of them.
pub fn alias(f: &[u8], l: usize, n: usize) -> Option<usize>
    requires { (n ≤ 8) × (l ≤ 7) × (n * (l + 1) ≤ length f.now) × (length f.now < 2 ^ 60) }
    ensures { (alias_number result ≡ alias_of (map (addr_call l) (fields_of l n f.now))) × (alias_number result ≤ 5) }
{
    if n == 0 {
        return None;
    }
    let first = addr_call(f, l, false);
    for i in 0..5 {
        if is_path(first, f, l, n, i) {
            return Some(i);
        }
    }
    None
}
