// White space around a text, and the text without it as a call.
ghost use Rattle.std.specs.Prelude.{◌≡◌, map, ◌≤◌, length, take, drop};
ghost use Rattle.laws.specs.Text.{upper, trim_front, trim_end, trim};
ghost use Rattle.ax25_token.specs.Call.{text_of, empty, appended};
ghost use Rattle.ax25_token.specs.Put.{cased_of};
ghost use Rattle.ax25_address.specs.Address.{white, white_in};

use ax25_token::Call;
use ax25_token::encode::cased;

// White space around a call, or around an altitude.
#[tactic(auto, unfolding(crate::specs::Address::white, crate::specs::Address::blank, laws::specs::Text::between, laws::specs::Pick::pick))]
pub fn is_white(c: u8, call: bool) -> bool
    ensures { result ≡ white_in call c }
{
    match c {
        9..=13 | 32 => true,
        28..=31 => call,
        _ => false,
    }
}

// Where the text starts: at the first byte that is no white space, or after the last.
pub fn front(s: &[u8], call: bool) -> usize
    ensures { (result ≤ length s.now) × (drop result s.now ≡ trim_front (white_in call) s.now) }
{
    for (i, c) in s.iter().enumerate() {
        if !is_white(*c, call) {
            return i;
        }
    }
    s.len()
}

// Where the text ends: after the last byte that is no white space.
pub fn end(s: &[u8], call: bool) -> usize
    ensures { (result ≤ length s.now) × (take result s.now ≡ trim_end (white_in call) s.now) }
{
    for i in (0..s.len()).rev() {
        if !is_white(s[i], call) {
            return i + 1;
        }
    }
    0
}

// A text as a call, as it is or in capitals.
fn copied(s: &[u8], up: bool) -> Call
    requires { length s.now ≤ 16 }
    ensures { (result ≡ appended empty (map (cased_of up) s.now)) × (result.len ≡ length s.now) }
{
    let mut bytes = [32u8; 16];
    for (i, c) in s.iter().enumerate() {
        bytes[i] = cased(*c, up);
    }
    Call {
        bytes,
        len: s.len(),
    }
}

// The text without white space around it as a call, as it is or in capitals.
pub fn trimmed_as(s: &[u8], up: bool) -> Call
    requires { length s.now ≤ 16 }
    ensures { (text_of result ≡ map (cased_of up) (trim white s.now)) × (result.len ≤ length s.now)
        × (result ≡ appended empty (map (cased_of up) (trim white s.now))) }
{
    let a = front(s, true);
    let e = a + end(&s[a..], true);
    copied(&s[a..e], up)
}

// The same in capitals.
pub fn trimmed(s: &[u8]) -> Call
    requires { length s.now ≤ 16 }
    ensures { (text_of result ≡ map upper (trim white s.now)) × (result.len ≤ length s.now) }
{
    trimmed_as(s, true)
}
