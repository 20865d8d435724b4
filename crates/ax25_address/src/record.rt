// What a frame is, by its address fields, control, PID and information: `parse` of the source.
ghost use Rattle.std.specs.Prelude.{◌≡◌, ◌&&◌, not, map, ◌+◌, ◌*◌, ◌^◌, ◌≤◌, ◌<◌, length, get_or, drop, eqb};
ghost use Rattle.laws.specs.Text.{ascii, upper, starts};
ghost use Rattle.ax25_address.specs.Address.{addr_call};
ghost use Rattle.ax25_address.specs.Classify.{classify_of};
ghost use Rattle.ax25_address.specs.Parse.{fields_of, parse_of, alias_of};
ghost use Rattle.ax25_address.specs.Record.{seen_of, record_of, found_of};
ghost use Rattle.ax25_address.specs.Types.{call_len};

use crate::address::addr_call;
use crate::alias::alias;
use crate::classify::{AprsType, classify};
use crate::parse::{addr_end, digipeaters};
use ax25_token::encode::call_starts;

// Control of a UI frame, and the PID of no layer 3.
pub const UI_CTRL: u8 = 0x03;

pub const PID_NO_L3: u8 = 0xF0;

// The source's record of a frame, without its addresses.
#[derive(Clone, Copy, Debug, PartialEq, Eq)]
pub struct Record {
    pub digis: usize,
    pub ap: bool,
    pub ctrl: u8,
    pub pid: u8,
    pub alias: Option<usize>,
    pub aprs_type: AprsType,
}

// The letters of a call: 7 under Ax25Long. A command is any byte here, as in the public calls: an enum would ask more of their callers.
#[tactic(auto, unfolding(laws::specs::Pick::pick))]
pub fn call_len(command: u8) -> usize
    ensures { result ≡ call_len command }
{
    if command == 1 { 7 } else { 6 }
}

// The destination starts with AP.
fn is_ap(frame: &[u8], l: usize) -> bool
    requires { (l < length frame.now) × (l ≤ 7) }
    ensures { result ≡ starts (ascii "AP") (map upper (addr_call l frame.now)) }
{
    call_starts(addr_call(frame, l, true), b"AP")
}

// Types of their own are there where the destination starts with AP, but not under Ax25Long.
fn typed(ap: bool, command: u8) -> bool
    ensures { result ≡ ap && not (eqb command 1) }
{
    ap && command != 1
}

// The record of a frame with n digipeaters.
fn found(frame: &[u8], l: usize, n: usize, ap: bool, typed: bool) -> Record
    requires { (n ≤ 8) × (l ≤ 7) × ((n + 2) * (l + 1) + 2 ≤ length frame.now) × (length frame.now < 2 ^ 60) }
    ensures { record_of result ≡ record { digis = n; ap = ap; ctrl = get_or frame.now ((n + 2) * (l + 1)) 0; pid = get_or frame.now ((n + 2) * (l + 1) + 1) 0; alias = alias_of (map (addr_call l) (fields_of l n (drop (2 * (l + 1)) frame.now))); typ = classify_of typed (drop ((n + 2) * (l + 1) + 2) frame.now) } }
{
    let end = addr_end(n, l);
    let alias = alias(&frame[2 * (l + 1)..], l, n);
    let aprs_type = classify(typed, &frame[end + 2..]);
    Record {
        digis: n,
        ap,
        ctrl: frame[end],
        pid: frame[end + 1],
        alias,
        aprs_type,
    }
}

// The record of a frame under Ax25 or Ax25Long. None where the frame is short.
pub fn parse(frame: &[u8], command: u8) -> Option<Record>
    requires { length frame.now < 2 ^ 60 }
    ensures { found_of result ≡ seen_of command (parse_of (call_len command) frame.now) }
{
    let l = call_len(command);
    let n = digipeaters(frame, l)?;
    let ap = is_ap(frame, l);
    Some(found(frame, l, n, ap, typed(ap, command)))
}
