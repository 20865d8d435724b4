// Frames as a TNC-2 monitor prints them: SRC>DEST, digipeaters, the information.
#![tactic(auto)]

ghost use Rattle.std.specs.Prelude.{◌≡◌, map, ◌+◌, ◌*◌, ◌^◌, ◌≤◌, ◌<◌, length};
ghost use Rattle.std.specs.Prelude.{Some};
ghost use Rattle.laws.specs.Wrote.{Wrote};
ghost use Rattle.ax25_token.specs.Put.{cased_of};
ghost use Rattle.ax25_address.specs.Address.{addr_call, heard_in};
ghost use Rattle.ax25_address.specs.Parse.{fields_of, parse_of, count_of};
ghost use Rattle.ax25_address.specs.Types.{call_len};
ghost use Rattle.texts.specs.Show.{shown};
ghost use Rattle.monitor.specs.Monitor.{any_of, star_of, via_of, monitor_of};

use ax25_address::address::addr_call;
use ax25_address::parse::{addr_end, digipeaters};
use bits_write::byte;
use texts::show::put_shown;

// The call of an address field of l letters, as it is or in capitals. The next place.
fn put_call(f: &[u8], l: usize, up: bool, out: &mut [u8], at: usize) -> usize
    requires { (l < length f.now) × (l ≤ 7) × (at < 2 ^ 59) }
    ensures { Wrote out.old at (shown (map (cased_of up) (addr_call l f.now))) out.new result × (result ≤ at + 60) }
{
    let c = addr_call(f, l, up);
    put_shown(out, at, &c.bytes[..c.len])
}

// One of n address fields has its bit 80. It calls itself on the fields that follow, as the text of the digipeaters does: a loop would count the
// place of each field besides, and is no plainer.
fn any_heard(f: &[u8], l: usize, n: usize) -> bool
    requires { (n ≤ 8) × (l ≤ 7) × (n * (l + 1) ≤ length f.now) }
    ensures { result ≡ any_of (map (heard_in l) (fields_of l n f.now)) }
{
    if n == 0 {
        return false;
    }
    0x80 <= f[l] || any_heard(&f[l + 1..], l, n - 1)
}

// A star after the last address field that has its bit 80. The next place.
fn put_star(heard: bool, later: bool, out: &mut [u8], at: usize) -> usize
    requires { at < 2 ^ 60 }
    ensures { Wrote out.old at (star_of heard later) out.new result × (result ≤ at + 1) }
{
    if heard && !later {
        byte(out, at, b'*')
    } else {
        at
    }
}

// The n digipeaters of which f starts at the first, each after a comma. The next place.
fn put_via(f: &[u8], l: usize, n: usize, out: &mut [u8], at: usize) -> usize
    requires { (n ≤ 8) × (l ≤ 7) × (n * (l + 1) ≤ length f.now) × (length f.now < 2 ^ 60) × (at + n * 62 < 2 ^ 58) }
    ensures { Wrote out.old at (via_of (map (addr_call l) (fields_of l n f.now)) (map (heard_in l) (fields_of l n f.now))) out.new result × (result ≤ at + n * 62) }
{
    if n == 0 {
        return at;
    }
    let p = byte(out, at, b',');
    let q = put_call(f, l, false, out, p);
    let later = any_heard(&f[l + 1..], l, n - 1);
    let e = put_star(0x80 <= f[l], later, out, q);
    put_via(&f[l + 1..], l, n - 1, out, e)
}

// A frame of n digipeaters. The next place.
fn put_frame(frame: &[u8], l: usize, n: usize, out: &mut [u8], at: usize) -> usize
    requires { (l ≤ 7) × (Some n ≡ count_of (parse_of l frame.now)) × (length frame.now < 2 ^ 56) × (at < 2 ^ 57) }
    ensures { Wrote out.old at (monitor_of l frame.now) out.new result × (result ≤ at + length frame.now * 6 + 700) }
{
    let end = addr_end(n, l);
    let p = put_call(&frame[l + 1..], l, true, out, at);
    let q = byte(out, p, b'>');
    let d = put_call(frame, l, true, out, q);
    let v = put_via(&frame[2 * (l + 1)..], l, n, out, d);
    let e = byte(out, v, b':');
    put_shown(out, e, &frame[end + 2..])
}

// A frame under Ax25, 0, or Ax25Long, 1; bytes that are too short for one as they are shown. The next place.
pub fn put_monitor(command: u8, frame: &[u8], out: &mut [u8], at: usize) -> usize
    requires { (length frame.now < 2 ^ 56) × (at < 2 ^ 57) }
    ensures { Wrote out.old at (monitor_of (call_len command) frame.now) out.new result × (result ≤ at + length frame.now * 6 + 700) }
{
    let l = ax25_address::record::call_len(command);
    let Some(n) = digipeaters(frame, l) else {
        return put_shown(out, at, frame);
    };
    put_frame(frame, l, n, out, at)
}
