// The frame of a fragment: hf/frame.rs of the source.
#![tactic(auto)]

ghost use Rattle.std.specs.Prelude.{◌≡◌, [], ◌∷◌, ◌+◌, ◌-◌, ◌/◌, ◌%◌, ◌≤◌, length, take};
ghost use Rattle.laws.specs.Wrote.{Wrote};
ghost use Rattle.crc.specs.Crc.{crc_of};
ghost use Rattle.refusals.specs.Outcome.{left, into, outcome_of};
ghost use Rattle.frame.specs.Frame.{fill_of, body_of, control_byte, frame_of, build_of};

use bits_write::{byte, copy};
use crc::crc16_genibus;
use refusals::{Refusal, field_ok};

// The byte after a fragment that is shorter than its field.
pub const TERMINATOR: u8 = 0x14;

// What the control byte carries besides its bit 0.
#[derive(Clone, Copy, Debug, PartialEq, Eq)]
pub struct Control {
    pub reply: u8,
    pub compressed: bool,
    pub hint: u8,
}

impl Control {
    // The control byte: reply in bits 7 and 6, compressed in bit 5, hint in bits 4 to 2, full in bit 0. Bit 1, the source's `last`, is 0.
    fn byte(self, full: bool) -> u8
        requires { (self.reply ≤ 3) × (self.hint ≤ 7) }
        ensures { result ≡ control_byte self full }
    {
        self.reply * 64 + u8::from(self.compressed) * 32 + self.hint * 4 + u8::from(full)
    }
}

// The bytes from a place up to an end: the marker if it fits, then zeros. The next place.
fn fill(out: &mut [u8], at: usize, end: usize, marker: u8) -> usize
    requires { (at ≤ end) × (end ≤ length out.old) }
    ensures { Wrote out.old at (fill_of (end - at) marker) out.new result }
{
    if at < end {
        out[at] = marker;
        out[at + 1..end].fill(0);
    }
    end
}

// The fragment, and where it is shorter than its field the terminator and what fills the field up. The next place.
fn body(field: usize, data: &[u8], marker: u8, out: &mut [u8]) -> usize
    requires { (length «data».now ≤ field) × (field ≤ 512) × (field ≤ length out.old) }
    ensures { Wrote out.old 0 (body_of field «data».now marker) out.new result }
{
    let end = copy(out, 0, data);
    if field <= end {
        return end;
    }
    let next = byte(out, end, TERMINATOR);
    fill(out, next, field, marker)
}

// The CRC of all before a place, at that place, high byte first. The next place.
fn trailer(out: &mut [u8], at: usize) -> usize
    requires { (at ≤ length out.old) × (at ≤ 513) }
    ensures { Wrote out.old at
        (crc_of (take at out.old) / 256 ∷ crc_of (take at out.old) % 256 ∷ []) out.new result }
{
    let sum = crc16_genibus(&out[..at]);
    let low = byte(out, at, (sum / 256) as u8);
    byte(out, low, (sum % 256) as u8)
}

// The frame of an accepted fragment, written to an output that has room for it. Its length.
fn frame(field: usize, data: &[u8], control: Control, marker: u8, out: &mut [u8]) -> usize
    requires { (length «data».now ≤ field) × (field ≤ 512) × (control.reply ≤ 3) × (control.hint ≤ 7) × (field + 3 ≤ length out.old) }
    ensures { Wrote out.old 0 (frame_of field «data».now control marker) out.new result }
{
    let at = body(field, data, marker, out);
    let full = field <= data.len();
    let end = byte(out, at, control.byte(full));
    trailer(out, end)
}

// The frame of a fragment, field + 3 bytes. All is tested before the first byte is written, so that a refusal changes nothing.
pub fn build_frame(
    field: usize,
    data: &[u8],
    control: Control,
    marker: u8,
    out: &mut [u8],
) -> Result<usize, Refusal>
    ensures { left (outcome_of result) out.new ≡ into (build_of field «data».now control marker) out.old }
{
    if !field_ok(field) {
        return Err(Refusal::Field);
    }
    if data.is_empty() || field < data.len() {
        return Err(Refusal::Fragment);
    }
    if marker == TERMINATOR {
        return Err(Refusal::Marker);
    }
    if 3 < control.reply || 7 < control.hint {
        return Err(Refusal::Control);
    }
    if out.len() < field + 3 {
        return Err(Refusal::Output);
    }
    Ok(frame(field, data, control, marker, out))
}
