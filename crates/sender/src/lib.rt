// The sender: fragments of a message, one at a time.
#![tactic(auto)]

ghost use Rattle.std.specs.Prelude.{true, false, ◌≡◌, ◌∷◌, ◌+◌, ◌-◌, ◌≤◌, ◌<◌, length, take, drop, get_or, IfOk, IfErr};
ghost use Rattle.refusals.specs.Limits.{field_ok, mask_ok};
ghost use Rattle.refusals.specs.Outcome.{number, left, into, outcome_of, answer};
ghost use Rattle.sender.specs.Send.{ceiling, count_of, count_for, check_of, lead_of, fragment_of, send_of};

use bits_write::{byte, copy};
use refusals::Refusal;

// The check byte of a message in several fragments: count - 2 below the mask, and the CRC's high byte under it.
fn check_byte(message: &[u8], mask: u8, count: usize) -> u8
    requires { (2 ≤ count) × (count ≤ 257) }
    ensures { result ≡ check_of message.now mask count }
{
    let low = (count - 2) as u8;
    low | crc::crc_bits(message, mask)
}

// The first byte of fragment k: the message's first, marked on all but the last.
fn lead_of(first: u8, k: usize, count: usize) -> u8
    requires { (first < 128) × (k < count) }
    ensures { result ≡ lead_of first k count }
{
    if k + 1 < count { first + 0x80 } else { first }
}

// The one fragment of a message that the field holds: the message.
fn whole(message: &[u8], out: &mut [u8]) -> Result<usize, Refusal>
    requires { length message.now ≤ 5000 }
    ensures { left (outcome_of result) out.new ≡ into (answer message.now) out.old }
{
    let len = message.len();
    if out.len() < len {
        return Err(Refusal::Output);
    }
    copy(out, 0, message);
    Ok(len)
}

// A field that is accepted, and how fragments fill it.
#[derive(Clone, Copy)]
struct Field {
    bytes: usize,
    ghost accepted: { (3 ≤ bytes) × (bytes ≤ 512) },
}

impl Field {
    // The field of so many bytes, or its refusal.
    fn new(bytes: usize) -> Result<Field, Refusal>
        ensures made { IfOk result (λ field. field.bytes ≡ bytes) }
        ensures refused { IfErr result (λ refusal. (number refusal ≡ 8) × (field_ok bytes ≡ false)) }
    {
        if !refusals::field_ok(bytes) {
            return Err(Refusal::Field);
        }
        Ok(Field { bytes })
    }

    // How many fragments a message takes that is longer than the field. Each has room for field - 1 bytes after its first.
    fn frags_needed(self, total: usize) -> usize
        requires { (self.bytes < total) × (total ≤ 5000) }
        ensures { result ≡ ceiling (total + 1 - self.bytes) (self.bytes - 1) + 1 }
    {
        let room = self.bytes - 1;
        (total + 1 - self.bytes + (room - 1)) / room + 1
    }

    // How many fragments a message of so many bytes takes: the source's `count_for_field`.
    fn count(self, total: usize) -> usize
        requires { total ≤ 5000 }
        ensures { result ≡ count_of total self.bytes }
    {
        if total <= self.bytes {
            1
        } else {
            self.frags_needed(total)
        }
    }

    // A later fragment: its first byte, and the message from a place on, as much as the field takes.
    fn next_of(
        self,
        message: &[u8],
        start: usize,
        lead: u8,
        out: &mut [u8],
    ) -> Result<usize, Refusal>
        requires { start ≤ length message.now }
        ensures { left (outcome_of result) out.new ≡ into (answer (lead ∷ take (self.bytes - 1) (drop start message.now))) out.old }
    {
        let n = (self.bytes - 1).min(message.len() - start);
        let size = n + 1;
        if out.len() < size {
            return Err(Refusal::Output);
        }
        let at = byte(out, 0, lead);
        copy(out, at, &message[start..start + n]);
        Ok(size)
    }

    // The first fragment of several: its first byte, the check byte, and the message from its second byte on. It fills the field.
    fn first_of(self, message: &[u8], lead: u8, check: u8, out: &mut [u8]) -> Result<usize, Refusal>
        requires { self.bytes < length message.now }
        ensures { left (outcome_of result) out.new ≡ into (answer (lead ∷ check ∷ take (self.bytes - 2) (drop 1 message.now))) out.old }
    {
        if out.len() < self.bytes {
            return Err(Refusal::Output);
        }
        let at = byte(out, 0, lead);
        let rest = byte(out, at, check);
        copy(out, rest, &message[1..self.bytes - 1]);
        Ok(self.bytes)
    }

    // Fragment k of several.
    fn several(
        self,
        message: &[u8],
        mask: u8,
        count: usize,
        k: usize,
        out: &mut [u8],
    ) -> Result<usize, Refusal>
        requires le_message { (self.bytes < length message.now) × (length message.now ≤ 5000) }
        requires count_value { (count ≡ count_of (length message.now) self.bytes) × ((count ≤ 257) × (k < count)) }
        requires message_bound { get_or message.now 0 0 < 128 }
        ensures { left (outcome_of result) out.new ≡ into (answer (fragment_of message.now self.bytes mask k)) out.old }
    {
        let lead = lead_of(message[0], k, count);
        if k == 0 {
            let check = check_byte(message, mask, count);
            return self.first_of(message, lead, check, out);
        }
        self.next_of(message, k * (self.bytes - 1), lead, out)
    }

    // Fragment k of a message whose mask, length and first byte are accepted.
    fn numbered(self, message: &[u8], mask: u8, k: usize, out: &mut [u8]) -> Result<usize, Refusal>
        requires mask_value { mask_ok mask ≡ true }
        requires message_nonzero { (0 < length message.now) × ((length message.now ≤ 5000) × (get_or message.now 0 0 < 128)) }
        ensures { left (outcome_of result) out.new ≡ into (send_of message.now self.bytes mask k) out.old }
    {
        let len = message.len();
        let fragments = self.count(len);
        // count - 2 goes into the bits that the mask leaves free
        let room = 255 - mask as usize + 2;
        if room < fragments {
            return Err(Refusal::Count);
        }
        if fragments <= k {
            return Err(Refusal::Number);
        }
        if len <= self.bytes {
            return whole(message, out);
        }
        self.several(message, mask, fragments, k, out)
    }
}

// How many fragments a message of so many bytes takes, or the refusal of its field or its length.
pub fn count_for_field(total: usize, field: usize) -> Result<usize, Refusal>
    ensures { outcome_of result ≡ count_for total field }
{
    let field = Field::new(field)?;
    if refusals::MAX_MESSAGE < total {
        return Err(Refusal::TooLong);
    }
    Ok(field.count(total))
}

// Fragment k of a message, counted from 0, to the front of the output. A refusal leaves the output as it was.
pub fn fragment(
    message: &[u8],
    field: usize,
    mask: u8,
    k: usize,
    out: &mut [u8],
) -> Result<usize, Refusal>
    ensures { left (outcome_of result) out.new ≡ into (send_of message.now field mask k) out.old }
{
    let len = message.len();
    let field = Field::new(field)?;
    if !refusals::mask_ok(mask) {
        return Err(Refusal::Mask);
    }
    if len == 0 {
        return Err(Refusal::Empty);
    }
    if refusals::MAX_MESSAGE < len {
        return Err(Refusal::TooLong);
    }
    if 0x80 <= message[0] {
        return Err(Refusal::FirstByte);
    }
    field.numbered(message, mask, k, out)
}
