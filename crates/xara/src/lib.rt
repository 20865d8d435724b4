// The library for C and Rust programs: one thin function for each public call. A slice crosses as a pointer and a length; structs cross by value.
#![tactic(auto)]

ghost use Rattle.std.specs.Prelude.{◌≡◌, true, false, List, ℕ};
ghost use Rattle.crc.specs.Crc.{crc_of};
ghost use Rattle.refusals.specs.Outcome.{outcome_of, into};
ghost use Rattle.sender.specs.Send.{count_for, send_of};
ghost use Rattle.frame.specs.Frame.{build_of};
ghost use Rattle.receiver.specs.Join.{heard_of};
ghost use Rattle.receiver.specs.New.{new_of};
ghost use Rattle.receiver.specs.Stored.{receiver_of, stored_of};
ghost use Rattle.receiver.specs.Tally.{cause_number, join_tallied, push_tallied, reset_tallied};
ghost use Rattle.kiss.specs.Codec.{code_of, summary_of, decode_of};
ghost use Rattle.kiss.specs.Told.{encoded_of, code_into, summarised_of, decoded_of, decode_into};
ghost use Rattle.preview.specs.Preview.{preview_of};
ghost use Rattle.kept.specs.Keep.{none_kept, keep_of, return_of, drop_of};
ghost use Rattle.kept.specs.Told.{to_keeping_with, to_dropped};
ghost use Rattle.xara.specs.Told.{control_of, to_answer, to_answer_with, to_fresh, to_fresh_with, to_pushed, to_pushed_with, to_encoded, to_encoded_with, to_preview, to_summary, to_decoded, to_decoded_with};

use ax25_address::classify::AprsType;
use frame::Control;
use kept::{Keeping, Kept};
use kiss::Facts;
use preview::Price;
use receiver::{Cause, Push, Pushed, Reassembler, Stored, Tallies};
use refusals::Refusal;

// This struct and those that follow are the C interface: a flag and a number stand in them where a Rust call answers a `Result`.

// ok with a length or a count, or a refusal's number.
#[repr(C)]
#[derive(Clone, Copy)]
pub struct XaraAnswer {
    pub ok: bool,
    pub refusal: u8,
    pub value: usize,
}

// What the control byte of a frame carries. Any byte but 0 is compressed.
#[repr(C)]
#[derive(Clone, Copy)]
pub struct XaraControl {
    pub reply: u8,
    pub compressed: u8,
    pub hint: u8,
}

// ok with a receiver, new or returned to, or a refusal's number.
#[repr(C)]
#[derive(Clone, Copy)]
pub struct XaraFresh {
    pub ok: bool,
    pub refusal: u8,
    pub receiver: Stored,
}

// What a push or a join answers, by kind: 0 refused with its number, 1 dropped with its cause, 2 more, 3 done with the message's length; and
// the receiver.
#[repr(C)]
#[derive(Clone, Copy)]
pub struct XaraPushed {
    pub kind: u8,
    pub refusal: u8,
    pub cause: u8,
    pub length: usize,
    pub receiver: Stored,
}

// ok with the data's type and the message's length, or a refusal's number.
#[repr(C)]
#[derive(Clone, Copy)]
pub struct XaraEncoded {
    pub ok: bool,
    pub refusal: u8,
    pub aprs_type: u8,
    pub length: usize,
}

// ok with a message's length and how many fragments it takes, or a refusal's number.
#[repr(C)]
#[derive(Clone, Copy)]
pub struct XaraPreview {
    pub ok: bool,
    pub refusal: u8,
    pub length: usize,
    pub count: usize,
}

// ok with a frame's type, whether control is 03 or 13 and how many digipeaters, or a refusal's number.
#[repr(C)]
#[derive(Clone, Copy)]
pub struct XaraSummary {
    pub ok: bool,
    pub refusal: u8,
    pub aprs_type: u8,
    pub ui: bool,
    pub digis: usize,
}

// ok with the command and the data's length, or a refusal's number.
#[repr(C)]
#[derive(Clone, Copy)]
pub struct XaraDecoded {
    pub ok: bool,
    pub refusal: u8,
    pub command: u8,
    pub length: usize,
}

impl From<Result<usize, Refusal>> for XaraAnswer {
    ghost from_gives = { λ answer x. x ≡ to_answer (outcome_of answer) };

    fn from(answer: Result<usize, Refusal>) -> XaraAnswer {
        match answer {
            Ok(value) => XaraAnswer {
                ok: true,
                refusal: 0,
                value,
            },
            Err(refusal) => XaraAnswer {
                ok: false,
                refusal: u8::from(refusal),
                value: 0,
            },
        }
    }
}

impl From<XaraControl> for Control {
    ghost from_gives = { λ control x. x ≡ control_of control };

    fn from(control: XaraControl) -> Control {
        Control {
            reply: control.reply,
            compressed: control.compressed != 0,
            hint: control.hint,
        }
    }
}

// A refusal stands beside a receiver of zeros.
impl From<Result<Reassembler, Refusal>> for XaraFresh {
    ghost from_gives = { λ answer x. x ≡ to_fresh (outcome_of answer) };

    fn from(answer: Result<Reassembler, Refusal>) -> XaraFresh {
        match answer {
            Ok(receiver) => XaraFresh {
                ok: true,
                refusal: 0,
                receiver: Stored::from(receiver),
            },
            Err(refusal) => XaraFresh {
                ok: false,
                refusal: u8::from(refusal),
                receiver: Stored {
                    held: 0,
                    nfrag: 0,
                    count: 0,
                    crc_mask: 0,
                    overflow: 0,
                    tallies: Tallies::NONE,
                },
            },
        }
    }
}

impl From<Result<(usize, AprsType), Refusal>> for XaraEncoded {
    ghost from_gives = { λ answer x. x ≡ to_encoded (encoded_of answer) };

    fn from(answer: Result<(usize, AprsType), Refusal>) -> XaraEncoded {
        match answer {
            Ok((length, aprs_type)) => XaraEncoded {
                ok: true,
                refusal: 0,
                aprs_type: u8::from(aprs_type),
                length,
            },
            Err(refusal) => XaraEncoded {
                ok: false,
                refusal: u8::from(refusal),
                aprs_type: 0,
                length: 0,
            },
        }
    }
}

impl From<Result<Price, Refusal>> for XaraPreview {
    ghost from_gives = { λ answer x. x ≡ to_preview (outcome_of answer) };

    fn from(answer: Result<Price, Refusal>) -> XaraPreview {
        match answer {
            Ok(price) => XaraPreview {
                ok: true,
                refusal: 0,
                length: price.length,
                count: price.count,
            },
            Err(refusal) => XaraPreview {
                ok: false,
                refusal: u8::from(refusal),
                length: 0,
                count: 0,
            },
        }
    }
}

impl From<Result<Facts, Refusal>> for XaraSummary {
    ghost from_gives = { λ answer x. x ≡ to_summary (summarised_of answer) };

    fn from(answer: Result<Facts, Refusal>) -> XaraSummary {
        match answer {
            Ok(facts) => XaraSummary {
                ok: true,
                refusal: 0,
                aprs_type: u8::from(facts.aprs_type),
                ui: facts.ui,
                digis: facts.digis,
            },
            Err(refusal) => XaraSummary {
                ok: false,
                refusal: u8::from(refusal),
                aprs_type: 0,
                ui: false,
                digis: 0,
            },
        }
    }
}

impl From<Result<(u8, usize), Refusal>> for XaraDecoded {
    ghost from_gives = { λ answer x. x ≡ to_decoded (decoded_of answer) };

    fn from(answer: Result<(u8, usize), Refusal>) -> XaraDecoded {
        match answer {
            Ok((command, length)) => XaraDecoded {
                ok: true,
                refusal: 0,
                command,
                length,
            },
            Err(refusal) => XaraDecoded {
                ok: false,
                refusal: u8::from(refusal),
                command: 0,
                length: 0,
            },
        }
    }
}

// The number of a cause.
fn cause_number(cause: Cause) -> u8
    ensures { result ≡ cause_number cause }
{
    match cause {
        Cause::WrongLength => 1,
        Cause::NoFragment => 2,
        Cause::Overflow => 3,
        Cause::Limit => 4,
        Cause::Check => 5,
    }
}

// The struct that came in, field by field: what lies between the fields is not carried along.
fn copied(receiver: Stored) -> Stored
    ensures { result ≡ receiver }
{
    let tallies = receiver.tallies;
    Stored {
        held: receiver.held,
        nfrag: receiver.nfrag,
        count: receiver.count,
        crc_mask: receiver.crc_mask,
        overflow: receiver.overflow,
        tallies,
    }
}

// What a push or a join answers. Where it refuses, the receiver is the one that came in.
fn heard(came: Stored, pushed: Pushed) -> XaraPushed
    ensures { (store : List ℕ) → result ≡ to_pushed came (heard_of pushed.answer store) pushed.receiver }
{
    let receiver = Stored::from(pushed.receiver);
    match pushed.answer {
        Err(refusal) => XaraPushed {
            kind: 0,
            refusal: u8::from(refusal),
            cause: 0,
            length: 0,
            receiver: copied(came),
        },
        Ok(Push::Dropped(cause)) => XaraPushed {
            kind: 1,
            refusal: 0,
            cause: cause_number(cause),
            length: 0,
            receiver,
        },
        Ok(Push::More) => XaraPushed {
            kind: 2,
            refusal: 0,
            cause: 0,
            length: 0,
            receiver,
        },
        Ok(Push::Done(length)) => XaraPushed {
            kind: 3,
            refusal: 0,
            cause: 0,
            length,
            receiver,
        },
    }
}

// The CRC-16/GENIBUS of any bytes.
#[unsafe(no_mangle)]
pub extern "C" fn xara_crc16_genibus(data: &[u8]) -> u16
    ensures { result ≡ crc_of «data».now }
{
    crc::crc16_genibus(data)
}

// How many fragments a message of so many bytes takes.
#[unsafe(no_mangle)]
pub extern "C" fn xara_count_for_field(total: usize, field: usize) -> XaraAnswer
    ensures { result ≡ to_answer (count_for total field) }
{
    XaraAnswer::from(sender::count_for_field(total, field))
}

// Fragment k of a message, counted from 0.
#[unsafe(no_mangle)]
pub extern "C" fn xara_fragment(
    message: &[u8],
    field: usize,
    mask: u8,
    k: usize,
    out: &mut [u8],
) -> XaraAnswer
    ensures { (result, out.new) ≡ to_answer_with (into (send_of message.now field mask k) out.old) }
{
    XaraAnswer::from(sender::fragment(message, field, mask, k, out))
}

// The frame of a fragment.
#[unsafe(no_mangle)]
pub extern "C" fn xara_build_frame(
    field: usize,
    data: &[u8],
    control: XaraControl,
    marker: u8,
    out: &mut [u8],
) -> XaraAnswer
    ensures { (result, out.new) ≡ to_answer_with (into (build_of field «data».now (control_of control) marker) out.old) }
{
    XaraAnswer::from(frame::build_frame(field, data, Control::from(control), marker, out))
}

// A receiver that holds nothing, its tallies 0.
#[unsafe(no_mangle)]
pub extern "C" fn xara_receiver_new(crc_mask: u8) -> XaraFresh
    ensures { result ≡ to_fresh (new_of crc_mask) }
{
    XaraFresh::from(Reassembler::with_crc_mask(crc_mask))
}

// A frame of field + 3 bytes. The store has 5,000 bytes.
#[unsafe(no_mangle)]
pub extern "C" fn xara_receiver_push(
    receiver: Stored,
    store: &mut [u8],
    frame: &[u8],
    field: usize,
) -> XaraPushed
    ensures { (result, store.new) ≡ to_pushed_with receiver (push_tallied (receiver_of receiver) store.old frame.now field) }
{
    heard(
        receiver,
        Reassembler::from(receiver).push(store, frame, field),
    )
}

// A fragment: the n first bytes of f.
#[unsafe(no_mangle)]
pub extern "C" fn xara_receiver_join(
    receiver: Stored,
    store: &mut [u8],
    f: &[u8],
    n: usize,
) -> XaraPushed
    ensures { (result, store.new) ≡ to_pushed_with receiver (join_tallied (receiver_of receiver) store.old f.now n) }
{
    heard(receiver, Reassembler::from(receiver).join(store, f, n))
}

// Nothing held, fragments 0, no overflow. The tallies are kept.
#[unsafe(no_mangle)]
pub extern "C" fn xara_receiver_reset(receiver: Stored) -> Stored
    ensures { result ≡ stored_of (reset_tallied (receiver_of receiver)) }
{
    Stored::from(Reassembler::from(receiver).reset())
}

// Nothing is kept.
#[unsafe(no_mangle)]
pub extern "C" fn xara_kept_none() -> Kept
    ensures { result ≡ none_kept }
{
    Kept::none()
}

// Keeps a receiver's state under a name, and its store of 5,000 bytes in the 40,000 lent bytes.
#[unsafe(no_mangle)]
pub extern "C" fn xara_kept_keep(
    kept: Kept,
    receiver: Stored,
    store: &[u8],
    lent: &mut [u8],
    name: &[u8],
) -> Keeping
    ensures { (result, lent.new) ≡ to_keeping_with (keep_of kept (receiver_of receiver) store.now lent.old name.now) }
{
    kept.keep(Reassembler::from(receiver), store, lent, name)
}

// The state that is kept under a name, and its bytes to the store. The name stays kept.
#[unsafe(no_mangle)]
pub extern "C" fn xara_kept_return(
    kept: Kept,
    store: &mut [u8],
    lent: &[u8],
    name: &[u8],
) -> XaraFresh
    ensures { (result, store.new) ≡ to_fresh_with (return_of kept store.old lent.now name.now) }
{
    XaraFresh::from(kept.return_to(store, lent, name))
}

// Makes the slot of a name free. No lent byte is written.
#[unsafe(no_mangle)]
pub extern "C" fn xara_kept_drop(kept: Kept, lent: &[u8], name: &[u8]) -> Keeping
    ensures { result ≡ to_dropped (drop_of kept lent.now name.now) }
{
    kept.drop_name(lent, name)
}

// The message that data is coded to.
#[unsafe(no_mangle)]
pub extern "C" fn xara_encode(command: u8, data: &[u8], out: &mut [u8]) -> XaraEncoded
    ensures { (result, out.new) ≡ to_encoded_with (code_into (code_of command «data».now) out.old) }
{
    XaraEncoded::from(kiss::encode(command, data, out))
}

// What data costs, before it is coded and sent.
#[unsafe(no_mangle)]
pub extern "C" fn xara_preview(command: u8, data: &[u8], field: usize, mask: u8) -> XaraPreview
    ensures { result ≡ to_preview (preview_of command «data».now field mask) }
{
    XaraPreview::from(preview::preview(command, data, field, mask))
}

// What a frame is, before it is coded.
#[unsafe(no_mangle)]
pub extern "C" fn xara_summary(command: u8, data: &[u8]) -> XaraSummary
    ensures { result ≡ to_summary (summary_of command «data».now) }
{
    XaraSummary::from(kiss::summary(command, data))
}

// The data that a message was coded from, in the original reading.
#[unsafe(no_mangle)]
pub extern "C" fn xara_decode(message: &[u8], out: &mut [u8]) -> XaraDecoded
    ensures { (result, out.new) ≡ to_decoded_with (decode_into (decode_of false message.now) out.old) }
{
    XaraDecoded::from(kiss::decode(message, false, out))
}

// The same in the mended reading: the last two bits of a WIDE token are a binary number.
#[unsafe(no_mangle)]
pub extern "C" fn xara_decode_mended(message: &[u8], out: &mut [u8]) -> XaraDecoded
    ensures { (result, out.new) ≡ to_decoded_with (decode_into (decode_of true message.now) out.old) }
{
    XaraDecoded::from(kiss::decode(message, true, out))
}
