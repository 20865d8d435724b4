// The refusals of documents 01 and 02 with their numbers, and the tests that several calls share.
#![tactic(auto)]

ghost use Rattle.std.specs.Prelude.{◌≡◌};
ghost use Rattle.refusals.specs.Limits.{field_ok, mask_ok};
ghost use Rattle.refusals.specs.Outcome.{number};

// A refusal, with its number in documents 01 and 02.
#[derive(Clone, Copy, Debug, PartialEq, Eq, Hash)]
pub enum Refusal {
    // The command is not 0, 1 or 2.
    Command = 1,
    // Data over 4,999 bytes, or a message over 5,000.
    TooLong = 2,
    // The source's `Short`, `BadCall` and `Format`.
    Short = 3,
    BadCall = 4,
    Format = 5,
    // The lent output is shorter than the answer.
    Output = 6,
    // The message cannot be decoded.
    NotDecoded = 7,
    // The field is outside 3 to 512.
    Field = 8,
    // The mask is not the top 1 to 7 bits of a byte.
    Mask = 9,
    // The message to send is empty.
    Empty = 10,
    // Its first byte is 80 or more.
    FirstByte = 11,
    // It takes more fragments than the mask leaves room for.
    Count = 12,
    // The fragment's number is not below the count.
    Number = 13,
    // The fragment to frame is empty or longer than the field.
    Fragment = 14,
    // The marker is 14.
    Marker = 15,
    // The reply is over 3 or the hint over 7.
    Control = 16,
    // The store has not 5,000 bytes, the lent bytes for kept stores are not 40,000, or a state holds over 5,000 or counts over 255.
    State = 17,
    // The name has not 1 to 8 bytes, or is not kept.
    Name = 20,
    // Eight states are kept already.
    Kept = 21,
    // A tally is already the largest 64-bit number.
    Tally = 27,
}

impl From<Refusal> for u8 {
    ghost from_gives = { λ refusal n. n ≡ number refusal };

    fn from(refusal: Refusal) -> u8 {
        refusal as u8
    }
}

// The longest data to code, and the longest message.
pub const MAX_DATA: usize = 4999;

pub const MAX_MESSAGE: usize = 5000;

// Two of the masks: HF has four check bits and FM five.
pub const HF_CRC_MASK: u8 = 0xF0;

pub const FM_CRC_MASK: u8 = 0xF8;

// The field is 3 to 512.
pub fn field_ok(field: usize) -> bool
    ensures { result ≡ field_ok field }
{
    if field < 3 {
        return false;
    }
    field <= 512
}

// The mask is the top 1 to 7 bits of a byte.
pub fn mask_ok(mask: u8) -> bool
    ensures { result ≡ mask_ok mask }
{
    match mask {
        0x80 | 0xC0 | 0xE0 | HF_CRC_MASK | FM_CRC_MASK | 0xFC | 0xFE => true,
        _ => false,
    }
}
