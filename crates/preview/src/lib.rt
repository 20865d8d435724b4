// What a message costs before it is coded and sent: document 02, E3.
#![tactic(auto)]

ghost use Rattle.std.specs.Prelude.{◌≡◌, ◌≤◌};
ghost use Rattle.refusals.specs.Outcome.{outcome_of};
ghost use Rattle.preview.specs.Preview.{fitting_price, preview_of};

use refusals::Refusal;

// The coded length, and how many fragments it takes.
#[derive(Clone, Copy)]
pub struct Price {
    pub length: usize,
    pub count: usize,
}

// The price of a coded message of so many bytes, or the sender's refusal: 8, 9 or 12. It is not too long, so that only the field can be refused first.
fn fitting_price(length: usize, field: usize, mask: u8) -> Result<Price, Refusal>
    requires { length ≤ 5000 }
    ensures { outcome_of result ≡ fitting_price length field mask }
{
    let count = sender::count_for_field(length, field)?;
    if !refusals::mask_ok(mask) {
        return Err(Refusal::Mask);
    }
    // count - 2 goes into the bits that the mask leaves free
    let room = 255 - mask as usize + 2;
    if room < count {
        return Err(Refusal::Count);
    }
    Ok(Price { length, count })
}

// The coded length of data under a command and the number of its fragments, or the first refusal: the coder's, then the sender's.
pub fn preview(command: u8, data: &[u8], field: usize, mask: u8) -> Result<Price, Refusal>
    ensures { outcome_of result ≡ preview_of command «data».now field mask }
{
    let length = kiss::coded_length(command, data)?;
    fitting_price(length, field, mask)
}
