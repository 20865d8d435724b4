// How long a message is, before it is coded.
ghost use Rattle.std.specs.Prelude.{◌≡◌, ◌≤◌, length};
ghost use Rattle.ax25.specs.Encode.{encode_of};
ghost use Rattle.kiss.specs.Codec.{code_of};
ghost use Rattle.kiss.specs.Generic.{generic_of};
ghost use Rattle.refusals.specs.Outcome.{outcome_of};
ghost use Rattle.kiss.specs.Told.{length_of};

use refusals::{MAX_DATA, Refusal};

// The length of generic bytes, coded: the run over no output that measures.
fn generic_length(data: &[u8]) -> usize
    requires { length «data».now ≤ 4999 }
    ensures { result ≡ length (generic_of «data».now) }
{
    crate::generic::generic_encode(data, &mut [])
}

// The length of a frame, coded, in the same way.
fn frame_length(command: u8, data: &[u8]) -> Result<usize, Refusal>
    requires { length «data».now ≤ 4999 }
    ensures { outcome_of result ≡ length_of (encode_of command «data».now) }
{
    let r = ax25_address::record::parse(data, command).ok_or(Refusal::Short)?;
    ax25::encode::encode(data, command, r, &mut [])
}

// The length of the message of data under a command. No output is lent.
pub fn coded_length(command: u8, data: &[u8]) -> Result<usize, Refusal>
    ensures { outcome_of result ≡ length_of (code_of command «data».now) }
{
    if 2 < command {
        return Err(Refusal::Command);
    }
    if MAX_DATA < data.len() {
        return Err(Refusal::TooLong);
    }
    if command == 2 {
        return Ok(generic_length(data));
    }
    frame_length(command, data)
}
