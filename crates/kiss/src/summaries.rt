// What data is, before it is coded.
ghost use Rattle.std.specs.Prelude.{◌≡◌};
ghost use Rattle.kiss.specs.Codec.{ui_control, summary_of};
ghost use Rattle.kiss.specs.Told.{summarised_of};

use ax25_address::classify::AprsType;
use ax25_address::record::UI_CTRL;
use refusals::{MAX_DATA, Refusal};

// Control of a UI frame that is polled: P is set.
const UI_POLL_CTRL: u8 = 0x13;

// What a frame is, before it is coded.
#[derive(Clone, Copy)]
pub struct Facts {
    pub aprs_type: AprsType,
    pub digis: usize,
    pub ui: bool,
}

// Control is that of a UI frame, polled or not.
fn ui_control(ctrl: u8) -> bool
    ensures { result ≡ ui_control ctrl }
{
    ctrl == UI_CTRL || ctrl == UI_POLL_CTRL
}

// The type, how many digipeaters, and whether control is 03 or 13. Of generic bytes: Text, 0, false.
pub fn summary(command: u8, data: &[u8]) -> Result<Facts, Refusal>
    ensures { summarised_of result ≡ summary_of command «data».now }
{
    if 2 < command {
        return Err(Refusal::Command);
    }
    if MAX_DATA < data.len() {
        return Err(Refusal::TooLong);
    }
    if command == 2 {
        return Ok(Facts {
            aprs_type: AprsType::Text,
            digis: 0,
            ui: false,
        });
    }
    let found = ax25_address::record::parse(data, command).ok_or(Refusal::Short)?;
    Ok(Facts {
        aprs_type: found.aprs_type,
        digis: found.digis,
        ui: ui_control(found.ctrl),
    })
}
