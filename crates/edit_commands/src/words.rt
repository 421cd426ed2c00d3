//! Words that number devices.

ghost use Rattle.std.specs.Prelude.{◌≡◌};
ghost use Rattle.edit_commands.specs.Words.{written_device};

use fc_values::number;
use topology::GREATEST_NUMBER;

/// The number of a device that may join, if a word writes one.
pub fn device_number(word: &[u8]) -> Option<u32>
    ensures { result ≡ written_device word.now }
{
    let device = number(word)?;
    if device <= GREATEST_NUMBER {
        Some(device)
    } else {
        None
    }
}
