//! Laws of the definitions.

ghost use Rattle.fc_format.specs.Formats.{FormatOwes};

use command_frame::one_source;

/// `format` has one answer to each input.
pub fn format_owes()
    ensures { FormatOwes }
{
    one_source();
}
