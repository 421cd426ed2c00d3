//! The longest piece that begins a text.

ghost use Rattle.std.specs.Prelude.{◌≡◌, ◌≤◌, length};
ghost use Rattle.fc_values.specs.declared.limits.TheConstants.{MOST_BYTES};
ghost use Rattle.fc_lexer.specs.Sizes.{size_of};

use crate::bytes::{Class, class_of, digit_run, line_run, name_run, space_run};

/// The size of the longest token, run of spaces or comment that begins here, or 0.
pub fn piece_size(text: &[u8]) -> usize
    requires { length text.now ≤ MOST_BYTES }
    ensures { result ≡ size_of text.now }
{
    let [first, rest @ ..] = text else {
        return 0;
    };
    match class_of(*first) {
        Class::Space => space_run(rest) + 1,
        Class::Digit => digit_run(rest) + 1,
        Class::Letter => name_run(rest) + 1,
        Class::Slash => match rest {
            [b'/', line @ ..] => line_run(line) + 2,
            _ => 0,
        },
        Class::Dot => match rest {
            [b'.', ..] => 2,
            _ => 0,
        },
        Class::Equals => match rest {
            [b'>', ..] => 2,
            _ => 1,
        },
        Class::Single(_) => 1,
        Class::Other => 0,
    }
}
