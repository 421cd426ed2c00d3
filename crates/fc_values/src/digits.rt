//! Numbers as words and lines write them.

ghost use Rattle.std.specs.Prelude.{◌≡◌};
ghost use Rattle.fc_values.specs.Numbers.{number_of};

/// The number that a word of 1 to 7 decimal digits writes, or none for any other word.
pub fn number(word: &[u8]) -> Option<u32>
    ensures { result ≡ number_of word.now }
{
    if word.is_empty() || word.len() > 7 {
        return None;
    }
    let mut value = 0;
    for byte in word {
        if !byte.is_ascii_digit() {
            return None;
        }
        value = value * 10 + u32::from(*byte - b'0');
    }
    Some(value)
}
