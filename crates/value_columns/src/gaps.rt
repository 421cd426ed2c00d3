//! Words taken out from among others.

ghost use Rattle.std.specs.Prelude.{◌≡◌, ◌+◌, ◌≤◌, ◌++◌, drop, length, take};

/// Takes so many words out at a place. Those behind them move down.
pub fn close_gap(words: &mut Vec<u32>, at: usize, many: usize)
    requires { at + many ≤ length words.old.items }
    ensures { words.new.items ≡ take at words.old.items ++ drop (at + many) words.old.items }
{
    let long = words.len();
    words.as_mut_slice().copy_within(at + many..long, at);
    words.truncate(long - many);
}
