//! A source of bytes and a sink of bytes, each with its meaning.
ghost use Rattle.std.specs.Prelude.{None, ℕ, ◌≡◌, ◌<◌, ◌≤◌, List, length, IfOk, IfSome};
ghost use Rattle.std.specs.declared.option.Option.{Option};
ghost use Rattle.std.specs.Io.{ReadsAtMost, WritesAtMost};
ghost use Rattle.std.specs.Io.KnownBytes.{ReadConsumes, WriteAppends};
ghost use Rattle.fc_io.specs.Causes.{HasCause, counted};

/// The underlying read or write failed.
#[derive(Clone, Copy, Debug, PartialEq, Eq)]
pub struct Failed;

// Counts a fault, and is the answer of the call that met it.
pub(crate) fn fault(faults: &mut u64) -> Failed
    ensures counted { faults.new ≡ counted faults.old }
    ensures later { faults.old ≤ faults.new }
{
    *faults = faults.saturating_add(1);
    Failed
}

/// Something that bytes are read from.
pub trait Source {
    /// The bytes that are left, where the source tells them.
    ghost left: { Self → Option (List ℕ) };

    /// How often the source has failed.
    ghost faults: { Self → ℕ };

    /// Moves the first bytes that are left to the front of `buf`, and answers how many.
    /// For a `buf` that isn't empty, 0 is the end of input.
    fn read(&mut self, buf: &mut [u8]) -> Result<usize, Failed>
        // No more than `buf` holds.
        ensures bound { ReadsAtMost result buf.new }
        // What was given was left before; 0 only at the end or for an empty `buf`; nothing is lost by a fault.
        ensures bytes { ReadConsumes (left self.old) (left self.new) result buf.new }
        // The count never falls, rises with each fault, and with a fault alone.
        ensures cause { HasCause (faults self.old) (faults self.new) result };
}

/// Something that bytes are written to.
pub trait Sink {
    /// The bytes taken so far, where the sink tells them.
    ghost taken: { Self → Option (List ℕ) };

    /// How often the sink has failed.
    ghost faults: { Self → ℕ };

    /// How many bytes the sink takes in all, where it tells this. No call changes it.
    ghost room: { Self → Option ℕ } = { λ _. None };

    /// Takes bytes from the front, and answers how many.
    fn write(&mut self, bytes: &[u8]) -> Result<usize, Failed>
        // No more than there are.
        ensures bound { WritesAtMost result bytes.now }
        // What was taken stands at the end of what was taken before; nothing is taken by a fault.
        ensures bytes { WriteAppends (taken self.old) (taken self.new) result bytes.now }
        // The room stays, and what was taken never passes it.
        ensures room { room self.new ≡ room self.old }
        ensures within { IfSome (room self.new) (λ room. IfSome (taken self.new) (λ taken. length taken ≤ room)) }
        // Of bytes that are there at least one is taken.
        ensures progress { 0 < length bytes.now → IfOk result (λ count. 0 < count) }
        // The count never falls, rises with each fault, and with a fault alone.
        ensures cause { HasCause (faults self.old) (faults self.new) result };
}
