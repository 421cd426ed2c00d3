//! Whole inputs and whole outputs.
ghost use Rattle.std.specs.Prelude.{ℕ, ◌≡◌, ◌+◌, ◌^◌, ◌<◌, ◌≤◌, List, length, take, IfOk, IfSome, OnOk, OnErr, IsErrOf};
ghost use Rattle.std.specs.Io.KnownBytes.{Consumes, Appends, IsAtEnd};
ghost use Rattle.fc_io.specs.Causes.{Rose};
ghost use Rattle.fc_io.specs.declared.transfer.ReadAll.TheVariants.{Memory};

use crate::{Sink, Source};
use std::alloc::{AllocError, Global};

/// Why an input was not read whole.
#[derive(Clone, Copy, Debug, PartialEq, Eq)]
pub enum ReadAll {
    /// The source failed.
    ReadFault,
    /// There are more bytes than the limit.
    TooLong,
    /// Memory was asked for and there was none.
    Memory,
}

impl From<AllocError> for ReadAll {
    ghost from_gives = { λ _ e. e ≡ Memory };

    fn from(_: AllocError) -> Self {
        ReadAll::Memory
    }
}

/// The sink failed.
#[derive(Clone, Copy, Debug, PartialEq, Eq)]
pub struct WriteFault;

// How many bytes a call of the source is asked for at most.
const CHUNK: usize = 4096;

/// All that the source has left, read to its end, where this is at most `limit` bytes.
pub fn read_all<S: Source>(alloc: Global, src: &mut S, limit: usize) -> Result<Vec<u8>, ReadAll>
    requires limit { limit < 2 ^ 31 }
    // Ok: all that was left, and the end was seen.
    ensures all { IfOk result (λ v. IfSome (S.left src.old) (λ left. v.items ≡ left)) }
    ensures whole { IfOk result (λ v. Consumes (S.left src.old) (S.left src.new) v.items) }
    ensures end { OnOk result (IsAtEnd (S.left src.new)) }
    ensures within { IfOk result (λ v. length v.items ≤ limit) }
    // TooLong: `limit + 1` bytes were read. Each other answer but want of memory comes before that.
    ensures too_long { IsErrOf result ReadAll.TooLong → (bytes : List ℕ)
        × (Consumes (S.left src.old) (S.left src.new) bytes) × (length bytes ≡ limit + 1) }
    ensures short { IsErrOf result ReadAll.ReadFault → (bytes : List ℕ)
        × (Consumes (S.left src.old) (S.left src.new) bytes) × (length bytes ≤ limit) }
    ensures long { IfSome (S.left src.old) (λ bytes. limit < length bytes → OnOk result ⊥) }
    // ReadFault: the count rose. No other answer has met a fault.
    ensures fault { IsErrOf result ReadAll.ReadFault → Rose (S.faults src.old) (S.faults src.new) }
    ensures quiet { (IsErrOf result ReadAll.ReadFault → ⊥) → S.faults src.new ≡ S.faults src.old }
    ensures later { S.faults src.old ≤ S.faults src.new }
    // Whatever the answer, no byte beyond these was read.
    ensures beyond { (bytes : List ℕ) × (Consumes (S.left src.old) (S.left src.new) bytes)
        × (length bytes ≤ limit + 1) }
{
    let mut bytes = Vec::new(alloc);
    let mut buf = [0u8; CHUNK];
    'turns: while bytes.len() <= limit {
        let want = CHUNK.min(limit + 1 - bytes.len());
        let Ok(count) = src.read(&mut buf[..want]) else {
            return Err(ReadAll::ReadFault);
        };
        if count == 0 {
            return Ok(bytes);
        }
        bytes.extend_from_slice(&buf[..count])?;
    }
    Err(ReadAll::TooLong)
}

/// Writes all of the bytes. It takes no memory.
pub fn write_all<K: Sink>(out: &mut K, bytes: &[u8]) -> Result<(), WriteFault>
    // Ok: exactly these bytes were taken, without a fault.
    ensures whole { OnOk result (Appends (K.taken out.old) (K.taken out.new) bytes.now) }
    ensures quiet { OnOk result (K.faults out.new ≡ K.faults out.old) }
    // WriteFault: the count rose, and only a part of the bytes, from their front, was taken.
    ensures fault { OnErr result (Rose (K.faults out.old) (K.faults out.new)) }
    ensures part { OnErr result ((count : ℕ) × (count < length bytes.now)
        × Appends (K.taken out.old) (K.taken out.new) (take count bytes.now)) }
    ensures later { K.faults out.old ≤ K.faults out.new }
    ensures room { K.room out.new ≡ K.room out.old }
{
    let mut done = 0;
    'turns: while done < bytes.len() {
        let Ok(count) = out.write(&bytes[done..]) else {
            return Err(WriteFault);
        };
        done += count;
    }
    Ok(())
}
