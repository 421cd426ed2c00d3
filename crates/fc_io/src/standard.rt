//! Standard input and standard output. No contract can tell what they give and take.
ghost use Rattle.std.specs.Prelude.{None, ◌≡◌, length, ◌<◌, IfOk, OnErr};
ghost use Rattle.std.specs.Io.{ReadsAtMost, WritesAtMost};
ghost use Rattle.std.specs.Io.KnownBytes.{ReadConsumes, WriteAppends};
ghost use Rattle.fc_io.specs.Causes.{HasCause, counted};

use crate::outside::fault;
use crate::{Failed, Sink, Source};
use std::io::{Read, Stdin, Stdout, Write};
use std::marker::Model;

/// Standard input, with a count of its faults.
#[derive(Drop)]
pub struct StdSource {
    input: Stdin,
    faults: u64,
}

impl Model for StdSource {
    ghost use Rattle.std.specs.Prelude.{ℕ};

    ghost Value = { ℕ };

    ghost view = { λ s. s.faults };
}

impl StdSource {
    /// No fault is counted yet.
    pub fn new(input: Stdin) -> Self
        ensures fresh { result ≡ 0 }
    {
        StdSource { input, faults: 0 }
    }
}

impl Source for StdSource {
    ghost left = { λ _. None };

    ghost faults = { λ s. s };

    fn read(&mut self, buf: &mut [u8]) -> Result<usize, Failed>
        ensures bound { ReadsAtMost result buf.new }
        ensures cause { HasCause self.old self.new result }
        // A fault is counted once.
        ensures faults { OnErr result (self.new ≡ counted self.old) }
    {
        match self.input.read(buf) {
            Ok(count) => Ok(count),
            Err(_) => Err(fault(&mut self.faults)),
        }
    }
}

/// Standard output, with a count of its faults.
#[derive(Drop)]
pub struct StdSink {
    output: Stdout,
    faults: u64,
}

impl Model for StdSink {
    ghost use Rattle.std.specs.Prelude.{ℕ};

    ghost Value = { ℕ };

    ghost view = { λ s. s.faults };
}

impl StdSink {
    /// No fault is counted yet.
    pub fn new(output: Stdout) -> Self
        ensures fresh { result ≡ 0 }
    {
        StdSink { output, faults: 0 }
    }
}

impl Sink for StdSink {
    ghost taken = { λ _. None };

    ghost faults = { λ s. s };

    fn write(&mut self, bytes: &[u8]) -> Result<usize, Failed>
        ensures bound { WritesAtMost result bytes.now }
        ensures progress { 0 < length bytes.now → IfOk result (λ count. 0 < count) }
        ensures cause { HasCause self.old self.new result }
        // A fault is counted once.
        ensures faults { OnErr result (self.new ≡ counted self.old) }
    {
        match self.output.write(bytes) {
            Ok(count) if 0 < count || bytes.is_empty() => Ok(count),
            _ => Err(fault(&mut self.faults)),
        }
    }
}
