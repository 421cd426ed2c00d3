//! Sources and sinks that fail: each read in turn, and each write in turn.

ghost use Rattle.std.specs.Prelude.{◌<◌};

use crate::top::{calm, fc};
use export_table::OpenGate;
use fc_io::{CalmSink, MemSink, MemSource};
use std::alloc::{AllocError, Global};
use std::process::Abort;
use std::sync::Wait;
use std::test::Fail;
use std::thread::Threads;

/// Words of a command line.
pub(crate) fn words(alloc: Global, list: &[&str]) -> Result<Vec<String>, AllocError> {
    let mut words = Vec::new(alloc);
    for word in list {
        words.push(String::from_str(alloc, word)?)?;
    }
    Ok(words)
}

// The hop count on four devices in a line, with a source at device 0, and a script that cuts the line.
const INPUT: &[u8] = b"ceiling 10;\ninput src: bool;\n\
    main = rep(10){(d) => minHoodLoc(nbr{d} + 1, mux(sense src, 0, 10))};\n%%\n\
    {\"devices\":[{\"id\":0,\"inputs\":{\"src\":true}},{\"id\":1,\"inputs\":{\"src\":false}},\
    {\"id\":2,\"inputs\":{\"src\":false}},{\"id\":3,\"inputs\":{\"src\":false}}],\
    \"links\":[[0,1,1],[1,2,1],[2,3,1]]}\n%%\n\
    run 22\nshow\nunlink 1 2\nrun 22\nshow\n";

const SHOWN: &[u8] = b"yes 22\n@2\n0 0\n1 1\n2 2\n3 3\n@5\n0 0\n1 1\n2 10\n3 10\n";

// How many bytes a call gives or takes at most, and the number of the call that fails, from 1, or 0 where none does.
type Calls = (usize, u64);

// What comes of a run over such a source and such a sink: a status, and the bytes that are taken.
fn ends(
    rt: &(impl Abort + Threads + Wait + Sync),
    alloc: Global,
    reads: Calls,
    writes: Calls,
    status: u8,
    taken: &[u8],
) -> Result<(), Fail>
    requires reads { 0 < reads.0 }
    requires writes { 0 < writes.0 }
{
    let words = words(alloc, &["fc", "run"])?;
    let mut source = MemSource::new(INPUT.to_vec(alloc)?, reads.0, vec![in alloc; reads.1]?);
    let mut sink = MemSink::new(alloc, 100, writes.0, vec![in alloc; writes.1]?)?;
    let outcome = fc(rt, alloc, &words, &mut source, &mut sink, &OpenGate);
    assert_eq!(rt; outcome.status, status);
    assert_eq!(rt; sink.taken(), taken);
    assert_eq!(rt; outcome.book.is_some(), status != 5);
    Ok(())
}

#[test]
fn reads_that_fail(rt: HostRuntime) -> Result<(), Fail> {
    // As many reads as give bytes, and the one that finds the end.
    let reads = INPUT.len().div_ceil(16) as u64 + 1;
    for read in 1..=reads {
        ends(&rt, rt.alloc(), (16, read), (100, 0), 5, b"")?;
    }
    ends(&rt, rt.alloc(), (16, reads + 1), (100, 0), 0, SHOWN)
}

#[test]
fn writes_that_fail(rt: HostRuntime) -> Result<(), Fail> {
    for write in 1..=12 {
        let taken = &SHOWN[..4 * (write as usize - 1)];
        ends(&rt, rt.alloc(), (1, 0), (4, write), 6, taken)?;
    }
    ends(&rt, rt.alloc(), (1000, 0), (4, 13), 0, SHOWN)
}

#[test]
fn calm_usage(rt: HostRuntime) -> Result<(), Fail> {
    let alloc = rt.alloc();
    let words = Vec::new(alloc);
    let mut sink = CalmSink::new(alloc, 100)?;
    let outcome = calm(&rt, alloc, &words, Vec::new(alloc), &mut sink, &OpenGate);
    assert_eq!(rt; outcome.status, 2);
    Ok(())
}
