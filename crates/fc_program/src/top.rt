//! Everything that the program does.
ghost use Rattle.std.specs.Prelude.{◌≡◌, ◌≢◌, ◌<◌, [], length, map, string_bytes, Some, false};
ghost use Rattle.command_words.specs.Words.{command_of};
ghost use Rattle.fc_answers.specs.Asked.{reads_source};
ghost use Rattle.fc_answers.specs.Answers.{Answers};
ghost use Rattle.fc_program.specs.Top.{CallEnds, IsExact, sink_at, source_at};
ghost use Rattle.command_frame.specs.Answers.{AnswerValue};

use crate::ending::{CallEnd, without_book};
use crate::judging::{Failure, answered};
use command_words::{command, words_ask_for_commands};
use export_table::Gate;
use fc_io::{CalmSink, CalmSource, Sink, Source, write_all};
use std::alloc::Global;
use std::sync::Wait;
use std::thread::Threads;

/// Does all that the program does, and answers its status. Where it runs a script it may wait for the lock of the table
/// that its workers share. The gate is called between the begin and the end of a worker's firing.
pub fn fc<W: Threads + Wait + Sync, S: Source, K: Sink, G: Gate + Sync>(
    rt: &W,
    alloc: Global,
    words: &[String],
    src: &mut S,
    out: &mut K,
    gate: &G,
) -> CallEnd
    // The text that is written, the bytes that are read, the cause of each status, and the book: each field of
    // `CallEnds`.
    ensures ends { CallEnds (command_of (map string_bytes words.now))
        (source_at (S.left src.old) (S.faults src.old)) (source_at (S.left src.new) (S.faults src.new))
        (sink_at (K.taken out.old) (K.faults out.old) (K.room out.old))
        (sink_at (K.taken out.new) (K.faults out.new) (K.room out.new)) result }
    // What doesn't read the source leaves it as it was.
    ensures untouched { reads_source (command_of (map string_bytes words.now)) ≡ false → src.new ≡ src.old }
{
    words_ask_for_commands();
    let Ok(asked) = command(alloc, words) else {
        return without_book(alloc, 7);
    };
    match answered(rt, alloc, asked, src, gate) {
        Ok(answer) => match write_all(out, &answer.text) {
            Ok(()) => CallEnd {
                status: answer.status,
                book: answer.book,
                parts: answer.parts,
            },
            Err(_) => CallEnd {
                status: 6,
                book: answer.book,
                parts: answer.parts,
            },
        },
        Err(Failure::Read) => without_book(alloc, 5),
        Err(Failure::Memory) => without_book(alloc, 7),
    }
}

/// What the words ask for, over a source and a sink that don't fail, with more room than the text has bytes: the status
/// is never 5 or 6, and where memory suffices exactly the prescribed text is written.
pub fn calm<W: Threads + Wait + Sync, G: Gate + Sync>(
    rt: &W,
    alloc: Global,
    words: &[String],
    input: Vec<u8>,
    out: &mut CalmSink,
    gate: &G,
) -> CallEnd
    requires fresh { out.old.faults ≡ 0 }
    requires empty { out.old.taken ≡ [] }
    requires room { (a : AnswerValue) → Answers (command_of (map string_bytes words.now)) input.items a
        → length a.text < out.old.room }
    ensures read { result.status ≢ 5 }
    ensures write { result.status ≢ 6 }
    ensures exact { result.status ≢ 7
        → IsExact (command_of (map string_bytes words.now)) (Some input.items) (Some []) (Some out.new.taken) result }
    ensures memory { result.status ≡ 7 → out.new.taken ≡ [] }
{
    let mut source = CalmSource::new(input);
    let outcome = fc(rt, alloc, words, &mut source, out, gate);
    // Its clause `calm`: with room left no write has failed.
    let _taken = out.taken();
    outcome
}
