//! The report that a word of the command line asks for.
ghost use Rattle.std.specs.Prelude.{◌≡◌, ◌<◌, ℕ, length, take};
ghost use Rattle.std.specs.Io.KnownBytes.{Appends, Keeps};
ghost use Rattle.sm_report.specs.Report.{Output};
ghost use Rattle.sm_report.specs.Status.{code_of};
ghost use Rattle.sm_report.specs.RunStop.{not_finished_text, not_run};
ghost use Rattle.sm_report.specs.declared.run_stop.NotFinished.{NotFinished};
ghost use Rattle.sm_command_line.specs.Reported.{IsReported};

use crate::words::Word;
use sm_report::{Status, report, report_run};
use std::io::{Read, Write};
use std::sync::Wait;
use std::thread::Threads;

/// Writes the report that the word asks for, of what the reader gives.
pub fn report_word<R: AllocGlobal + Threads + Wait + Sync, I: Read, W: Write>(
    rt: &R,
    word: Word,
    reader: &mut I,
    writer: &mut W,
) -> Status
    // The text and the status are those of the report on the bytes that came.
    ensures reported { code_of result < 3 → (output : Output)
        × IsReported word (I.remaining reader.old) output × (result ≡ output.status)
        × Appends (W.contents writer.old) (W.contents writer.new) output.text }
    // Without memory, and after a read that fails, nothing is written.
    ensures memory { result ≡ Status.NoMemory → Keeps (W.contents writer.old) (W.contents writer.new) }
    ensures read_fault { result ≡ Status.ReadFailed → Keeps (W.contents writer.old) (W.contents writer.new) }
    // After a write that fails, a front of the report's text is written, and not all of it.
    ensures write_fault { result ≡ Status.WriteFailed → (output : Output)
        × IsReported word (I.remaining reader.old) output
        × (k : ℕ) × (k < length output.text) × Appends (W.contents writer.old) (W.contents writer.new)
        (take k output.text) }
    // A thread is missed by a run alone, whose plan has begun and was not run to its end: why is all that is written.
    ensures threads { result ≡ Status.NoThread → (word ≡ Word.Run) × (why : NotFinished)
        × IsReported word (I.remaining reader.old) (not_run why)
        × Appends (W.contents writer.old) (W.contents writer.new) (not_finished_text why) }
{
    match word {
        Word::Report(command) => report(rt.alloc(), command, reader, writer),
        Word::Run => report_run(rt, rt.alloc(), reader, writer),
    }
}
