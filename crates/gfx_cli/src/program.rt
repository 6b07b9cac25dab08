// All commands of the program.
//
// `run_capture` may wait and starts threads; `run_files` has no leave for either, so it always returns. `run` promises
// what each of them does.
ghost use Rattle.std.specs.Prelude.{◌≡◌, [], Ok, get_or, map, string_bytes};
ghost use Rattle.gfx_io.specs.Told.{IfTold};
ghost use Rattle.gfx_trim.specs.Keeps.{Keeps};
ghost use Rattle.gfx_words.specs.declared.range.FrameRange.{FrameRange};
ghost use Rattle.gfx_words.specs.declared.recording.Recording.{Recording};
ghost use Rattle.gfx_words.specs.declared.command.Command.TheVariants.{Trim};
ghost use Rattle.gfx_cli.specs.CapturePromise.{KeepsCapture};
ghost use Rattle.gfx_cli.specs.Captures.{Ends};
ghost use Rattle.gfx_cli.specs.FanPromise.{KeepsFan};
ghost use Rattle.gfx_cli.specs.FilesPromise.{KeepsFiles};
ghost use Rattle.gfx_cli.specs.Seen.{seen};
ghost use Rattle.gfx_cli.specs.Words.{BeginsCapture, BeginsDigests, IsAsked, IsNamed};

use crate::Status;
use crate::capture::run_capture;
use crate::fan::run_fan;
use crate::files::run_files;
use gfx_io::{Gate, Sink, Source};
use std::alloc::Global;
use std::sync::Wait;
use std::thread::Threads;

/// Runs what the words name over a source and two sinks, one for its answer and one for notes. A recording may wait.
pub fn run<R: Threads + Wait + Sync, S: Source, K: Sink, N: Sink, G: Gate + Sync>(
    rt: &R,
    alloc: Global,
    words: &[String],
    source: &mut S,
    sink: &mut K,
    notes: &mut N,
    gate: &G,
) -> Status
    // What was recorded is a valid history that matches the script, with writes gathered where that was asked for, and the sink took
    // its log, or just the frames of a range.
    ensures records { result ≡ Status.Done → (recording : Recording) → IsAsked (map string_bytes words.now) recording
        → IfTold (S.left source.old) (S.left source.new) (Ends recording (K.taken sink.old) (K.taken sink.new) (Ok tt)) }

    // Of a file that was cut, the sink took one that ends cleanly and whose frames are exactly those of the range.
    ensures keeps { result ≡ Status.Done → (range : FrameRange) → IsNamed (map string_bytes words.now) (Trim range) → IfTold (S.left source.old) (S.left source.new)
        (λ bytes _. Keeps range.first range.last (K.taken sink.old) (K.taken sink.new) bytes) }

    // Words that begin with `capture` are promised all of `run_capture`, those that begin with `digests` all of `run_fan`, and others all of `run_files`.
    ensures capture { BeginsCapture (map string_bytes words.now) → KeepsCapture (map string_bytes words.now)
        (seen source.old source.new S.left S.faults) (seen sink.old sink.new K.taken K.faults) (seen notes.old notes.new N.taken N.faults)
        result }
    ensures fan { BeginsDigests (map string_bytes words.now) → KeepsFan (map string_bytes words.now)
        (seen source.old source.new S.left S.faults) (seen sink.old sink.new K.taken K.faults) (seen notes.old notes.new N.taken N.faults)
        result }
    ensures files { ¬ BeginsCapture (map string_bytes words.now) → ¬ BeginsDigests (map string_bytes words.now) → KeepsFiles (map string_bytes words.now)
        (seen source.old source.new S.left S.faults) (seen sink.old sink.new K.taken K.faults) (seen notes.old notes.new N.taken N.faults)
        result }
{
    match first_word(words) {
        "capture" => run_capture(rt, alloc, words, source, sink, notes, gate),
        "digests" => run_fan(rt, alloc, words, source, sink, notes),
        _ => run_files(alloc, words, source, sink, notes),
    }
}

/// The first word, or none of its letters where there is no word.
fn first_word(words: &[String]) -> &str
    ensures { result.now ≡ get_or (map string_bytes words.now) 0 [] }
{
    match words {
        [word, ..] => word.as_str(),
        [] => "",
    }
}
