// The command whose work is done by all processors.
ghost use Rattle.std.specs.Prelude.{◌≡◌, ◌≢◌, ◌∷◌, [], None, codes, true, false, map, string_bytes};
ghost use Rattle.gfx_words.specs.declared.command.Command.TheVariants.{Replay};
ghost use Rattle.gfx_cli.specs.CommandPromise.{KeepsCommand};
ghost use Rattle.gfx_cli.specs.FanPromise.{KeepsFan};
ghost use Rattle.gfx_cli.specs.Seen.{seen};

use crate::files::USAGE;
use crate::notes::{note, tell};
use crate::{Status, Stop};
use gfx_fan::digests;
use gfx_io::{Sink, Source};
use std::alloc::Global;
use std::thread::Threads;

/// Runs `digests`, which writes what `replay` writes, over a source and two sinks, one for its answer and one for notes. What it
/// promises is in `KeepsFan`.
pub fn run_fan<R: Threads + Sync, S: Source, K: Sink, N: Sink>(
    rt: &R,
    alloc: Global,
    words: &[String],
    source: &mut S,
    sink: &mut K,
    notes: &mut N,
) -> Status
    ensures { KeepsFan (map string_bytes words.now)
        (seen source.old source.new S.left S.faults) (seen sink.old sink.new K.taken K.faults) (seen notes.old notes.new N.taken N.faults)
        result }
{
    if asks_for_digests(words) {
        match show_digests(rt, alloc, source, sink) {
            Ok(()) => Status::Done,
            Err(stop) => tell(alloc, stop, notes),
        }
    } else {
        note(notes, USAGE, Status::Usage)
    }
}

/// Whether the words are just that of the command.
fn asks_for_digests(words: &[String]) -> bool
    ensures yes { result ≡ true → map string_bytes words.now ≡ codes "digests" ∷ [] }
    ensures no { result ≡ false → map string_bytes words.now ≢ codes "digests" ∷ [] }
{
    match words {
        [word] => is_digests(word.as_str()),
        _ => false,
    }
}

fn is_digests(word: &str) -> bool
    ensures yes { result ≡ true → word.now ∷ [] ≡ codes "digests" ∷ [] }
    ensures no { result ≡ false → word.now ∷ [] ≢ codes "digests" ∷ [] }
{
    word == "digests"
}

/// Writes the lines of all frames.
fn show_digests<R: Threads + Sync, S: Source, K: Sink>(
    rt: &R,
    alloc: Global,
    source: &mut S,
    sink: &mut K,
) -> Result<(), Stop>
    ensures { KeepsCommand (Replay false None) (seen source.old source.new S.left S.faults) (seen sink.old sink.new K.taken K.faults) result }
{
    Ok(digests(rt, alloc, source, sink)?)
}
