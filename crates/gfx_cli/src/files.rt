// The commands that read and write whole files.
ghost use Rattle.std.specs.Prelude.{map, string_bytes};
ghost use Rattle.gfx_cli.specs.FilesPromise.{KeepsFiles};
ghost use Rattle.gfx_cli.specs.Seen.{seen};

use crate::Status;
use crate::commands::{named_command, run_command};
use crate::notes::{note, tell};
use gfx_io::{Sink, Source};
use std::alloc::Global;

/// The line that is noted where the words name no command.
pub(crate) const USAGE: &str =
    "usage: gfxcap info; replay [--pixels] [--frames A-B]; trim A-B; capture [--gather] [--frames A-B]; make N; upgrade; lean A-B; list; unlist; digests\n";

/// Runs a command over a source and two sinks, one for its answer and one for notes. What it promises is in `KeepsFiles`.
pub fn run_files<S: Source, K: Sink, N: Sink>(
    alloc: Global,
    words: &[String],
    source: &mut S,
    sink: &mut K,
    notes: &mut N,
) -> Status
    ensures { KeepsFiles (map string_bytes words.now)
        (seen source.old source.new S.left S.faults) (seen sink.old sink.new K.taken K.faults) (seen notes.old notes.new N.taken N.faults)
        result }
{
    let Some(command) = named_command(words) else {
        return note(notes, USAGE, Status::Usage);
    };
    match run_command(alloc, command, source, sink) {
        Ok(()) => Status::Done,
        Err(stop) => tell(alloc, stop, notes),
    }
}
