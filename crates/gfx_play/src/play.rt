//! The frames of a file, shown as it is read.
//!
//! The loop keeps one fact, `Showing`: these are the first frames of the file, and what is asked for of them was
//! written.
ghost use Rattle.std.specs.Prelude.{◌≡◌, ◌≤◌, ℕ, List, [], Err, IfErr};
ghost use Rattle.std.specs.declared.option.Option.{Option as Maybe};
ghost use Rattle.gfx_io.specs.Causes.{Rose};
ghost use Rattle.gfx_io.specs.Told.{IfTold};
ghost use Rattle.gfx_player.specs.Walks.{Plays};
ghost use Rattle.gfx_play.specs.Shows.{Answers, MayMiss};

use crate::screen::Screen;
use gfx_frames::Listing;
use gfx_io::{Sink, Source};
use gfx_player::{Asked, PlayFault, Player};
use std::alloc::Global;

/// Shows the frames of a file that are asked for, each once its present is read, and then their number. Reading ends
/// behind the last of them. A range that is not in the file is told where the file ends, and a bad block or a failed read
/// where it is met; the frames before it were shown. The line with their number comes at the good end alone.
pub fn show_frames<S: Source, K: Sink>(
    alloc: Global,
    asked: Asked,
    pixels: bool,
    source: &mut S,
    sink: &mut K,
) -> Result<(), PlayFault>
    ensures told { IfTold (S.left source.old) (S.left source.new) (Answers asked pixels (K.taken sink.old) (K.taken sink.new) result) }
    ensures misses { IfErr result (MayMiss asked) }
    ensures read_fault { result ≡ Err PlayFault.ReadFault → Rose (S.faults source.old) (S.faults source.new) }
    ensures sink_fault { result ≡ Err PlayFault.SinkFault → Rose (K.faults sink.old) (K.faults sink.new) }
    ensures later { (S.faults source.old ≤ S.faults source.new) × (K.faults sink.old ≤ K.faults sink.new) }
{
    let mut player = Player::open(alloc, source)?;
    let shown = show_opened(alloc, asked, pixels, &mut player, source, sink);
    drop(player);
    shown
}

// The loop only borrows the player: each exit of an owner drops it field by field, which takes long to prove.
fn show_opened<S: Source, K: Sink>(
    alloc: Global,
    asked: Asked,
    pixels: bool,
    player: &mut Player,
    source: &mut S,
    sink: &mut K,
) -> Result<(), PlayFault>
    requires { (file : Maybe (List ℕ)) × Plays player.old [] file (S.left source.old) }
    ensures told { (file : Maybe (List ℕ)) → Plays player.old [] file (S.left source.old)
        → IfTold file (S.left source.new) (Answers asked pixels (K.taken sink.old) (K.taken sink.new) result) }
    ensures misses { IfErr result (MayMiss asked) }
    ensures read_fault { result ≡ Err PlayFault.ReadFault → Rose (S.faults source.old) (S.faults source.new) }
    ensures sink_fault { result ≡ Err PlayFault.SinkFault → Rose (K.faults sink.old) (K.faults sink.new) }
    ensures later { (S.faults source.old ≤ S.faults source.new) × (K.faults sink.old ≤ K.faults sink.new) }
{
    let listing = Listing {
        minor: player.minor(),
        pixels,
    };
    let mut screen = Screen {
        asked,
        listing,
        count: 0,
    };
    let mut buffer = Vec::new(alloc);
    'frames: while let Some(frame) = player.next_frame(source, &mut buffer)? {
        if screen.show(alloc, &frame, player, sink)? {
            return screen.finish(alloc, sink);
        }
    }
    screen.end(alloc, player, sink)
}
