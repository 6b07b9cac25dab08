//! The state section of a tracker.
ghost use Rattle.std.specs.Prelude.{◌≡◌, ◌≤◌, List, Err, flat_map, OnOk, OnErr};
ghost use Rattle.std.specs.Io.KnownBytes.{Appends};
ghost use Rattle.gfx_io.specs.Causes.{Rose};
ghost use Rattle.gfx_io.specs.Pieces.{AppendsPart};
ghost use Rattle.gfx_model.specs.Events.{Event};
ghost use Rattle.gfx_model.specs.Spelling.{encoding};
ghost use Rattle.gfx_model.specs.History.{executed};
ghost use Rattle.gfx_model.specs.Stands.{Stands};
ghost use Rattle.gfx_model.specs.Section.{section};
ghost use Rattle.gfx_feature_model.specs.Lean.{kept_section};
ghost use Rattle.gfx_tracker.specs.Tracker.{answers};
ghost use Rattle.gfx_state.specs.Stored.{HasPlaces, IsStored};

use crate::StateFault;
use crate::keep::{Everything, Keep};
use crate::parts::Parts;
use crate::section::write_section;
use gfx_device::StateBytes;
use gfx_io::Sink;
use gfx_tracker::Tracker;
use std::alloc::Global;

/// Writes what is kept of the state section for what a tracker stands for and for the bytes of its places, block by block: both
/// markers, the blocks of kept ids, of an allocation of command buffers the kept ones, and of a kept memory the kept fills. The
/// number is that of the section's frame. Each live memory and each fetched image of a live swapchain has a place of the right
/// length.
pub fn write_some<B: StateBytes, P: Keep, K: Sink>(
    alloc: Global,
    tracker: &Tracker,
    bytes: &B,
    frame: u64,
    keep: &P,
    sink: &mut K,
) -> Result<(), StateFault>
    requires { HasPlaces (answers tracker.now) (B.bytes bytes.now) }
    ensures ok { (h : List Event) → Stands (answers tracker.now) h → IsStored (answers tracker.now) (B.bytes bytes.now) (executed h)
        → OnOk result (Appends (K.taken sink.old) (K.taken sink.new) (flat_map (encoding 1 0) (kept_section (P.kept keep.now) h frame))) }

    // After an error the sink took a prefix of it.
    ensures err { (h : List Event) → Stands (answers tracker.now) h → IsStored (answers tracker.now) (B.bytes bytes.now) (executed h)
        → OnErr result (AppendsPart (K.taken sink.old) (K.taken sink.new) (flat_map (encoding 1 0) (kept_section (P.kept keep.now) h frame))) }
    ensures later { K.faults sink.old ≤ K.faults sink.new }
    ensures cause { result ≡ Err StateFault.SinkFault → Rose (K.faults sink.old) (K.faults sink.new) }
{
    let parts = Parts {
        objects: tracker.objects(),
        recordings: tracker.recordings(),
        signals: tracker.sync(),
        images: tracker.swaps(),
    };
    write_section(alloc, &parts, bytes, frame, keep, sink)
}

/// Writes the state section for what a tracker stands for and for the bytes of its places, block by block, with both markers.
/// The number is that of the section's frame. Each live memory and each fetched image of a live swapchain has a place of the
/// right length.
pub fn write_state<B: StateBytes, K: Sink>(
    alloc: Global,
    tracker: &Tracker,
    bytes: &B,
    frame: u64,
    sink: &mut K,
) -> Result<(), StateFault>
    requires { HasPlaces (answers tracker.now) (B.bytes bytes.now) }
    ensures ok { (h : List Event) → Stands (answers tracker.now) h → IsStored (answers tracker.now) (B.bytes bytes.now) (executed h)
        → OnOk result (Appends (K.taken sink.old) (K.taken sink.new) (flat_map (encoding 1 0) (section h frame))) }

    // After an error the sink took a prefix of the section.
    ensures err { (h : List Event) → Stands (answers tracker.now) h → IsStored (answers tracker.now) (B.bytes bytes.now) (executed h)
        → OnErr result (AppendsPart (K.taken sink.old) (K.taken sink.new) (flat_map (encoding 1 0) (section h frame))) }
    ensures later { K.faults sink.old ≤ K.faults sink.new }
    ensures cause { result ≡ Err StateFault.SinkFault → Rose (K.faults sink.old) (K.faults sink.new) }
{
    write_some(alloc, tracker, bytes, frame, &Everything, sink)
}
