//! What contracts see of a block of a log.
use std::marker::Model;

/// A block, seen as an event under its thread. No value of it is made: proofs alone speak of it.
pub struct Entry {
    minor: u32,
    block: Vec<u8>,
}

impl Model for Entry {
    ghost use Rattle.gfx_script_model.specs.Runs.{Entry};

    ghost Value = { Entry };

    ghost use Rattle.gfx_capture.specs.Entry.{entries_in, first_entry};

    ghost view = { λ s. first_entry (entries_in s.minor 1 s.block.items) };
}
