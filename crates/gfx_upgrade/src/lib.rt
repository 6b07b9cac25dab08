//! A capture file in version 2, written as the file is read.
#![tactic(auto)]

ghost use Rattle.gfx_upgrade.specs.Laws.{UpgradedIsRead, UpgradedSaysTheSame};

mod file;
mod version;

pub use file::upgrade;

/// A file that is upgraded has just the blocks that are written of its blocks, and ends cleanly.
pub fn upgraded_is_read()
    ensures { UpgradedIsRead }
{}

/// A file that is upgraded has the history and the frames of the file, and its first bad block has the same number and fault.
pub fn upgraded_says_the_same()
    ensures { UpgradedSaysTheSame }
{}
