//! Trimming keeps the frames: the trimmed file of a range of frames shows just these.
#![tactic(auto)]

ghost use Rattle.gfx_trim_law.specs.Law.{TrimmingKeepsFrames, RestLeavesFrames, RestLeavesTrimmed, EachIsShown, BegunIsShown};

/// The trimmed file of a range inside a file ends cleanly, and its frames are those of the range.
pub fn trimming_keeps_frames()
    ensures { TrimmingKeepsFrames }
{}

/// What follows a frame does not matter for the frames up to it.
pub fn rest_leaves_frames()
    ensures { RestLeavesFrames }
{}

/// What follows a range of frames does not matter for its trimmed file.
pub fn rest_leaves_trimmed()
    ensures { RestLeavesTrimmed }
{}

/// No frame of a range inside a file is missing.
pub fn each_is_shown()
    ensures { EachIsShown }
{}

/// A frame that begins in blocks without a fault is shown by them, where they show a frame that is not below it.
pub fn begun_is_shown()
    ensures { BegunIsShown }
{}
