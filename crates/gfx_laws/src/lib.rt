//! Laws of captures: what holds after every valid history, and that a history which covers another serves for it.
#![tactic(auto)]

ghost use Rattle.gfx_laws.specs.Laws.{ValidIsLawful, PlainWhereNotLive, LayoutIsNewest, BoundOnce, BuffersByBindings, RowsOfCommands, KeptCommands, DevicesLive, FetchedWhole, FetchedByIndex, CoversItself, Simulates, ShowsSame, FillsGiveBytes, ToldByAnswers, FramesInParts, RangeSimulates};

/// What holds of objects, bindings, layouts, commands and bytes after every valid history.
pub fn valid_is_lawful()
    ensures { ValidIsLawful }
{}

/// Answers on what is not live are plain.
pub fn plain_where_not_live()
    ensures { PlainWhereNotLive }
{}

/// The layout of a live image is the newest that was ever set.
pub fn layout_is_newest()
    ensures { LayoutIsNewest }
{}

/// A live resource got one binding, which it has, or none.
pub fn bound_once()
    ensures { BoundOnce }
{}

/// A live command buffer is as its recording and the newest bindings of its resources leave it.
pub fn buffers_by_bindings()
    ensures { BuffersByBindings }
{}

/// The row of a command: its buffer is recording, its own checks, and there is room.
pub fn rows_of_commands()
    ensures { RowsOfCommands }
{}

/// A recording or executable buffer has commands of its own, that break no check but perhaps the first two and the last.
pub fn kept_commands()
    ensures { KeptCommands }
{}

/// The device of what belongs to one is live.
pub fn devices_live()
    ensures { DevicesLive }
{}

/// All images of a swapchain are fetched, or none.
pub fn fetched_whole()
    ensures { FetchedWhole }
{}

/// The list of fetched images has one at each index, or is empty.
pub fn fetched_by_index()
    ensures { FetchedByIndex }
{}

/// A valid history covers itself, where no section is open.
pub fn covers_itself()
    ensures { CoversItself }
{}

/// What has no fault after a history has none after one that covers it, and then the one with it covers the other with it.
pub fn simulates()
    ensures { Simulates }
{}

/// A present shows the same after a history and after one that covers it.
pub fn shows_same()
    ensures { ShowsSame }
{}

/// The fills of bytes, written over zeros, give them back.
pub fn fills_give_bytes()
    ensures { FillsGiveBytes }
{}

/// The answers after a history and events, and whether they are valid, are told from the answers after the history.
pub fn told_by_answers()
    ensures { ToldByAnswers }
{}

/// The frames of a history are those of its first part, and then those of the rest.
pub fn frames_in_parts()
    ensures { FramesInParts }
{}

/// Events that go on after a history go on after one that covers it, with the same frames.
pub fn range_simulates()
    ensures { RangeSimulates }
{}
