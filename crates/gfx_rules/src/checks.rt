//! The checks of a call, one word each.

ghost use Rattle.std.specs.Prelude.{◌≡◌};
ghost use Rattle.gfx_model.specs.Checks as words;

use gfx_types::{Fault, Kind};

/// One check of a row: a word of the call table, with what it is about in the table's order. Offsets, ends and sizes
/// are in bytes.
#[derive(Clone, Copy)]
pub enum Check<'a> {
    Must(Fault, bool),
    Inside,
    AtStart,
    EndsFrame(u64),
    Live(Kind, u64),
    Of(u64, u64),
    Near(u64, u64),
    New(u64),
    Room(u64),
    RoomFor(u128),
    Childless(u64),
    ChildlessButQueue(u64),
    BareSurface(u64),
    FreeSurface(u64),
    SameInstance(u64, u64),
    TheQueue(u64, u64),
    TheImages(u64, &'a [u64]),
    EndsIn(u64, u128),
    RestsIn(u64, u64, u64),
    Unmapped(u64),
    IsMapped(u64),
    Unbound(u64),
    Usable(u64),
    MayReset(u64),
    TexelDivides(u64, u64),
    AreaIn(u64, u32, u32, u32, u32),
    RowsIn(u64, u64, u64, u32, u32, u32),
    TellsAll(bool, &'a [u64]),
    TellsSome(bool, &'a [u64]),
    Unsignalled(u64),
    IndexIn(u64, u32),
    IsAcquired(u64, u32),
    NotAcquired(u64, u32),
    Presentable(u64, u32),
    AllAcquired(u64),
    FrameRoom,
    MayFill(u64),
    FillIn(u64, u64, u64),
    ImageBytes(u64, u64),
    OneEach(u64, u64),
}

/// The fault unless the test holds.
pub fn unless(holds: bool, fault: Fault) -> Option<Fault>
    ensures { result ≡ words.unless holds fault }
{
    if holds { None } else { Some(fault) }
}

/// The first of two faults.
pub fn first(a: Option<Fault>, b: Option<Fault>) -> Option<Fault>
    ensures { result ≡ words.first a b }
{
    match a {
        Some(fault) => Some(fault),
        None => b,
    }
}
