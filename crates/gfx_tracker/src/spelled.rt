//! Recorded commands have a spelling, since each of their numbers fits its type. That is known of a number once it was
//! read, so these functions read all of a command, and do nothing else.
ghost use Rattle.std.specs.Prelude.{◌≡◌, ◌<◌, ◌^◌, true, List, length};
ghost use Rattle.std.specs.List.{AllByRecursion};
ghost use Rattle.gfx_model.specs.Events.{event_of_call};
ghost use Rattle.gfx_model.specs.Events.Event.{CmdPipelineBarrier, CmdFillBuffer, CmdUpdateBuffer, CmdCopyBuffer, CmdCopyImage, CmdCopyBufferToImage, CmdCopyImageToBuffer, CmdClearColorImage};
ghost use Rattle.gfx_model.specs.Spelling.{Field, HasSpelling, FieldFits, list_of, barrier_fields, buffer_region_fields, image_region_fields, mixed_region_fields};
ghost use Rattle.gfx_laws.specs.Laws.{is_command};
ghost use Rattle.gfx_tracker.specs.Items.{items_in};

use gfx_types::{
    Barrier, Barriers, BufferRegion, BufferRegions, Call, ImageRegion, ImageRegions, MixedRegion,
    MixedRegions, argument, calls,
};

/// A field of a row as its function takes it: a list is lent whole.
macro_rules! lent {
    (records $field:ident) => { $field };
    ($mark:ident $field:ident) => { argument!($mark $field) };
}

/// A command is read by its row.
macro_rules! fitting {
    ($call:expr; devices $devices:tt memory $memory:tt pools $pools:tt commands { $($id:literal $name:ident $row:ident($($field:ident: $mark:ident),+);)+ } signals $signals:tt swapchains $swapchains:tt) => {
        match $call {
            $(Call::$name { $($field),+ } => $row($(lent!($mark $field)),+),)+
            _ => unreachable!(),
        }
    };
}

/// A command has a spelling, where its list is not too long.
pub(crate) fn command_fits(call: &Call<'_>)
    requires command { is_command (event_of_call call.now) ≡ true }
    requires few { items_in (event_of_call call.now) < 2 ^ 32 }
    ensures { HasSpelling 1 (event_of_call call.now) }
{
    calls!(fitting, call)
}

/// Barriers have a spelling.
#[tactic(auto, unfolding(gfx_model::specs::Spelling::fields_of))]
fn cmd_pipeline_barrier(_cb: u64, barriers: &Barriers)
    requires { length barriers.now < 2 ^ 32 }
    ensures { HasSpelling 1 (CmdPipelineBarrier _cb barriers.now) }
{
    all_fit(barriers.items())
}

/// A fill has a spelling.
#[tactic(auto, unfolding(gfx_model::specs::Spelling::fields_of))]
fn cmd_fill_buffer(_cb: u64, _buffer: u64, _offset: u64, _size: u64, _word: u32)
    ensures { HasSpelling 1 (CmdFillBuffer _cb _buffer _offset _size _word) }
{}

/// An update has a spelling.
fn cmd_update_buffer(_cb: u64, _buffer: u64, _offset: u64, bytes: &[u8])
    ensures { HasSpelling 1 (CmdUpdateBuffer _cb _buffer _offset bytes.now) }
{
    let _length = bytes.len();
}

/// A copy between buffers has a spelling.
#[tactic(auto, unfolding(gfx_model::specs::Spelling::fields_of))]
fn cmd_copy_buffer(_cb: u64, _source: u64, _target: u64, regions: &BufferRegions)
    requires { length regions.now < 2 ^ 32 }
    ensures { HasSpelling 1 (CmdCopyBuffer _cb _source _target regions.now) }
{
    all_fit(regions.items())
}

/// A copy between images has a spelling.
#[tactic(auto, unfolding(gfx_model::specs::Spelling::fields_of))]
fn cmd_copy_image(
    _cb: u64,
    _source: u64,
    _source_layout: u32,
    _target: u64,
    _target_layout: u32,
    regions: &ImageRegions,
)
    requires { length regions.now < 2 ^ 32 }
    ensures { HasSpelling 1 (CmdCopyImage _cb _source _source_layout _target _target_layout regions.now) }
{
    all_fit(regions.items())
}

/// A copy from a buffer to an image has a spelling.
#[tactic(auto, unfolding(gfx_model::specs::Spelling::fields_of))]
fn cmd_copy_buffer_to_image(
    _cb: u64,
    _source: u64,
    _target: u64,
    _layout: u32,
    regions: &MixedRegions,
)
    requires { length regions.now < 2 ^ 32 }
    ensures { HasSpelling 1 (CmdCopyBufferToImage _cb _source _target _layout regions.now) }
{
    all_fit(regions.items())
}

/// A copy from an image to a buffer has a spelling.
#[tactic(auto, unfolding(gfx_model::specs::Spelling::fields_of))]
fn cmd_copy_image_to_buffer(
    _cb: u64,
    _source: u64,
    _layout: u32,
    _target: u64,
    regions: &MixedRegions,
)
    requires { length regions.now < 2 ^ 32 }
    ensures { HasSpelling 1 (CmdCopyImageToBuffer _cb _source _layout _target regions.now) }
{
    all_fit(regions.items())
}

/// A clear has a spelling.
#[tactic(auto, unfolding(gfx_model::specs::Spelling::fields_of))]
fn cmd_clear_color_image(
    _cb: u64,
    _image: u64,
    _layout: u32,
    _c0: u32,
    _c1: u32,
    _c2: u32,
    _c3: u32,
)
    ensures { HasSpelling 1 (CmdClearColorImage _cb _image _layout _c0 _c1 _c2 _c3) }
{}

/// An item of the list of a command.
trait Record: Copy {
    // the fields that spell it
    ghost fields: { Self → List Field };

    /// Its numbers fit their types.
    fn fits(self)
        ensures { AllByRecursion FieldFits (fields self) };
}

impl Record for Barrier {
    ghost fields = { barrier_fields };

    fn fits(self) {}
}

impl Record for BufferRegion {
    ghost fields = { buffer_region_fields };

    fn fits(self) {}
}

impl Record for ImageRegion {
    ghost fields = { image_region_fields };

    fn fits(self) {}
}

impl Record for MixedRegion {
    ghost fields = { mixed_region_fields };

    fn fits(self) {}
}

/// Items have a spelling, where they are not too many.
fn all_fit<T: Record>(items: &[T])
    requires { length items.now < 2 ^ 32 }
    ensures { AllByRecursion FieldFits (list_of T.fields items.now) }
{
    'records: for item in items {
        (*item).fits();
    }
}
