//! Copies, as operations.
ghost use Rattle.std.specs.Prelude.{◌≡◌, ◌++◌, length, take, OnOk, OnErr};
ghost use Rattle.gfx_model.specs.Events.Event.{CmdCopyBuffer, CmdCopyImage, CmdCopyBufferToImage, CmdCopyImageToBuffer};
ghost use Rattle.gfx_laws.specs.Lawful.{CommandPasses};
ghost use Rattle.gfx_objects.specs.Objects.{answers};
ghost use Rattle.gfx_ops.specs.Operations.{ops_of_command};

use crate::region::{BufferCopies, Downloads, ImageCopies, Uploads, append_each};
use crate::shape::shape_of;
use gfx_objects::Objects;
use gfx_types::{BufferRegions, ImageRegions, MixedRegions, OpList, WantMemory};

/// Regions from one buffer to another.
pub(crate) fn cmd_copy_buffer(
    _cb: u64,
    source: u64,
    target: u64,
    regions: &BufferRegions,
    objects: &Objects,
    ops: &mut OpList,
) -> Result<(), WantMemory>
    requires passes { CommandPasses (answers objects.now) (CmdCopyBuffer _cb source target regions.now) }
    ensures ok { OnOk result (ops.new ≡ ops.old ++ ops_of_command (answers objects.now) (CmdCopyBuffer _cb source target regions.now)) }
    ensures err { OnErr result (take (length ops.old) ops.new ≡ ops.old) }
{
    let Some(from) = objects.window(source) else {
        return Ok(());
    };
    let Some(to) = objects.window(target) else {
        return Ok(());
    };
    let maker = BufferCopies {
        source: from,
        target: to,
    };
    append_each(&maker, regions.items(), ops)
}

/// Regions from one image to another.
pub(crate) fn cmd_copy_image(
    _cb: u64,
    source: u64,
    _source_layout: u32,
    target: u64,
    _target_layout: u32,
    regions: &ImageRegions,
    objects: &Objects,
    ops: &mut OpList,
) -> Result<(), WantMemory>
    requires passes { CommandPasses (answers objects.now) (CmdCopyImage _cb source _source_layout target _target_layout regions.now) }
    ensures ok { OnOk result (ops.new ≡ ops.old ++ ops_of_command (answers objects.now) (CmdCopyImage _cb source _source_layout target _target_layout regions.now)) }
    ensures err { OnErr result (take (length ops.old) ops.new ≡ ops.old) }
{
    let Some(from) = objects.window(source) else {
        return Ok(());
    };
    let Some(to) = objects.window(target) else {
        return Ok(());
    };
    let source_shape = shape_of(objects, source);
    let target_shape = shape_of(objects, target);
    let maker = ImageCopies {
        source: from,
        target: to,
        source_shape,
        target_shape,
    };
    append_each(&maker, regions.items(), ops)
}

/// Regions from a buffer to an image.
pub(crate) fn cmd_copy_buffer_to_image(
    _cb: u64,
    source: u64,
    target: u64,
    _layout: u32,
    regions: &MixedRegions,
    objects: &Objects,
    ops: &mut OpList,
) -> Result<(), WantMemory>
    requires passes { CommandPasses (answers objects.now) (CmdCopyBufferToImage _cb source target _layout regions.now) }
    ensures ok { OnOk result (ops.new ≡ ops.old ++ ops_of_command (answers objects.now) (CmdCopyBufferToImage _cb source target _layout regions.now)) }
    ensures err { OnErr result (take (length ops.old) ops.new ≡ ops.old) }
{
    let Some(buffer) = objects.window(source) else {
        return Ok(());
    };
    let Some(image) = objects.window(target) else {
        return Ok(());
    };
    let shape = shape_of(objects, target);
    let maker = Uploads {
        buffer,
        image,
        shape,
    };
    append_each(&maker, regions.items(), ops)
}

/// Regions from an image to a buffer.
pub(crate) fn cmd_copy_image_to_buffer(
    _cb: u64,
    source: u64,
    _layout: u32,
    target: u64,
    regions: &MixedRegions,
    objects: &Objects,
    ops: &mut OpList,
) -> Result<(), WantMemory>
    requires passes { CommandPasses (answers objects.now) (CmdCopyImageToBuffer _cb source _layout target regions.now) }
    ensures ok { OnOk result (ops.new ≡ ops.old ++ ops_of_command (answers objects.now) (CmdCopyImageToBuffer _cb source _layout target regions.now)) }
    ensures err { OnErr result (take (length ops.old) ops.new ≡ ops.old) }
{
    let Some(image) = objects.window(source) else {
        return Ok(());
    };
    let Some(buffer) = objects.window(target) else {
        return Ok(());
    };
    let shape = shape_of(objects, source);
    let maker = Downloads {
        image,
        buffer,
        shape,
    };
    append_each(&maker, regions.items(), ops)
}
