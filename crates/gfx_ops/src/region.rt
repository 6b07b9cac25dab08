//! Items of commands, as operations.
ghost use Rattle.std.specs.Prelude.{◌≡◌, ◌≤◌, ◌^◌, ◌++◌, length, map, take, OnOk, OnErr};
ghost use Rattle.std.specs.List.{AllByRecursion};
ghost use Rattle.gfx_types.specs.declared.op.Op.{Op};
ghost use Rattle.gfx_model.specs.Checks as checks;
ghost use Rattle.gfx_model.specs.Limits.{max_extent, max_live_bytes};
ghost use Rattle.gfx_objects.specs.Object.{window_of};
ghost use Rattle.gfx_ops.specs.Operations.{barrier_op, buffer_op, image_op, upload_op, download_op};
ghost use Rattle.gfx_ops.specs.Regions.{IsNearRegion, IsImageRegion, IsMixedRegion};

use crate::shape::Shape;
use gfx_objects::Window;
use gfx_types::{Barrier, BufferRegion, ImageRegion, MixedRegion, Op, OpList, WantMemory};

/// What makes an operation of each item of a list.
pub(crate) trait MakesOp<T> {
    // what may be made an operation
    ghost may: { Self → T → Type 0 };

    // the operation of an item
    ghost op_of: { Self → T → Op };

    fn op(&self, item: &T) -> Op
        requires { may self.now item.now }
        ensures { result ≡ op_of self.now item.now };
}

/// Appends the operation of each item. When out of memory the list begins with what it was.
pub(crate) fn append_each<T, M: MakesOp<T>>(
    maker: &M,
    items: &[T],
    ops: &mut OpList,
) -> Result<(), WantMemory>
    requires { AllByRecursion (M.may maker.now) items.now }
    ensures ok { OnOk result (ops.new ≡ ops.old ++ map (M.op_of maker.now) items.now) }
    ensures err { OnErr result (take (length ops.old) ops.new ≡ ops.old) }
{
    'items: for item in items {
        ops.push(maker.op(item))?;
    }
    Ok(())
}

/// Barriers set layouts.
pub(crate) struct Layouts;

impl MakesOp<Barrier> for Layouts {
    ghost may = { λ maker barrier. Unit {0} };

    ghost op_of = { λ maker barrier. barrier_op barrier };

    fn op(&self, item: &Barrier) -> Op {
        Op::SetLayout {
            image: item.image,
            layout: item.after,
        }
    }
}

/// Regions from one buffer to another.
#[derive(Clone, Copy)]
pub(crate) struct BufferCopies {
    pub source: Window,
    pub target: Window,
    ghost near_source: { source.offset ≤ max_live_bytes },
    ghost near_target: { target.offset ≤ max_live_bytes },
}

impl MakesOp<BufferRegion> for BufferCopies {
    ghost may = { λ maker region. IsNearRegion region };

    ghost op_of = { λ maker region. buffer_op (window_of maker.source) (window_of maker.target) region };

    fn op(&self, item: &BufferRegion) -> Op {
        Op::Copy {
            to: self.target.place,
            to_offset: self.target.offset + item.to,
            to_step: 0,
            from: self.source.place,
            from_offset: self.source.offset + item.from,
            from_step: 0,
            length: item.size,
            rows: 1,
        }
    }
}

/// Regions from one image to another.
#[derive(Clone, Copy)]
pub(crate) struct ImageCopies {
    pub source: Window,
    pub target: Window,
    pub source_shape: Shape,
    pub target_shape: Shape,
    ghost near_source: { source.offset ≤ max_live_bytes },
    ghost near_target: { target.offset ≤ max_live_bytes },
    ghost wide_source: { source_shape.width ≤ max_extent },
    ghost wide_target: { target_shape.width ≤ max_extent },
    ghost small_source: { source_shape.texel ≤ 4 },
    ghost small_target: { target_shape.texel ≤ 4 },
}

impl MakesOp<ImageRegion> for ImageCopies {
    ghost may = { λ maker region. IsImageRegion region };

    ghost op_of = { λ maker region. image_op maker.source_shape maker.target_shape (window_of maker.source) (window_of maker.target) region };

    fn op(&self, item: &ImageRegion) -> Op {
        let to = self.target_shape.texel_at(item.to_x, item.to_y);
        let from = self.source_shape.texel_at(item.from_x, item.from_y);
        Op::Copy {
            to: self.target.place,
            to_offset: self.target.offset + to,
            to_step: self.target_shape.row(),
            from: self.source.place,
            from_offset: self.source.offset + from,
            from_step: self.source_shape.row(),
            length: self.source_shape.texels(item.width),
            rows: u64::from(item.height),
        }
    }
}

/// Regions from a buffer to an image.
#[derive(Clone, Copy)]
pub(crate) struct Uploads {
    pub buffer: Window,
    pub image: Window,
    pub shape: Shape,
    ghost near_buffer: { buffer.offset ≤ max_live_bytes },
    ghost near_image: { image.offset ≤ max_live_bytes },
    ghost wide: { shape.width ≤ max_extent },
    ghost small: { shape.texel ≤ 4 },
}

impl MakesOp<MixedRegion> for Uploads {
    ghost may = { λ maker region. IsMixedRegion region };

    ghost op_of = { λ maker region. upload_op maker.shape (window_of maker.buffer) (window_of maker.image) region };

    fn op(&self, item: &MixedRegion) -> Op {
        let to = self.shape.texel_at(item.x, item.y);
        Op::Copy {
            to: self.image.place,
            to_offset: self.image.offset + to,
            to_step: self.shape.row(),
            from: self.buffer.place,
            from_offset: self.buffer.offset + item.offset,
            from_step: self.shape.texels(row_texels(item)),
            length: self.shape.texels(item.width),
            rows: u64::from(item.height),
        }
    }
}

/// Regions from an image to a buffer.
#[derive(Clone, Copy)]
pub(crate) struct Downloads {
    pub image: Window,
    pub buffer: Window,
    pub shape: Shape,
    ghost near_image: { image.offset ≤ max_live_bytes },
    ghost near_buffer: { buffer.offset ≤ max_live_bytes },
    ghost wide: { shape.width ≤ max_extent },
    ghost small: { shape.texel ≤ 4 },
}

impl MakesOp<MixedRegion> for Downloads {
    ghost may = { λ maker region. IsMixedRegion region };

    ghost op_of = { λ maker region. download_op maker.shape (window_of maker.image) (window_of maker.buffer) region };

    fn op(&self, item: &MixedRegion) -> Op {
        let from = self.shape.texel_at(item.x, item.y);
        Op::Copy {
            to: self.buffer.place,
            to_offset: self.buffer.offset + item.offset,
            to_step: self.shape.texels(row_texels(item)),
            from: self.image.place,
            from_offset: self.image.offset + from,
            from_step: self.shape.row(),
            length: self.shape.texels(item.width),
            rows: u64::from(item.height),
        }
    }
}

// How many texels lead from one row to the next in the buffer.
fn row_texels(region: &MixedRegion) -> u32
    ensures { result ≡ checks.row_texels region.now.row region.now.width }
{
    if region.row == 0 {
        region.width
    } else {
        region.row
    }
}
