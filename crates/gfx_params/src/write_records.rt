// Writing of the records in lists.
ghost use Rattle.gfx_model.specs.Spelling.{barrier_fields, buffer_region_fields, image_region_fields, mixed_region_fields, present_fields, submit_fields};

use crate::write::WriteFields;
use gfx_types::{Barrier, BufferRegion, ImageRegion, MixedRegion, Present, Submit, in_order};

impl WriteFields for Barrier {
    ghost fields = { barrier_fields };

    fn write(&self, out: &mut Vec<u8>, at: usize) -> usize {
        let Barrier {
            image,
            before,
            after,
        } = *self;
        in_order!(image, before, after).write(out, at)
    }

    fn length(&self) -> u64 {
        let Barrier {
            image,
            before,
            after,
        } = *self;
        in_order!(image, before, after).length()
    }
}

impl WriteFields for BufferRegion {
    ghost fields = { buffer_region_fields };

    fn write(&self, out: &mut Vec<u8>, at: usize) -> usize {
        let BufferRegion { from, to, size } = *self;
        in_order!(from, to, size).write(out, at)
    }

    fn length(&self) -> u64 {
        let BufferRegion { from, to, size } = *self;
        in_order!(from, to, size).length()
    }
}

impl WriteFields for ImageRegion {
    ghost fields = { image_region_fields };

    fn write(&self, out: &mut Vec<u8>, at: usize) -> usize {
        let ImageRegion {
            from_x,
            from_y,
            to_x,
            to_y,
            width,
            height,
        } = *self;
        in_order!(from_x, from_y, to_x, to_y, width, height).write(out, at)
    }

    fn length(&self) -> u64 {
        let ImageRegion {
            from_x,
            from_y,
            to_x,
            to_y,
            width,
            height,
        } = *self;
        in_order!(from_x, from_y, to_x, to_y, width, height).length()
    }
}

impl WriteFields for MixedRegion {
    ghost fields = { mixed_region_fields };

    fn write(&self, out: &mut Vec<u8>, at: usize) -> usize {
        let MixedRegion {
            offset,
            row,
            rows,
            x,
            y,
            width,
            height,
        } = *self;
        in_order!(offset, row, rows, x, y, width, height).write(out, at)
    }

    fn length(&self) -> u64 {
        let MixedRegion {
            offset,
            row,
            rows,
            x,
            y,
            width,
            height,
        } = *self;
        in_order!(offset, row, rows, x, y, width, height).length()
    }
}

impl WriteFields for Present {
    ghost fields = { present_fields };

    fn write(&self, out: &mut Vec<u8>, at: usize) -> usize {
        let Present { swapchain, index } = *self;
        in_order!(swapchain, index).write(out, at)
    }

    fn length(&self) -> u64 {
        let Present { swapchain, index } = *self;
        in_order!(swapchain, index).length()
    }
}

impl WriteFields for Submit {
    ghost fields = { submit_fields };

    fn write(&self, out: &mut Vec<u8>, at: usize) -> usize {
        ((&self.waits, &self.cbs), &self.signals).write(out, at)
    }

    fn length(&self) -> u64 {
        ((&self.waits, &self.cbs), &self.signals).length()
    }
}
