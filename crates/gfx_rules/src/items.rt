//! Checks of each item of a command's list.

ghost use Rattle.std.specs.Prelude.{◌≡◌, ◌&&◌, map, flat_map};
ghost use Rattle.gfx_types.specs.declared.names.Kind.TheVariants as kind;
ghost use Rattle.gfx_model.specs.Table as table;
ghost use Rattle.gfx_model.specs.Checks as words;
ghost use Rattle.gfx_model.specs.Views as views;

use crate::answers::Answers;
use crate::broken::{broken, first_broken};
use crate::checks::Check;
use crate::resources::resource_fault;
use crate::values::{both, is_barrier, is_mixed, sum};
use gfx_types::{Barrier, BufferRegion, Fault, ImageRegion, Kind, MixedRegion};

/// The fault of the first item that is no usable image near the command buffer.
pub fn resource_each<A: Answers>(answers: &A, cb: u64, items: &[Barrier]) -> Option<Fault>
    ensures { result ≡ words.first_broken (A.view answers.now) (flat_map (λ b. table.res kind.Image cb b.image) items.now) }
{
    let device = answers.device_of(cb);
    'items: for item in items {
        if let Some(fault) = resource_fault(answers, Kind::Image, cb, device, item.image) {
            return Some(fault);
        }
    }
    None
}

/// The fault of the first item whose layouts are not known or lead to UNDEFINED.
#[tactic(auto, unfolding(gfx_model::specs::Checks::broken))]
pub fn barrier_values<A: Answers>(answers: &A, items: &[Barrier]) -> Option<Fault>
    ensures { result ≡ words.first_broken (A.view answers.now) (map table.barrier_value items.now) }
{
    'items: for item in items {
        if !is_barrier(*item) {
            return Some(Fault::BadValue);
        }
    }
    None
}

/// The fault of the first item without bytes.
pub fn buffer_sizes<A: Answers>(answers: &A, items: &[BufferRegion]) -> Option<Fault>
    ensures { result ≡ words.first_broken (A.view answers.now) (map (λ r. table.value (table.is_positive r.size)) items.now) }
{
    'items: for item in items {
        if let Some(fault) = broken(answers, Check::Must(Fault::BadValue, 1 <= item.size)) {
            return Some(fault);
        }
    }
    None
}

/// 16 unless a region lies in both buffers.
fn buffer_region_fault<A: Answers>(
    answers: &A,
    source: u64,
    target: u64,
    region: BufferRegion,
) -> Option<Fault>
    ensures { result ≡ words.first_broken (A.view answers.now) (table.buffer_region_in source target region) }
{
    first_broken(
        answers,
        &[
            Check::EndsIn(source, sum(region.from, region.size)),
            Check::EndsIn(target, sum(region.to, region.size)),
        ],
    )
}

/// The fault of the first item that leaves a buffer.
pub fn buffer_regions_in<A: Answers>(
    answers: &A,
    source: u64,
    target: u64,
    items: &[BufferRegion],
) -> Option<Fault>
    ensures { result ≡ words.first_broken (A.view answers.now) (flat_map (table.buffer_region_in source target) items.now) }
{
    'items: for item in items {
        if let Some(fault) = buffer_region_fault(answers, source, target, *item) {
            return Some(fault);
        }
    }
    None
}

/// The fault of the first item without texels.
pub fn image_extents<A: Answers>(answers: &A, items: &[ImageRegion]) -> Option<Fault>
    ensures { result ≡ words.first_broken (A.view answers.now) (map (λ r. table.value (table.is_positive r.width && table.is_positive r.height)) items.now) }
{
    'items: for item in items {
        if let Some(fault) = broken(
            answers,
            Check::Must(Fault::BadValue, both(1 <= item.width, 1 <= item.height)),
        ) {
            return Some(fault);
        }
    }
    None
}

/// 16 unless a region lies in both images.
fn image_region_fault<A: Answers>(
    answers: &A,
    source: u64,
    target: u64,
    region: ImageRegion,
) -> Option<Fault>
    ensures { result ≡ words.first_broken (A.view answers.now) (table.image_region_in source target region) }
{
    first_broken(
        answers,
        &[
            Check::AreaIn(
                source,
                region.from_x,
                region.from_y,
                region.width,
                region.height,
            ),
            Check::AreaIn(
                target,
                region.to_x,
                region.to_y,
                region.width,
                region.height,
            ),
        ],
    )
}

/// The fault of the first item that leaves an image.
pub fn image_regions_in<A: Answers>(
    answers: &A,
    source: u64,
    target: u64,
    items: &[ImageRegion],
) -> Option<Fault>
    ensures { result ≡ words.first_broken (A.view answers.now) (flat_map (table.image_region_in source target) items.now) }
{
    'items: for item in items {
        if let Some(fault) = image_region_fault(answers, source, target, *item) {
            return Some(fault);
        }
    }
    None
}

/// 15 unless extents, strides and offset of a region fit one another.
fn mixed_value_fault<A: Answers>(answers: &A, image: u64, region: MixedRegion) -> Option<Fault>
    ensures { result ≡ words.first_broken (A.view answers.now) (table.mixed_region_value image region) }
{
    first_broken(
        answers,
        &[
            Check::Must(Fault::BadValue, is_mixed(region)),
            Check::TexelDivides(image, region.offset),
        ],
    )
}

/// The fault of the first item whose extents, strides and offset do not fit one another.
pub fn mixed_values<A: Answers>(answers: &A, image: u64, items: &[MixedRegion]) -> Option<Fault>
    ensures { result ≡ words.first_broken (A.view answers.now) (flat_map (table.mixed_region_value image) items.now) }
{
    'items: for item in items {
        if let Some(fault) = mixed_value_fault(answers, image, *item) {
            return Some(fault);
        }
    }
    None
}

/// 16 unless a region lies in the image, and its rows in the buffer.
fn mixed_region_fault<A: Answers>(
    answers: &A,
    buffer: u64,
    image: u64,
    region: MixedRegion,
) -> Option<Fault>
    ensures { result ≡ words.first_broken (A.view answers.now) (table.mixed_region_in buffer image region) }
{
    first_broken(
        answers,
        &[
            Check::AreaIn(image, region.x, region.y, region.width, region.height),
            Check::RowsIn(
                buffer,
                image,
                region.offset,
                region.row,
                region.width,
                region.height,
            ),
        ],
    )
}

/// The fault of the first item that leaves the image or the buffer.
pub fn mixed_regions_in<A: Answers>(
    answers: &A,
    buffer: u64,
    image: u64,
    items: &[MixedRegion],
) -> Option<Fault>
    ensures { result ≡ words.first_broken (A.view answers.now) (flat_map (table.mixed_region_in buffer image) items.now) }
{
    'items: for item in items {
        if let Some(fault) = mixed_region_fault(answers, buffer, image, *item) {
            return Some(fault);
        }
    }
    None
}
