//! The rows of copies.

ghost use Rattle.std.specs.Prelude.{◌≡◌, ◌&&◌, ◌++◌, ◌∷◌, [], nat_le, flat_map};
ghost use Rattle.gfx_types.specs.declared.names.Kind.TheVariants as kind;
ghost use Rattle.gfx_model.specs.Events.Event.{CmdCopyBuffer, CmdCopyImage, CmdCopyBufferToImage, CmdCopyImageToBuffer};
ghost use Rattle.gfx_model.specs.Table as table;
ghost use Rattle.gfx_model.specs.Table.{row_of};
ghost use Rattle.gfx_model.specs.Checks as words;
ghost use Rattle.gfx_model.specs.Limits.{max_regions};

use crate::answers::Answers;
use crate::checks::{first, unless};
use crate::derived::texel;
use crate::fits::{copies_fit, downloads_fit, image_copies_fit, uploads_fit};
use crate::items::{
    buffer_regions_in, buffer_sizes, image_extents, image_regions_in, mixed_regions_in,
    mixed_values,
};
use crate::resources::{command_fault, resource_fault, usage_fault};
use crate::values::{both, is_either};
use gfx_types::limits::MAX_REGIONS;
use gfx_types::{BufferRegion, Fault, ImageRegion, Kind, MixedRegion};

/// The fault of the command buffer of a copy, and of its source and target.
fn copied_fault<A: Answers>(
    answers: &A,
    cb: u64,
    of: Kind,
    source: u64,
    to: Kind,
    target: u64,
) -> Option<Fault>
    ensures { result ≡ words.first_broken (A.view answers.now) (words.Check.live kind.CommandBuffer cb ∷ words.Check.recording cb
        ∷ table.copied cb of source to target) }
{
    if let Some(fault) = command_fault(answers, cb) {
        return Some(fault);
    }
    let device = answers.device_of(cb);
    if let Some(fault) = resource_fault(answers, of, cb, device, source) {
        return Some(fault);
    }
    if let Some(fault) = resource_fault(answers, to, cb, device, target) {
        return Some(fault);
    }
    first(
        usage_fault(answers, source, 1),
        usage_fault(answers, target, 2),
    )
}

/// 15 for a copy of no regions, 28 for one of too many.
#[tactic(auto, unfolding(gfx_model::specs::Checks::broken))]
fn count_fault<A: Answers>(answers: &A, count: usize) -> Option<Fault>
    ensures { result ≡ words.first_broken (A.view answers.now) (table.value (nat_le 1 count) ∷ table.limit (nat_le count max_regions) ∷ []) }
{
    first(
        unless(1 <= count, Fault::BadValue),
        unless(count <= MAX_REGIONS, Fault::LimitReached),
    )
}

/// The fault of CmdCopyBuffer.
pub fn cmd_copy_buffer<A: Answers>(
    answers: &A,
    cb: u64,
    source: u64,
    target: u64,
    regions: &[BufferRegion],
) -> Option<Fault>
    ensures { result ≡ words.first_broken (A.view answers.now) (row_of (CmdCopyBuffer cb source target regions.now)) }
{
    if let Some(fault) = copied_fault(answers, cb, Kind::Buffer, source, Kind::Buffer, target) {
        return Some(fault);
    }
    if let Some(fault) = count_fault(answers, regions.len()) {
        return Some(fault);
    }
    let sizes = buffer_sizes(answers, regions);
    let items = first(sizes, buffer_regions_in(answers, source, target, regions));
    first(items, copies_fit(answers, cb, source, target, regions))
}

/// 24 unless texels of both images have one size.
#[tactic(auto, unfolding(gfx_model::specs::Checks::broken))]
fn texel_fault<A: Answers>(answers: &A, source: u64, target: u64) -> Option<Fault>
    ensures { result ≡ words.broken (A.view answers.now) (words.Check.same_texel source target) }
{
    let is_same = texel(answers, source) == texel(answers, target);
    unless(is_same, Fault::FormatDiffers)
}

/// The prefix of CmdCopyImage, up to its regions.
fn images_front<A: Answers>(
    answers: &A,
    cb: u64,
    source: u64,
    source_layout: u32,
    target: u64,
    target_layout: u32,
    count: usize,
) -> Option<Fault>
    ensures { result ≡ words.first_broken (A.view answers.now) (words.Check.live kind.CommandBuffer cb ∷ words.Check.recording cb
        ∷ table.copied cb kind.Image source kind.Image target
        ++ table.value (words.is_among source_layout (6 ∷ 1 ∷ []) && words.is_among target_layout (7 ∷ 1 ∷ [])) ∷ words.Check.same_texel source target
        ∷ table.value (nat_le 1 count) ∷ table.limit (nat_le count max_regions) ∷ []) }
{
    let fine = both(
        is_either(source_layout, 6, 1),
        is_either(target_layout, 7, 1),
    );
    if let Some(fault) = copied_fault(answers, cb, Kind::Image, source, Kind::Image, target) {
        return Some(fault);
    }
    if !fine {
        return Some(Fault::BadValue);
    }
    if let Some(fault) = texel_fault(answers, source, target) {
        return Some(fault);
    }
    count_fault(answers, count)
}

/// The fault of CmdCopyImage.
pub fn cmd_copy_image<A: Answers>(
    answers: &A,
    cb: u64,
    source: u64,
    source_layout: u32,
    target: u64,
    target_layout: u32,
    regions: &[ImageRegion],
) -> Option<Fault>
    ensures { result ≡ words.first_broken (A.view answers.now) (row_of (CmdCopyImage cb source source_layout target target_layout regions.now)) }
{
    match images_front(
        answers,
        cb,
        source,
        source_layout,
        target,
        target_layout,
        regions.len(),
    ) {
        Some(fault) => Some(fault),
        None => {
            let extents = image_extents(answers, regions);
            let items = first(extents, image_regions_in(answers, source, target, regions));
            first(
                items,
                image_copies_fit(
                    answers,
                    cb,
                    source,
                    source_layout,
                    target,
                    target_layout,
                    regions,
                ),
            )
        }
    }
}

/// The prefix of a copy between a buffer and an image, up to its regions. The image's layout is the usual one, or GENERAL.
fn mixed_front<A: Answers>(
    answers: &A,
    cb: u64,
    of: Kind,
    source: u64,
    to: Kind,
    target: u64,
    layout: u32,
    usual: u32,
    count: usize,
) -> Option<Fault>
    ensures { result ≡ words.first_broken (A.view answers.now) (words.Check.live kind.CommandBuffer cb ∷ words.Check.recording cb
        ∷ table.copied cb of source to target ++ table.value (words.is_among layout (usual ∷ 1 ∷ []))
        ∷ table.value (nat_le 1 count) ∷ table.limit (nat_le count max_regions) ∷ []) }
{
    if let Some(fault) = copied_fault(answers, cb, of, source, to, target) {
        return Some(fault);
    }
    if !is_either(layout, usual, 1) {
        return Some(Fault::BadValue);
    }
    count_fault(answers, count)
}

/// The regions of a copy between a buffer and an image.
fn mixed_fault<A: Answers>(
    answers: &A,
    buffer: u64,
    image: u64,
    regions: &[MixedRegion],
) -> Option<Fault>
    ensures { result ≡ words.first_broken (A.view answers.now) (flat_map (table.mixed_region_value image) regions.now ++ flat_map (table.mixed_region_in buffer image) regions.now) }
{
    let values = mixed_values(answers, image, regions);
    first(values, mixed_regions_in(answers, buffer, image, regions))
}

/// The fault of CmdCopyBufferToImage.
pub fn cmd_copy_buffer_to_image<A: Answers>(
    answers: &A,
    cb: u64,
    source: u64,
    target: u64,
    layout: u32,
    regions: &[MixedRegion],
) -> Option<Fault>
    ensures { result ≡ words.first_broken (A.view answers.now) (row_of (CmdCopyBufferToImage cb source target layout regions.now)) }
{
    let count = regions.len();
    match mixed_front(
        answers,
        cb,
        Kind::Buffer,
        source,
        Kind::Image,
        target,
        layout,
        7,
        count,
    ) {
        Some(fault) => Some(fault),
        None => {
            let items = mixed_fault(answers, source, target, regions);
            first(
                items,
                uploads_fit(answers, cb, source, target, layout, regions),
            )
        }
    }
}

/// The fault of CmdCopyImageToBuffer.
pub fn cmd_copy_image_to_buffer<A: Answers>(
    answers: &A,
    cb: u64,
    source: u64,
    layout: u32,
    target: u64,
    regions: &[MixedRegion],
) -> Option<Fault>
    ensures { result ≡ words.first_broken (A.view answers.now) (row_of (CmdCopyImageToBuffer cb source layout target regions.now)) }
{
    let count = regions.len();
    match mixed_front(
        answers,
        cb,
        Kind::Image,
        source,
        Kind::Buffer,
        target,
        layout,
        6,
        count,
    ) {
        Some(fault) => Some(fault),
        None => {
            let items = mixed_fault(answers, target, source, regions);
            first(
                items,
                downloads_fit(answers, cb, source, layout, target, regions),
            )
        }
    }
}
