//! The rows of commands that are no copies.

ghost use Rattle.std.specs.Prelude.{◌≡◌, ◌+◌, ◌==◌, ◌&&◌, ◌||◌, ◌++◌, ◌∷◌, [], nat_le};
ghost use Rattle.gfx_types.specs.declared.names.Kind.TheVariants as kind;
ghost use Rattle.gfx_model.specs.Events.Event.{CmdPipelineBarrier, CmdFillBuffer, CmdUpdateBuffer, CmdClearColorImage};
ghost use Rattle.gfx_model.specs.Table as table;
ghost use Rattle.gfx_model.specs.Table.{row_of};
ghost use Rattle.gfx_model.specs.Checks as words;
ghost use Rattle.gfx_model.specs.Limits.{max_update};

use crate::answers::Answers;
use crate::checks::{first, unless};
use crate::fits::{barriers_fit, clear_fits, fill_fits, update_fits};
use crate::items::{barrier_values, resource_each};
use crate::resources::{command_fault, end_fault, used_fault};
use crate::spans::span;
use crate::values::{both, either, is_either, sum};
use gfx_types::limits::{MAX_BARRIERS, MAX_UPDATE};
use gfx_types::{Barrier, Fault, Kind};

/// The fault of CmdPipelineBarrier.
pub fn cmd_pipeline_barrier<A: Answers>(answers: &A, cb: u64, barriers: &[Barrier]) -> Option<Fault>
    ensures { result ≡ words.first_broken (A.view answers.now) (row_of (CmdPipelineBarrier cb barriers.now)) }
{
    let many = unless(barriers.len() <= MAX_BARRIERS, Fault::LimitReached);
    let front = first(command_fault(answers, cb), many);
    match front {
        Some(fault) => Some(fault),
        None => {
            let images = resource_each(answers, cb, barriers);
            let items = first(images, barrier_values(answers, barriers));
            first(items, barriers_fit(answers, cb, barriers))
        }
    }
}

/// The prefix of CmdFillBuffer, up to its range.
#[tactic(auto, using(crate::proofs::Joined::must_is))]
fn fill_front<A: Answers>(
    answers: &A,
    cb: u64,
    buffer: u64,
    offset: u64,
    size: u64,
) -> Option<Fault>
    ensures { result ≡ words.first_broken (A.view answers.now) (words.Check.live kind.CommandBuffer cb ∷ words.Check.recording cb ∷ table.res kind.Buffer cb buffer
        ++ table.dst buffer ∷ table.value (table.divides 4 offset && (size == table.whole || nat_le 4 size && table.divides 4 size)) ∷ []) }
{
    let fine = both(
        offset % 4 == 0,
        either(size == u64::MAX, both(4 <= size, size % 4 == 0)),
    );
    if let Some(fault) = command_fault(answers, cb) {
        return Some(fault);
    }
    if let Some(fault) = used_fault(answers, Kind::Buffer, cb, buffer, 2) {
        return Some(fault);
    }
    unless(fine, Fault::BadValue)
}

/// The fault of CmdFillBuffer.
pub fn cmd_fill_buffer<A: Answers>(
    answers: &A,
    cb: u64,
    buffer: u64,
    offset: u64,
    size: u64,
    word: u32,
) -> Option<Fault>
    ensures { result ≡ words.first_broken (A.view answers.now) (row_of (CmdFillBuffer cb buffer offset size word)) }
{
    if let Some(fault) = fill_front(answers, cb, buffer, offset, size) {
        return Some(fault);
    }
    if let Some(fault) = span(answers, buffer, offset, size) {
        return Some(fault);
    }
    fill_fits(answers, cb, buffer, offset, size, word)
}

/// The prefix of CmdUpdateBuffer, all but the room for it.
#[tactic(auto, using(crate::proofs::Joined::must_is))]
fn update_front<A: Answers>(
    answers: &A,
    cb: u64,
    buffer: u64,
    offset: u64,
    count: u64,
) -> Option<Fault>
    ensures { result ≡ words.first_broken (A.view answers.now) (words.Check.live kind.CommandBuffer cb ∷ words.Check.recording cb ∷ table.res kind.Buffer cb buffer
        ++ table.dst buffer ∷ table.value (table.divides 4 offset && table.divides 4 count && nat_le 4 count && nat_le count max_update)
        ∷ words.Check.ends_in buffer (offset + count) ∷ []) }
{
    let whole = both(offset % 4 == 0, count % 4 == 0);
    let fine = both(both(whole, 4 <= count), count <= MAX_UPDATE);
    if let Some(fault) = command_fault(answers, cb) {
        return Some(fault);
    }
    if let Some(fault) = used_fault(answers, Kind::Buffer, cb, buffer, 2) {
        return Some(fault);
    }
    if !fine {
        return Some(Fault::BadValue);
    }
    end_fault(answers, buffer, sum(offset, count))
}

/// The fault of CmdUpdateBuffer.
pub fn cmd_update_buffer<A: Answers>(
    answers: &A,
    cb: u64,
    buffer: u64,
    offset: u64,
    bytes: &[u8],
) -> Option<Fault>
    ensures { result ≡ words.first_broken (A.view answers.now) (row_of (CmdUpdateBuffer cb buffer offset bytes.now)) }
{
    let front = update_front(answers, cb, buffer, offset, bytes.len() as u64);
    first(front, update_fits(answers, cb, buffer, offset, bytes))
}

/// 24 unless the image has a UINT format.
#[tactic(auto, unfolding(gfx_model::specs::Checks::broken))]
fn uint_fault<A: Answers>(answers: &A, image: u64) -> Option<Fault>
    ensures { result ≡ words.broken (A.view answers.now) (words.Check.uint_format image) }
{
    let is_uint = matches!(answers.format_at(image), 13 | 41 | 98);
    unless(is_uint, Fault::FormatDiffers)
}

/// The prefix of CmdClearColorImage, all but the room for it.
#[tactic(auto, using(crate::proofs::Joined::must_is))]
fn clear_front<A: Answers>(answers: &A, cb: u64, image: u64, layout: u32) -> Option<Fault>
    ensures { result ≡ words.first_broken (A.view answers.now) (words.Check.live kind.CommandBuffer cb ∷ words.Check.recording cb ∷ table.res kind.Image cb image
        ++ table.dst image ∷ table.value (words.is_among layout (7 ∷ 1 ∷ [])) ∷ words.Check.uint_format image ∷ []) }
{
    if let Some(fault) = command_fault(answers, cb) {
        return Some(fault);
    }
    if let Some(fault) = used_fault(answers, Kind::Image, cb, image, 2) {
        return Some(fault);
    }
    if !is_either(layout, 7, 1) {
        return Some(Fault::BadValue);
    }
    uint_fault(answers, image)
}

/// The fault of CmdClearColorImage.
pub fn cmd_clear_color_image<A: Answers>(
    answers: &A,
    cb: u64,
    image: u64,
    layout: u32,
    c0: u32,
    c1: u32,
    c2: u32,
    c3: u32,
) -> Option<Fault>
    ensures { result ≡ words.first_broken (A.view answers.now) (row_of (CmdClearColorImage cb image layout c0 c1 c2 c3)) }
{
    let front = clear_front(answers, cb, image, layout);
    first(
        front,
        clear_fits(answers, cb, image, layout, c0, c1, c2, c3),
    )
}
