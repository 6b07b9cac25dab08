//! The rows of calls on command buffers that are no commands.

ghost use Rattle.std.specs.Prelude.{◌≡◌, ◌++◌, ◌∷◌, [], nat_le};
ghost use Rattle.gfx_types.specs.declared.names.Kind.TheVariants as kind;
ghost use Rattle.gfx_model.specs.Table as table;
ghost use Rattle.gfx_model.specs.Events.Event.{AllocateCommandBuffers, FreeCommandBuffers, BeginCommandBuffer, EndCommandBuffer, ResetCommandBuffer};
ghost use Rattle.gfx_model.specs.Table.{row_of};
ghost use Rattle.gfx_model.specs.Checks as words;
ghost use Rattle.gfx_model.specs.Limits.{max_list_length};

use crate::answers::Answers;
use crate::broken::{first_broken, may_begin};
use crate::checks::{Check, first, unless};
use crate::ids::{new_faults, room_fault};
use crate::lists::{live_once, of_each};
use crate::resources::{command_fault, live_fault};
use gfx_types::limits::MAX_LIST_LENGTH;
use gfx_types::{Fault, Kind};

/// The prefix of calls that make or free command buffers of a pool.
fn pool_front<A: Answers>(answers: &A, device: u64, pool: u64, count: usize) -> Option<Fault>
    ensures { result ≡ words.first_broken (A.view answers.now) (table.of_device kind.Pool device pool ++ table.value (nat_le 1 count) ∷ table.limit (nat_le count max_list_length) ∷ []) }
{
    first_broken(
        answers,
        &[
            Check::Live(Kind::Device, device),
            Check::Live(Kind::Pool, pool),
            Check::Of(pool, device),
            Check::Must(Fault::BadValue, 1 <= count),
            Check::Must(Fault::LimitReached, count <= MAX_LIST_LENGTH),
        ],
    )
}

/// The fault of AllocateCommandBuffers.
pub fn allocate_command_buffers<A: Answers>(
    answers: &A,
    device: u64,
    pool: u64,
    buffers: &[u64],
) -> Option<Fault>
    ensures { result ≡ words.first_broken (A.view answers.now) (row_of (AllocateCommandBuffers device pool buffers.now)) }
{
    match pool_front(answers, device, pool, buffers.len()) {
        Some(fault) => Some(fault),
        None => {
            let fresh = new_faults(answers, buffers);
            first(fresh, room_fault(answers, buffers.len() as u64))
        }
    }
}

/// The fault of FreeCommandBuffers.
pub fn free_command_buffers<A: Answers>(
    answers: &A,
    device: u64,
    pool: u64,
    buffers: &[u64],
) -> Option<Fault>
    ensures { result ≡ words.first_broken (A.view answers.now) (row_of (FreeCommandBuffers device pool buffers.now)) }
{
    match pool_front(answers, device, pool, buffers.len()) {
        Some(fault) => Some(fault),
        None => {
            let once = live_once(answers, buffers);
            first(once, of_each(answers, pool, buffers))
        }
    }
}

/// The fault of BeginCommandBuffer.
#[tactic(auto, unfolding(gfx_model::specs::Table::row_of, gfx_model::specs::Checks::broken))]
pub fn begin_command_buffer<A: Answers>(answers: &A, cb: u64, flags: u32) -> Option<Fault>
    ensures { result ≡ words.first_broken (A.view answers.now) (row_of (BeginCommandBuffer cb flags)) }
{
    if let Some(fault) = live_fault(answers, Kind::CommandBuffer, cb) {
        return Some(fault);
    }
    if !matches!(flags, 0 | 1 | 4 | 5) {
        return Some(Fault::BadValue);
    }
    if answers.is_recording(cb) {
        return Some(Fault::CommandState);
    }
    unless(may_begin(answers, cb), Fault::PoolRule)
}

/// The fault of EndCommandBuffer.
#[tactic(auto, unfolding(gfx_model::specs::Table::row_of))]
pub fn end_command_buffer<A: Answers>(answers: &A, cb: u64) -> Option<Fault>
    ensures { result ≡ words.first_broken (A.view answers.now) (row_of (EndCommandBuffer cb)) }
{
    command_fault(answers, cb)
}

/// The fault of ResetCommandBuffer.
#[tactic(auto, unfolding(gfx_model::specs::Table::row_of))]
pub fn reset_command_buffer<A: Answers>(answers: &A, cb: u64) -> Option<Fault>
    ensures { result ≡ words.first_broken (A.view answers.now) (row_of (ResetCommandBuffer cb)) }
{
    first_broken(
        answers,
        &[Check::Live(Kind::CommandBuffer, cb), Check::MayReset(cb)],
    )
}
