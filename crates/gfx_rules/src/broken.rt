//! Whether a check is broken.

ghost use Rattle.std.specs.Prelude.{◌≡◌, ◌+◌, ◌==◌, ◌||◌, nat_le, if◌then◌else◌, is_some, false, map};
ghost use Rattle.std.specs.Option.{option_map_or};
ghost use Rattle.gfx_model.specs.Questions as asked;
ghost use Rattle.gfx_model.specs.Views as views;
ghost use Rattle.gfx_model.specs.Checks as words;
ghost use Rattle.gfx_rules.specs.Checks.{check_of};

use crate::answers::Answers;
use crate::checks::{Check, unless};
use crate::derived::{
    all_acquired, all_signalled, has_bit, has_room_for, is_area_in, is_fill_in, is_presentable,
    is_texel_multiple, pool_flags, rows_end, same_truth, some_signalled, texel,
};
use crate::ids::{images_fault, new_fault, queue_fault, room_fault};
use gfx_types::Fault;
use gfx_types::limits::MAX_FRAME;

fn is_begun<A: Answers>(answers: &A, frame: u64) -> bool
    ensures { result ≡ option_map_or (λ n. n == frame) (A.view answers.now).section false }
{
    match answers.section() {
        None => false,
        Some(begun) => begun == frame,
    }
}

/// Whether a device has no children but its queue.
fn has_queue_alone<A: Answers>(answers: &A, device: u64) -> bool
    ensures { let v = A.view answers.now in
        result ≡ (views.children v device == (if is_some (views.queue_of v device) then 1 else 0)) }
{
    let queues = if answers.queue_of(device).is_some() {
        1
    } else {
        0
    };
    answers.children(device) == queues
}

/// Whether an object lies in a memory, from an offset on.
fn lies_in<A: Answers>(answers: &A, id: u64, memory: u64, offset: u64) -> bool
    ensures { let v = A.view answers.now in
        result ≡ nat_le (offset + views.size_of v id) (views.size_of v memory) }
{
    u128::from(offset) + u128::from(answers.size_of(id)) <= u128::from(answers.size_of(memory))
}

/// Whether a command buffer may be begun: it is initial, or its pool lets it be reset.
pub fn may_begin<A: Answers>(answers: &A, cb: u64) -> bool
    ensures { let v = A.view answers.now in
        result ≡ (words.is_initial (v.buffer cb).state || asked.has_bit (views.pool_flags v cb) 2) }
{
    answers.is_initial(cb) || has_bit(pool_flags(answers, cb), 2)
}

/// Whether a memory may be filled: it is mapped, or a section is open.
fn may_fill<A: Answers>(answers: &A, memory: u64) -> bool
    ensures { let v = A.view answers.now in result ≡ (is_some v.section || is_some (v.mapped memory)) }
{
    answers.section().is_some() || answers.mapped(memory).is_some()
}

/// A row for each check: what holds unless it is broken, and its fault. What has faults of its own follows them.
macro_rules! held {
    ($check:expr, { $($other:tt)* }; $($name:ident $(($($field:ident),+))? if $holds:expr, $fault:ident;)+) => {
        match $check {
            $(Check::$name $(($($field),+))? => unless($holds, Fault::$fault),)+
            $($other)*
        }
    };
}

/// The fault of a check, where it is broken.
#[tactic(auto, unfolding(gfx_model::specs::Checks::broken))]
pub fn broken<A: Answers>(answers: &A, check: Check<'_>) -> Option<Fault>
    ensures { result ≡ words.broken (A.view answers.now) (check_of check.entry) }
{
    held!(
        check,
        {
            Check::Must(fault, holds) => unless(holds, fault),
            Check::New(id) => new_fault(answers, id),
            Check::Room(more) => room_fault(answers, more),
            Check::TheQueue(device, queue) => queue_fault(answers, device, queue),
            Check::TheImages(swapchain, images) => images_fault(answers, swapchain, images),
        };
        Inside if answers.section().is_some(), StateOrder;
        AtStart if answers.is_empty(), StateOrder;
        EndsFrame(frame) if is_begun(answers, frame), BadValue;
        Live(kind, id) if answers.is_live(kind, id), NotLive;
        Of(id, parent) if answers.parent_of(id) == parent, WrongParent;
        Near(id, other) if answers.device_of(id) == answers.device_of(other), WrongParent;
        RoomFor(more) if has_room_for(answers, more), LimitReached;
        Childless(id) if answers.children(id) == 0, HasChildren;
        ChildlessButQueue(id) if has_queue_alone(answers, id), HasChildren;
        BareSurface(id) if !answers.has_swapchain(id), HasChildren;
        FreeSurface(id) if !answers.has_swapchain(id), SwapState;
        SameInstance(id, other) if answers.parent_of(id) == answers.parent_of(other), WrongParent;
        EndsIn(id, end) if end <= u128::from(answers.size_of(id)), OutOfRange;
        RestsIn(id, memory, offset) if lies_in(answers, id, memory, offset), OutOfRange;
        Unmapped(memory) if answers.mapped(memory).is_none(), MapState;
        IsMapped(memory) if answers.mapped(memory).is_some(), MapState;
        Unbound(id) if !answers.is_bound(id), AlreadyBound;
        Usable(id) if answers.is_usable(id), NotBound;
        MayReset(cb) if has_bit(pool_flags(answers, cb), 2), PoolRule;
        TexelDivides(image, offset) if is_texel_multiple(answers, image, offset), BadValue;
        AreaIn(image, x, y, width, height)
            if is_area_in(answers, image, x, y, width, height), OutOfRange;
        RowsIn(buffer, image, offset, row, width, height)
            if rows_end(offset, row, width, height, texel(answers, image))
                <= u128::from(answers.size_of(buffer)), OutOfRange;
        TellsAll(is_so, ids) if same_truth(is_so, all_signalled(answers, ids)), ResultDiffers;
        TellsSome(is_so, ids) if same_truth(is_so, some_signalled(answers, ids)), ResultDiffers;
        Unsignalled(id) if !answers.is_signalled(id), SignalState;
        IndexIn(swapchain, index) if index < answers.images_in(swapchain), OutOfRange;
        IsAcquired(swapchain, index) if answers.is_acquired(swapchain, index), SwapState;
        NotAcquired(swapchain, index) if !answers.is_acquired(swapchain, index), SwapState;
        Presentable(swapchain, index) if is_presentable(answers, swapchain, index), LayoutDiffers;
        AllAcquired(swapchain) if all_acquired(answers, swapchain), ResultDiffers;
        FrameRoom if answers.next_frame() <= MAX_FRAME, LimitReached;
        MayFill(memory) if may_fill(answers, memory), MapState;
        FillIn(memory, offset, length) if is_fill_in(answers, memory, offset, length), OutOfRange;
        ImageBytes(image, length) if length == answers.wanted_by(image), BadValue;
        OneEach(swapchain, length)
            if length == u64::from(answers.images_in(swapchain)), BadValue;
    )
}

/// The fault of the first broken check.
pub fn first_broken<A: Answers>(answers: &A, checks: &[Check<'_>]) -> Option<Fault>
    ensures { result ≡ words.first_broken (A.view answers.now) (map check_of checks.now) }
{
    match checks {
        [] => None,
        [check, rest @ ..] => match broken(answers, *check) {
            Some(fault) => Some(fault),
            None => first_broken(answers, rest),
        },
    }
}
