//! The rows of metadata and markers.

ghost use Rattle.std.specs.Prelude.{◌≡◌};
ghost use Rattle.gfx_model.specs.Events.Event.{FillMemory, InitImage, SetSwapchainState, SetSemaphoreState, BeginSection, EndSection};
ghost use Rattle.gfx_model.specs.Table.{row_of};
ghost use Rattle.gfx_model.specs.Checks as words;

use crate::answers::Answers;
use crate::broken::first_broken;
use crate::checks::{Check, first};
use crate::lists::marks_each;
use crate::values::{both, is_layout};
use gfx_types::limits::MAX_FRAME;
use gfx_types::{Fault, Kind};

/// The fault of FillMemory.
#[tactic(auto, unfolding(gfx_model::specs::Table::row_of))]
pub fn fill_memory<A: Answers>(answers: &A, memory: u64, offset: u64, bytes: &[u8]) -> Option<Fault>
    ensures { result ≡ words.first_broken (A.view answers.now) (row_of (FillMemory memory offset bytes.now)) }
{
    first_broken(
        answers,
        &[
            Check::Live(Kind::Memory, memory),
            Check::Must(Fault::BadValue, 1 <= bytes.len()),
            Check::MayFill(memory),
            Check::FillIn(memory, offset, bytes.len() as u64),
        ],
    )
}

/// The fault of InitImage.
#[tactic(auto, unfolding(gfx_model::specs::Table::row_of))]
pub fn init_image<A: Answers>(answers: &A, image: u64, layout: u32, bytes: &[u8]) -> Option<Fault>
    ensures { result ≡ words.first_broken (A.view answers.now) (row_of (InitImage image layout bytes.now)) }
{
    first_broken(
        answers,
        &[
            Check::Live(Kind::Image, image),
            Check::Usable(image),
            Check::Must(Fault::BadValue, is_layout(layout)),
            Check::ImageBytes(image, bytes.len() as u64),
        ],
    )
}

/// The fault of SetSwapchainState.
pub fn set_swapchain_state<A: Answers>(
    answers: &A,
    swapchain: u64,
    acquired: &[u32],
) -> Option<Fault>
    ensures { result ≡ words.first_broken (A.view answers.now) (row_of (SetSwapchainState swapchain acquired.now)) }
{
    let front = first_broken(
        answers,
        &[
            Check::Live(Kind::Swapchain, swapchain),
            Check::OneEach(swapchain, acquired.len() as u64),
        ],
    );
    first(front, marks_each(answers, acquired))
}

/// The fault of SetSemaphoreState.
#[tactic(auto, unfolding(gfx_model::specs::Table::row_of))]
pub fn set_semaphore_state<A: Answers>(answers: &A, semaphore: u64, signalled: u32) -> Option<Fault>
    ensures { result ≡ words.first_broken (A.view answers.now) (row_of (SetSemaphoreState semaphore signalled)) }
{
    first_broken(
        answers,
        &[
            Check::Live(Kind::Semaphore, semaphore),
            Check::Must(Fault::BadValue, signalled <= 1),
        ],
    )
}

/// The fault of BeginSection.
#[tactic(auto, unfolding(gfx_model::specs::Table::row_of))]
pub fn begin_section<A: Answers>(answers: &A, frame: u64) -> Option<Fault>
    ensures { result ≡ words.first_broken (A.view answers.now) (row_of (BeginSection frame)) }
{
    first_broken(
        answers,
        &[
            Check::AtStart,
            Check::Must(Fault::BadValue, both(1 <= frame, frame <= MAX_FRAME)),
        ],
    )
}

/// The fault of EndSection.
#[tactic(auto, unfolding(gfx_model::specs::Table::row_of))]
pub fn end_section<A: Answers>(answers: &A, frame: u64) -> Option<Fault>
    ensures { result ≡ words.first_broken (A.view answers.now) (row_of (EndSection frame)) }
{
    first_broken(answers, &[Check::Inside, Check::EndsFrame(frame)])
}
