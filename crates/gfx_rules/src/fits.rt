//! Whether there is room to keep a command.

ghost use Rattle.std.specs.Prelude.{◌≡◌, ◌+◌, ◌*◌, ◌<◌, ◌∷◌, [], length};
ghost use Rattle.gfx_model.specs.Events.Event.{CmdPipelineBarrier, CmdFillBuffer, CmdUpdateBuffer, CmdCopyBuffer, CmdCopyImage, CmdCopyBufferToImage, CmdCopyImageToBuffer, CmdClearColorImage};
ghost use Rattle.gfx_model.specs.Spelling.{spelling};
ghost use Rattle.gfx_model.specs.Checks as words;

use crate::answers::Answers;
use crate::resources::keep_fault;
use gfx_types::{Barrier, BufferRegion, Fault, ImageRegion, MixedRegion};

/// The bytes of fields that end with a list, behind `front` bytes, with `each` bytes for an item.
fn listed(front: u128, count: usize, each: u128) -> u128
    requires front { front < 33 }
    requires each { each < 33 }
    ensures { result ≡ front + (4 + each * count) }
{
    front + (4 + each * (count as u128))
}

/// 28 unless there is room to keep a CmdPipelineBarrier.
#[tactic(auto, using(crate::proofs::Sizes::barriers_size))]
pub fn barriers_fit<A: Answers>(answers: &A, cb: u64, barriers: &[Barrier]) -> Option<Fault>
    ensures { result ≡ words.first_broken (A.view answers.now) (words.Check.fits (length (spelling 1 (CmdPipelineBarrier cb barriers.now))) ∷ []) }
{
    let bytes = listed(8, barriers.len(), 16);
    keep_fault(answers, bytes)
}

/// 28 unless there is room to keep a CmdFillBuffer.
#[tactic(auto, using(crate::proofs::Sizes::fill_size))]
pub fn fill_fits<A: Answers>(
    answers: &A,
    cb: u64,
    buffer: u64,
    offset: u64,
    size: u64,
    word: u32,
) -> Option<Fault>
    ensures { result ≡ words.first_broken (A.view answers.now) (words.Check.fits (length (spelling 1 (CmdFillBuffer cb buffer offset size word))) ∷ []) }
{
    keep_fault(answers, 36)
}

/// 28 unless there is room to keep a CmdUpdateBuffer.
#[tactic(auto, using(crate::proofs::Sizes::update_size))]
pub fn update_fits<A: Answers>(
    answers: &A,
    cb: u64,
    buffer: u64,
    offset: u64,
    bytes: &[u8],
) -> Option<Fault>
    ensures { result ≡ words.first_broken (A.view answers.now) (words.Check.fits (length (spelling 1 (CmdUpdateBuffer cb buffer offset bytes.now))) ∷ []) }
{
    let size = 32 + bytes.len() as u128;
    keep_fault(answers, size)
}

/// 28 unless there is room to keep a CmdCopyBuffer.
#[tactic(auto, using(crate::proofs::Sizes::copies_size))]
pub fn copies_fit<A: Answers>(
    answers: &A,
    cb: u64,
    source: u64,
    target: u64,
    regions: &[BufferRegion],
) -> Option<Fault>
    ensures { result ≡ words.first_broken (A.view answers.now) (words.Check.fits (length (spelling 1 (CmdCopyBuffer cb source target regions.now))) ∷ []) }
{
    let bytes = listed(24, regions.len(), 24);
    keep_fault(answers, bytes)
}

/// 28 unless there is room to keep a CmdCopyImage.
#[tactic(auto, using(crate::proofs::Sizes::image_copies_size))]
pub fn image_copies_fit<A: Answers>(
    answers: &A,
    cb: u64,
    source: u64,
    source_layout: u32,
    target: u64,
    target_layout: u32,
    regions: &[ImageRegion],
) -> Option<Fault>
    ensures { result ≡ words.first_broken (A.view answers.now) (words.Check.fits (length (spelling 1 (CmdCopyImage cb source source_layout target target_layout regions.now))) ∷ []) }
{
    let bytes = listed(32, regions.len(), 24);
    keep_fault(answers, bytes)
}

/// 28 unless there is room to keep a CmdCopyBufferToImage.
#[tactic(auto, using(crate::proofs::Sizes::uploads_size))]
pub fn uploads_fit<A: Answers>(
    answers: &A,
    cb: u64,
    source: u64,
    target: u64,
    layout: u32,
    regions: &[MixedRegion],
) -> Option<Fault>
    ensures { result ≡ words.first_broken (A.view answers.now) (words.Check.fits (length (spelling 1 (CmdCopyBufferToImage cb source target layout regions.now))) ∷ []) }
{
    let bytes = listed(28, regions.len(), 32);
    keep_fault(answers, bytes)
}

/// 28 unless there is room to keep a CmdCopyImageToBuffer.
#[tactic(auto, using(crate::proofs::Sizes::downloads_size))]
pub fn downloads_fit<A: Answers>(
    answers: &A,
    cb: u64,
    source: u64,
    layout: u32,
    target: u64,
    regions: &[MixedRegion],
) -> Option<Fault>
    ensures { result ≡ words.first_broken (A.view answers.now) (words.Check.fits (length (spelling 1 (CmdCopyImageToBuffer cb source layout target regions.now))) ∷ []) }
{
    let bytes = listed(28, regions.len(), 32);
    keep_fault(answers, bytes)
}

/// 28 unless there is room to keep a CmdClearColorImage.
#[tactic(auto, using(crate::proofs::Sizes::clear_size))]
pub fn clear_fits<A: Answers>(
    answers: &A,
    cb: u64,
    image: u64,
    layout: u32,
    c0: u32,
    c1: u32,
    c2: u32,
    c3: u32,
) -> Option<Fault>
    ensures { result ≡ words.first_broken (A.view answers.now) (words.Check.fits (length (spelling 1 (CmdClearColorImage cb image layout c0 c1 c2 c3))) ∷ []) }
{
    keep_fault(answers, 36)
}
