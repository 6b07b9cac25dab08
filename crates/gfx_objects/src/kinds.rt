//! Numbers of kinds.
ghost use Rattle.std.specs.Prelude.{◌≡◌, ◌+◌, ◌<◌};
ghost use Rattle.gfx_model.specs.Steps.{kind_number};

use gfx_types::Kind;

/// The kinds, counted from 0.
pub(crate) fn number_of(kind: Kind) -> usize
    ensures number { result + 1 ≡ kind_number kind }
    ensures bound { result < 12 }
{
    match kind {
        Kind::Instance => 0,
        Kind::Surface => 1,
        Kind::Device => 2,
        Kind::Queue => 3,
        Kind::Memory => 4,
        Kind::Buffer => 5,
        Kind::Image => 6,
        Kind::Pool => 7,
        Kind::CommandBuffer => 8,
        Kind::Fence => 9,
        Kind::Semaphore => 10,
        Kind::Swapchain => 11,
    }
}
