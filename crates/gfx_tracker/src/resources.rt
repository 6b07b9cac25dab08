//! The rows that map memory and bind resources.
ghost use Rattle.std.specs.Prelude.{◌≡◌, ◌-◌, true, ◌==◌, if◌then◌else◌, OnOk, OnErr};
ghost use Rattle.gfx_types.specs.declared.names.Kind.TheVariants as kind;
ghost use Rattle.gfx_model.specs.Events.Event.{MapMemory, UnmapMemory, BindBufferMemory, BindImageMemory};
ghost use Rattle.gfx_model.specs.Views as view;
ghost use Rattle.gfx_objects.specs.Objects.{answers};
ghost use Rattle.gfx_tracker.specs.State.{state_answers};
ghost use Rattle.gfx_tracker.specs.Taking.{after_event, IsNext};

use crate::state::State;
use gfx_objects::Objects;
use gfx_types::WantMemory;

/// The row of MapMemory; WHOLE_SIZE maps to the end.
pub(crate) fn map_memory(state: &mut State, _device: u64, memory: u64, offset: u64, size: u64)
    requires { IsNext (state_answers state.old) (MapMemory _device memory offset size) }
    ensures { state_answers state.new ≡ after_event (state_answers state.old) (MapMemory _device memory offset size) }
{
    let length = mapped_length(&state.registry.objects, memory, offset, size);
    state.map(memory, offset, length);
}

// The bytes that a map of a live memory has.
fn mapped_length(objects: &Objects, memory: u64, offset: u64, size: u64) -> u64
    ensures { result ≡ (if size == 18446744073709551615 then view.size_of (answers objects.now) memory - offset else size) }
{
    if size == u64::MAX {
        objects.size(memory).saturating_sub(offset)
    } else {
        size
    }
}

/// The row of UnmapMemory.
pub(crate) fn unmap_memory(state: &mut State, _device: u64, memory: u64)
    requires { IsNext (state_answers state.old) (UnmapMemory _device memory) }
    ensures { state_answers state.new ≡ after_event (state_answers state.old) (UnmapMemory _device memory) }
{
    state.unmap(memory);
}

/// The row of BindBufferMemory. When out of memory all is as it was.
pub(crate) fn bind_buffer_memory(
    state: &mut State,
    _device: u64,
    buffer: u64,
    memory: u64,
    offset: u64,
) -> Result<(), WantMemory>
    requires { IsNext (state_answers state.old) (BindBufferMemory _device buffer memory offset) }
    ensures ok { OnOk result (state_answers state.new ≡ after_event (state_answers state.old) (BindBufferMemory _device buffer memory offset)) }
    ensures err { OnErr result (state_answers state.new ≡ state_answers state.old) }
{
    state.bind(buffer, memory, offset)
}

/// The row of BindImageMemory. When out of memory all is as it was.
pub(crate) fn bind_image_memory(
    state: &mut State,
    _device: u64,
    image: u64,
    memory: u64,
    offset: u64,
) -> Result<(), WantMemory>
    requires { IsNext (state_answers state.old) (BindImageMemory _device image memory offset) }
    ensures ok { OnOk result (state_answers state.new ≡ after_event (state_answers state.old) (BindImageMemory _device image memory offset)) }
    ensures err { OnErr result (state_answers state.new ≡ state_answers state.old) }
{
    state.bind(image, memory, offset)
}
