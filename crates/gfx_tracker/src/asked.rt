//! What the checks ask of the state.
ghost use Rattle.std.specs.Prelude.{◌≡◌};
ghost use Rattle.gfx_model.specs.Events.{event_of};
ghost use Rattle.gfx_model.specs.Table.{checks_of};
ghost use Rattle.gfx_model.specs.Checks.{first_broken};
ghost use Rattle.gfx_tracker.specs.State.{state_answers};

use crate::sought;
use crate::state::State;
use gfx_commands::CbState;
use gfx_rules::Answers;
use gfx_types::{Effect, Fault, Kind, MapRange, Resource, Submits};

impl Answers for State {
    ghost view = { state_answers };

    fn is_live(&self, kind: Kind, id: u64) -> bool {
        self.registry.objects.is_live(kind, id)
    }

    fn parent_of(&self, id: u64) -> u64 {
        match self.registry.objects.get(id) {
            Some(object) => object.parent,
            None => 0,
        }
    }

    fn device_of(&self, id: u64) -> u64 {
        self.registry.objects.device_of(id)
    }

    fn was_used(&self, id: u64) -> bool {
        self.registry.objects.was_used(id)
    }

    fn object_count(&self) -> u32 {
        self.registry.objects.live()
    }

    fn live_bytes(&self) -> u64 {
        self.registry.objects.bytes()
    }

    fn children(&self, id: u64) -> u32 {
        self.registry.objects.children(id)
    }

    fn queue_of(&self, device: u64) -> Option<u64> {
        sought::queue_of(&self.registry.objects, device)
    }

    fn has_swapchain(&self, surface: u64) -> bool {
        self.registry.objects.has_swapchain(surface)
    }

    fn fetched_at(&self, swapchain: u64, place: usize) -> Option<u64> {
        sought::fetched_at(&self.registry.objects, swapchain, place)
    }

    fn size_of(&self, id: u64) -> u64 {
        self.registry.objects.size(id)
    }

    fn usage_of(&self, id: u64) -> u32 {
        self.registry.objects.usage(id)
    }

    fn format_at(&self, id: u64) -> u32 {
        self.registry.objects.format(id)
    }

    fn width_of(&self, id: u64) -> u32 {
        self.registry.objects.width(id)
    }

    fn height_of(&self, id: u64) -> u32 {
        self.registry.objects.height(id)
    }

    fn images_in(&self, swapchain: u64) -> u32 {
        self.registry.objects.images(swapchain)
    }

    fn flags_of(&self, pool: u64) -> u32 {
        self.registry.objects.flags(pool)
    }

    fn mapped(&self, memory: u64) -> Option<MapRange> {
        self.registry.objects.mapped(memory)
    }

    fn is_bound(&self, id: u64) -> bool {
        self.registry.objects.is_bound(id)
    }

    fn is_usable(&self, id: u64) -> bool {
        self.registry.objects.window(id).is_some()
    }

    fn resource(&self, kind: Kind, id: u64) -> Option<Resource> {
        self.registry.objects.resource(kind, id)
    }

    fn wanted_by(&self, image: u64) -> u64 {
        self.registry.objects.wanted(image)
    }

    fn is_recording(&self, cb: u64) -> bool {
        matches!(self.recordings.state(cb), CbState::Recording)
    }

    fn is_executable(&self, cb: u64) -> bool {
        matches!(self.recordings.state(cb), CbState::Executable)
    }

    fn is_initial(&self, cb: u64) -> bool {
        matches!(self.recordings.state(cb), CbState::Initial)
    }

    fn commands_kept(&self) -> u64 {
        u64::from(self.recordings.totals().commands)
    }

    fn bytes_kept(&self) -> u64 {
        self.recordings.totals().bytes
    }

    fn is_signalled(&self, id: u64) -> bool {
        self.registry.signals.status(id)
    }

    fn is_acquired(&self, swapchain: u64, index: u32) -> bool {
        self.registry.images.acquired(swapchain, index)
    }

    fn layout_of(&self, image: u64) -> u32 {
        self.registry.objects.layout(image)
    }

    fn next_frame(&self) -> u64 {
        self.next_frame
    }

    fn is_empty(&self) -> bool {
        self.is_empty
    }

    fn section(&self) -> Option<u64> {
        self.section
    }

    fn differs_at(&self, submits: &Submits) -> Option<(u32, u32)> {
        self.recordings.differs_at(submits, &self.registry.objects)
    }
}

impl State {
    /// The fault of the first check that an effect breaks, where it breaks one.
    pub(crate) fn fault_of(&self, effect: &Effect<'_>) -> Option<Fault>
        ensures { result ≡ first_broken (state_answers self.now) (checks_of (event_of effect.now)) }
    {
        gfx_rules::fault_of(self, effect)
    }
}
