//! The answers that checks read, given by any type.
//!
//! Rules know no crate that keeps the answers, so a change of what is kept proves no rule again. The device of an
//! object and what a command asks of a resource are one question each, since the checks would else look up one id up
//! to six times.

ghost use Rattle.std.specs.Prelude.{◌≡◌, is_some, IfSome, option_map, slice_get};
ghost use Rattle.gfx_model.specs.Questions.{range_of};
ghost use Rattle.gfx_model.specs.Views as views;
ghost use Rattle.gfx_model.specs.Checks as words;
ghost use Rattle.gfx_rules.specs.Turns.{AreFew, IsFirstDiffering};

use gfx_types::{Kind, MapRange, Resource, Submits};

/// What checks ask of a capture. Sizes, offsets and lengths are in bytes.
pub trait Answers {
    ghost use Rattle.gfx_model.specs.Views.{View};

    /// All answers, as a record.
    ghost view: { Self → View };

    /// Whether a live object of this kind has this id.
    fn is_live(&self, kind: Kind, id: u64) -> bool
        ensures { result ≡ views.is_live (view self.now) kind id };

    /// The parent of a live object, 0 for any other id.
    fn parent_of(&self, id: u64) -> u64
        ensures { result ≡ views.parent_of (view self.now) id };

    /// The device that the parents of an object lead to, 0 where there is none.
    fn device_of(&self, id: u64) -> u64
        ensures { result ≡ views.device_of (view self.now) id };

    /// Whether an object ever had this id.
    fn was_used(&self, id: u64) -> bool
        ensures { result ≡ (view self.now).used id };

    /// How many objects are live.
    fn object_count(&self) -> u32
        ensures { result ≡ views.object_count (view self.now) };

    /// The bytes of live memory and of images of live swapchains.
    fn live_bytes(&self) -> u64
        ensures { result ≡ views.live_bytes (view self.now) };

    /// How many live objects have this parent.
    fn children(&self, id: u64) -> u32
        ensures { result ≡ views.children (view self.now) id };

    /// The queue of a device, where it was fetched.
    fn queue_of(&self, device: u64) -> Option<u64>
        ensures { result ≡ views.queue_of (view self.now) device };

    /// Whether a live swapchain was created on this surface.
    fn has_swapchain(&self, surface: u64) -> bool
        ensures { result ≡ views.has_swapchain (view self.now) surface };

    /// The fetched image of a swapchain at a place.
    fn fetched_at(&self, swapchain: u64, place: usize) -> Option<u64>
        ensures { result ≡ slice_get (views.fetched (view self.now) swapchain) place };

    /// The size of a live memory, buffer or image, 0 for any other id.
    fn size_of(&self, id: u64) -> u64
        ensures { result ≡ views.size_of (view self.now) id };

    /// The usage of a live buffer or image, 0 for any other id.
    fn usage_of(&self, id: u64) -> u32
        ensures { result ≡ views.usage_of (view self.now) id };

    /// The format of a live image or swapchain, 0 for any other id.
    fn format_at(&self, id: u64) -> u32
        ensures { result ≡ views.format_at (view self.now) id };

    /// The width of a live image or swapchain, 0 for any other id.
    fn width_of(&self, id: u64) -> u32
        ensures { result ≡ views.width_of (view self.now) id };

    /// The height of a live image or swapchain, 0 for any other id.
    fn height_of(&self, id: u64) -> u32
        ensures { result ≡ views.height_of (view self.now) id };

    /// How many images a live swapchain has, 0 for any other id.
    fn images_in(&self, swapchain: u64) -> u32
        ensures { result ≡ views.images_in (view self.now) swapchain };

    /// The flags of a live pool, 0 for any other id.
    fn flags_of(&self, pool: u64) -> u32
        ensures { result ≡ views.ask views.detail_flags (view self.now) pool };

    /// The mapped range of a memory.
    fn mapped(&self, memory: u64) -> Option<MapRange>
        ensures { option_map range_of result ≡ (view self.now).mapped memory };

    /// Whether a live resource was bound.
    fn is_bound(&self, id: u64) -> bool
        ensures { result ≡ is_some ((view self.now).bound id) };

    /// Whether a resource is bound to live memory, or is an image of a live swapchain.
    fn is_usable(&self, id: u64) -> bool
        ensures { result ≡ views.is_usable (view self.now) id };

    /// What a command asks of a live object of this kind.
    fn resource(&self, kind: Kind, id: u64) -> Option<Resource>
        ensures live { is_some result ≡ views.is_live (view self.now) kind id }
        ensures parent { IfSome result (λ r. r.parent ≡ views.parent_of (view self.now) id) }
        ensures usage { IfSome result (λ r. r.usage ≡ views.usage_of (view self.now) id) }
        ensures usable { IfSome result (λ r. r.is_usable ≡ views.is_usable (view self.now) id) };

    /// How many bytes an InitImage of this image has to have.
    fn wanted_by(&self, image: u64) -> u64
        ensures { result ≡ words.wanted_by (view self.now) image };

    /// Whether a command buffer is recording.
    fn is_recording(&self, cb: u64) -> bool
        ensures { result ≡ words.is_recording ((view self.now).buffer cb).state };

    /// Whether a command buffer may be submitted.
    fn is_executable(&self, cb: u64) -> bool
        ensures { result ≡ words.is_executable ((view self.now).buffer cb).state };

    /// Whether nothing was recorded since a command buffer was made or reset; true of any other id.
    fn is_initial(&self, cb: u64) -> bool
        ensures { result ≡ words.is_initial ((view self.now).buffer cb).state };

    /// How many commands live buffers keep.
    fn commands_kept(&self) -> u64
        ensures { result ≡ views.commands_kept (view self.now) };

    /// The bytes of the fields of these commands.
    fn bytes_kept(&self) -> u64
        ensures { result ≡ views.bytes_kept (view self.now) };

    /// Whether a fence or a semaphore is signalled.
    fn is_signalled(&self, id: u64) -> bool
        ensures { result ≡ (view self.now).signalled id };

    /// Whether an image of a swapchain is acquired.
    fn is_acquired(&self, swapchain: u64, index: u32) -> bool
        ensures { result ≡ (view self.now).acquired swapchain index };

    /// The newest layout of a live image, 0 for any other id.
    fn layout_of(&self, image: u64) -> u32
        ensures { result ≡ (view self.now).layout image };

    /// The number of the next frame.
    fn next_frame(&self) -> u64
        ensures { result ≡ (view self.now).next_frame };

    /// Whether no effect was taken yet.
    fn is_empty(&self) -> bool
        ensures { result ≡ (view self.now).is_empty };

    /// The frame of the section that is begun and not ended.
    fn section(&self) -> Option<u64>
        ensures { result ≡ (view self.now).section };

    /// The first place of a call, as a submit and a place among its command buffers, at which a command buffer does not
    /// meet its layouts after all that the call executes before it. It may take memory for a table, and does without where there
    /// is none.
    fn differs_at(&self, submits: &Submits) -> Option<(u32, u32)>
        requires { AreFew submits.now }
        ensures { IsFirstDiffering (view self.now) submits.now result };
}
