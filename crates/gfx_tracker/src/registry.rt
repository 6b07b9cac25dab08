//! Objects, signals and acquired images, changed together by the steps of a history.
ghost use Rattle.std.specs.Prelude.{◌≡◌, ◌+◌, ◌<◌, ◌≤◌, ◌^◌, ◌==◌, ◌||◌, [], false, true, None, IsTrue, IsSome, is_some, OnOk, OnErr};
ghost use Rattle.std.specs.FinMap as finmap;
ghost use Rattle.gfx_types.specs.declared.names.Kind.TheVariants as kind;
ghost use Rattle.gfx_model.specs.Steps.Step.{creates, ends, binds, maps, unmaps, signals, unsignals, acquires, gives_back, changes};
ghost use Rattle.gfx_model.specs.Steps.Change.{set_layout};
ghost use Rattle.gfx_model.specs.Views as view;
ghost use Rattle.gfx_model.specs.After.{after};
ghost use Rattle.gfx_model.specs.Questions.{passes};
ghost use Rattle.gfx_model.specs.Limits.{max_live_bytes, max_live_objects};
ghost use Rattle.std.specs.List.{AllByRecursion};
ghost use Rattle.gfx_model.specs.Checks.{layouts_after};
ghost use Rattle.gfx_model.specs.Layouts.{asked_in};
ghost use Rattle.gfx_commands.specs.Differing.{SetsLive};
ghost use Rattle.gfx_commands.specs.Recordings.{buffers};
ghost use Rattle.gfx_table.specs.Groups.{room_in};
ghost use Rattle.gfx_laws.specs.Lawful.{has_signal};
ghost use Rattle.gfx_objects.specs.Object.{detail_of, IsNew, is_within};
ghost use Rattle.gfx_tracker.specs.Registered.{IsRegistered, images_of, with_signal, without_signal, with_images, without_images};

use gfx_commands::Recordings;
use gfx_objects::{Detail, Objects};
use gfx_swap::{Swaps, Sync};
use gfx_types::WantMemory;
use std::alloc::Global;

/// Live objects, with the signals of fences and semaphores and the marks of acquired images.
#[derive(Drop)]
pub(crate) struct Registry {
    pub objects: Objects,
    pub signals: Sync,
    pub images: Swaps,
    ghost kept: { IsRegistered objects signals images },
}

impl Registry {
    ghost use Rattle.gfx_tracker.specs.Registry.{answers_of};

    /// Nothing is live.
    pub(crate) fn new(alloc: Global) -> Self
        ensures { answers_of result ≡ record (view.view_of []) { is_empty = false } }
    {
        Registry {
            objects: Objects::new(alloc),
            signals: Sync::new(alloc),
            images: Swaps::new(alloc),
        }
    }

    /// Makes room for so many creations, and for as many in what the owner owns.
    pub(crate) fn reserve(&mut self, n: u32, owner: u64) -> Result<(), WantMemory>
        ensures same { answers_of self.new ≡ answers_of self.old }
        ensures ok { OnOk result (n ≤ self.new.objects.spare) }
        ensures room { OnOk result (n ≤ room_in self.new.objects.owned owner) }
    {
        self.objects.reserve(n, owner)
    }

    /// Creates an object, a fence or semaphore unsignalled, a swapchain with no image acquired. When out of memory all
    /// is as it was.
    pub(crate) fn create(&mut self, id: u64, parent: u64, detail: Detail) -> Result<(), WantMemory>
        requires not_zero { 0 < id }
        requires unused { (answers_of self.old).used id ≡ false }
        requires fresh { is_some ((answers_of self.old).live id) ≡ false }
        requires new { IsNew detail }
        requires within { is_within (detail_of detail) ≡ true }
        requires room { view.object_count (answers_of self.old) < max_live_objects }
        requires bytes { view.live_bytes (answers_of self.old) + view.detail_bytes (detail_of detail) ≤ max_live_bytes }
        ensures ok { OnOk result (answers_of self.new ≡ after (answers_of self.old) (creates id parent (detail_of detail))) }
        ensures err { OnErr result (answers_of self.new ≡ answers_of self.old) }
    {
        self.objects.reserve(1, parent)?;
        keep(&mut self.signals, &mut self.images, id, &detail)?;
        self.objects.create(id, parent, detail);
        Ok(())
    }

    /// Creates a queue, a command buffer or an image of a swapchain, for which there is room.
    pub(crate) fn create_owned(&mut self, id: u64, parent: u64, detail: Detail)
        requires not_zero { 0 < id }
        requires unused { (answers_of self.old).used id ≡ false }
        requires fresh { is_some ((answers_of self.old).live id) ≡ false }
        requires new { IsNew detail }
        requires within { is_within (detail_of detail) ≡ true }
        requires plain { has_signal (detail_of detail) ≡ false }
        requires bare { images_of (detail_of detail) ≡ None }
        requires room { view.object_count (answers_of self.old) < max_live_objects }
        requires bytes { view.live_bytes (answers_of self.old) + view.detail_bytes (detail_of detail) ≤ max_live_bytes }
        requires spare { 1 ≤ self.old.objects.spare }
        requires owner { 1 ≤ room_in self.old.objects.owned parent }
        ensures step { answers_of self.new ≡ after (answers_of self.old) (creates id parent (detail_of detail)) }
        ensures spare { self.new.objects.spare + 1 ≡ self.old.objects.spare }
        ensures owner { room_in self.old.objects.owned parent ≤ room_in self.new.objects.owned parent + 1 }
    {
        self.objects.create(id, parent, detail);
    }

    /// Ends a live object, with what it owns.
    pub(crate) fn end(&mut self, id: u64)
        requires { is_some ((answers_of self.old).live id) ≡ true }
        ensures { answers_of self.new ≡ after (answers_of self.old) (ends id) }
    {
        let Some(object) = self.objects.get(id).copied() else {
            unreachable!()
        };
        let_go(&mut self.signals, &mut self.images, id, &object.detail);
        self.objects.remove(id);
    }

    /// Binds a live buffer or image to a live memory, at an offset in bytes from which it ends inside the memory. For
    /// a lack of memory all is as it was.
    pub(crate) fn bind(&mut self, id: u64, memory: u64, offset: u64) -> Result<(), WantMemory>
        requires resource { IsTrue (view.is_live (answers_of self.old) kind.Buffer id || view.is_live (answers_of self.old) kind.Image id) }
        requires memory { IsTrue (view.is_live (answers_of self.old) kind.Memory memory) }
        requires inside { offset + view.size_of (answers_of self.old) id ≤ view.size_of (answers_of self.old) memory }
        ensures ok { OnOk result (answers_of self.new ≡ after (answers_of self.old) (binds id memory offset)) }
        ensures err { OnErr result (answers_of self.new ≡ answers_of self.old) }
    {
        self.objects.bind(id, memory, offset)
    }

    /// Maps bytes of a live memory, from an offset on.
    pub(crate) fn map(&mut self, memory: u64, offset: u64, length: u64)
        requires { IsTrue (view.is_live (answers_of self.old) kind.Memory memory) }
        ensures { answers_of self.new ≡ after (answers_of self.old) (maps memory offset length) }
    {
        self.objects.map(memory, offset, length);
    }

    /// Takes the map of a live memory away.
    pub(crate) fn unmap(&mut self, memory: u64)
        requires { IsTrue (view.is_live (answers_of self.old) kind.Memory memory) }
        ensures { answers_of self.new ≡ after (answers_of self.old) (unmaps memory) }
    {
        self.objects.unmap(memory);
    }

    /// Sets the layout of a live image.
    pub(crate) fn set_layout(&mut self, image: u64, layout: u32)
        requires { IsTrue (view.is_live (answers_of self.old) kind.Image image) }
        ensures { answers_of self.new ≡ after (answers_of self.old) (changes (set_layout image layout)) }
    {
        self.objects.set_layout(image, layout);
    }

    /// Sets the layouts in which a command buffer leaves images, which have to be live.
    pub(crate) fn leave_layouts(&mut self, recordings: &Recordings, cb: u64)
        requires { AllByRecursion (SetsLive (answers_of self.old)) (asked_in (buffers recordings.now) cb) }
        ensures { answers_of self.new ≡ record (answers_of self.old) { layout = layouts_after (answers_of self.old).layout (asked_in (buffers recordings.now) cb) } }
    {
        recordings.leave_layouts(cb, &mut self.objects);
    }

    /// Signals a live fence or semaphore.
    pub(crate) fn signal(&mut self, id: u64)
        requires { passes (λ o. has_signal o.detail) ((answers_of self.old).live id) ≡ true }
        ensures { answers_of self.new ≡ after (answers_of self.old) (signals id) }
    {
        self.signals.set(id, true);
    }

    /// Takes the signal of a live fence or semaphore away.
    pub(crate) fn unsignal(&mut self, id: u64)
        requires { passes (λ o. has_signal o.detail) ((answers_of self.old).live id) ≡ true }
        ensures { answers_of self.new ≡ after (answers_of self.old) (unsignals id) }
    {
        self.signals.set(id, false);
    }

    /// Acquires an image of a live swapchain.
    pub(crate) fn acquire(&mut self, swapchain: u64, index: u32)
        requires live { view.is_live (answers_of self.old) kind.Swapchain swapchain ≡ true }
        requires index { index < view.images_in (answers_of self.old) swapchain }
        ensures { answers_of self.new ≡ after (answers_of self.old) (acquires swapchain index) }
    {
        self.images.set(swapchain, index, true);
    }

    /// Gives an image of a live swapchain back.
    pub(crate) fn give_back(&mut self, swapchain: u64, index: u32)
        requires live { view.is_live (answers_of self.old) kind.Swapchain swapchain ≡ true }
        requires index { index < view.images_in (answers_of self.old) swapchain }
        ensures { answers_of self.new ≡ after (answers_of self.old) (gives_back swapchain index) }
    {
        self.images.set(swapchain, index, false);
    }
}

// Keeps the signal of a new fence or semaphore, and the marks of a new swapchain.
fn keep(signals: &mut Sync, images: &mut Swaps, id: u64, detail: &Detail) -> Result<(), WantMemory>
    ensures signals { OnOk result (signals.new ≡ with_signal id (detail_of detail.now) signals.old) }
    ensures images { OnOk result (images.new ≡ with_images id (detail_of detail.now) images.old) }
    ensures no_signals { OnErr result (signals.new ≡ signals.old) }
    ensures no_images { OnErr result (images.new ≡ images.old) }
{
    match detail {
        Detail::Fence => signals.add(id, false),
        Detail::Semaphore => signals.add(id, false),
        Detail::Swapchain { images: count, .. } => images.add(id, *count),
        _ => Ok(()),
    }
}

// Drops what was kept of a fence, a semaphore or a swapchain.
fn let_go(signals: &mut Sync, images: &mut Swaps, id: u64, detail: &Detail)
    requires signal { has_signal (detail_of detail.now) ≡ true → IsSome (finmap.get signals.old id) }
    requires marks { IsSome (images_of (detail_of detail.now)) → IsSome (finmap.get images.old id) }
    ensures signals { signals.new ≡ without_signal id (detail_of detail.now) signals.old }
    ensures images { images.new ≡ without_images id (detail_of detail.now) images.old }
{
    match detail {
        Detail::Fence => signals.remove(id),
        Detail::Semaphore => signals.remove(id),
        Detail::Swapchain { .. } => images.remove(id),
        _ => {}
    }
}
