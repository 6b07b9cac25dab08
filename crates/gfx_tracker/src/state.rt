//! What follows the effects of a capture: objects, recordings, the next frame and the section.
//!
//! It has one method for each step of a history, so that no row of the table of calls knows how anything is kept.
ghost use Rattle.std.specs.Prelude.{◌≡◌, ◌+◌, ◌<◌, ◌≤◌, ◌^◌, ◌==◌, ◌&&◌, ◌||◌, [], true, false, None, IsTrue, is_some, length, if◌then◌else◌, OnOk, OnErr};
ghost use Rattle.std.specs.List.{AllByRecursion, list_any};
ghost use Rattle.gfx_types.specs.declared.names.Kind.TheVariants as kind;
ghost use Rattle.gfx_model.specs.Steps.Step.{taken, begins_section, ends_section, creates, ends, binds, maps, unmaps, begins, records, finishes, resets, resets_pool, executed, signals, unsignals, acquires, gives_back, changes, presents};
ghost use Rattle.gfx_model.specs.Steps.Change.{set_layout};
ghost use Rattle.gfx_model.specs.Events.{event_of_call};
ghost use Rattle.gfx_model.specs.Spelling.{HasSpelling, spelling};
ghost use Rattle.gfx_model.specs.Questions.{passes, new_buffer, invalidated};
ghost use Rattle.gfx_model.specs.Checks.{is_recording, layouts_after};
ghost use Rattle.gfx_model.specs.Layouts.{asked_in};
ghost use Rattle.gfx_model.specs.Views as view;
ghost use Rattle.gfx_model.specs.After.{after, is_gone, buffer_after_end};
ghost use Rattle.gfx_model.specs.Limits.{max_frame, max_kept_bytes, max_kept_commands};
ghost use Rattle.gfx_table.specs.Groups.{room_in};
ghost use Rattle.gfx_objects.specs.Object.{detail_of, IsNew};
ghost use Rattle.gfx_objects.specs.Objects.{answers};
ghost use Rattle.gfx_commands.specs.Differing.{SetsLive};
ghost use Rattle.gfx_commands.specs.Recording.{names};
ghost use Rattle.gfx_commands.specs.Recordings.{buffers, commands_total, bytes_total};
ghost use Rattle.gfx_laws.specs.Lawful.{has_signal};
ghost use Rattle.gfx_tracker.specs.Registered.{images_of};
ghost use Rattle.gfx_tracker.specs.Gathered.{IsPlain, LawfulUsers};
ghost use Rattle.gfx_tracker.specs.Taking.{MayBind, MayCreate, MayEnd};

use crate::registry::Registry;
use gfx_commands::Recordings;
use gfx_objects::{Detail, Objects};
use gfx_types::{Call, Kind, WantMemory};
use std::alloc::Global;

/// What follows the effects of a capture.
#[derive(Drop)]
pub(crate) struct State {
    pub registry: Registry,
    pub recordings: Recordings,
    pub next_frame: u64,
    pub is_empty: bool,
    pub section: Option<u64>,
    ghost plain: { IsPlain (answers registry.objects).live (buffers recordings) },
}

impl State {
    ghost use Rattle.gfx_tracker.specs.State.{state_answers};

    /// Nothing was taken.
    pub(crate) fn new(alloc: Global) -> Self
        ensures { state_answers result ≡ view.view_of [] }
    {
        State {
            registry: Registry::new(alloc),
            recordings: Recordings::new(alloc),
            next_frame: 1,
            is_empty: true,
            section: None,
        }
    }

    /// An effect is taken.
    pub(crate) fn take(&mut self)
        ensures { state_answers self.new ≡ after (state_answers self.old) taken }
    {
        self.is_empty = false;
    }

    /// Creates an object, a fence or semaphore unsignalled, a swapchain with no image acquired. When out of memory all
    /// is as it was.
    pub(crate) fn create(&mut self, id: u64, parent: u64, detail: Detail) -> Result<(), WantMemory>
        requires may { MayCreate (state_answers self.old) id (detail_of detail) }
        requires new { IsNew detail }
        ensures ok { OnOk result (state_answers self.new ≡ after (state_answers self.old) (creates id parent (detail_of detail))) }
        ensures err { OnErr result (state_answers self.new ≡ state_answers self.old) }
    {
        self.registry.create(id, parent, detail)?;
        self.is_empty = false;
        Ok(())
    }

    /// Ends a live object, with what it owns: buffers that name a resource which goes become invalid.
    pub(crate) fn end(&mut self, id: u64)
        requires { MayEnd (state_answers self.old) id }
        ensures { state_answers self.new ≡ after (state_answers self.old) (ends id) }
    {
        let kind = kind_at(&self.registry.objects, id);
        end_users(&mut self.recordings, &self.registry.objects, id, kind);
        self.registry.end(id);
        self.is_empty = false;
    }

    /// Binds a live buffer or image to a live memory, at an offset in bytes from which it ends inside the memory. For
    /// a lack of memory all is as it was.
    pub(crate) fn bind(&mut self, id: u64, memory: u64, offset: u64) -> Result<(), WantMemory>
        requires { MayBind (state_answers self.old) id memory offset }
        ensures ok { OnOk result (state_answers self.new ≡ after (state_answers self.old) (binds id memory offset)) }
        ensures err { OnErr result (state_answers self.new ≡ state_answers self.old) }
    {
        self.registry.bind(id, memory, offset)?;
        self.is_empty = false;
        Ok(())
    }

    /// Maps bytes of a live memory, from an offset on.
    pub(crate) fn map(&mut self, memory: u64, offset: u64, length: u64)
        requires { IsTrue (view.is_live (state_answers self.old) kind.Memory memory) }
        ensures { state_answers self.new ≡ after (state_answers self.old) (maps memory offset length) }
    {
        self.registry.map(memory, offset, length);
        self.is_empty = false;
    }

    /// Takes the map of a live memory away.
    pub(crate) fn unmap(&mut self, memory: u64)
        requires { IsTrue (view.is_live (state_answers self.old) kind.Memory memory) }
        ensures { state_answers self.new ≡ after (state_answers self.old) (unmaps memory) }
    {
        self.registry.unmap(memory);
        self.is_empty = false;
    }

    /// Makes room for so many creations, and for as many in what the owner owns.
    pub(crate) fn reserve(&mut self, n: u32, owner: u64) -> Result<(), WantMemory>
        ensures same { state_answers self.new ≡ state_answers self.old }
        ensures ok { OnOk result (n ≤ self.new.registry.objects.spare) }
        ensures room { OnOk result (n ≤ room_in self.new.registry.objects.owned owner) }
    {
        self.registry.reserve(n, owner)
    }

    /// Creates a queue, a command buffer or an image of a swapchain, for which there is room.
    pub(crate) fn create_owned(&mut self, id: u64, parent: u64, detail: Detail)
        requires may { MayCreate (state_answers self.old) id (detail_of detail) }
        requires new { IsNew detail }
        requires plain { has_signal (detail_of detail) ≡ false }
        requires bare { images_of (detail_of detail) ≡ None }
        requires spare { 1 ≤ self.old.registry.objects.spare }
        requires owner { 1 ≤ room_in self.old.registry.objects.owned parent }
        ensures step { state_answers self.new ≡ after (state_answers self.old) (creates id parent (detail_of detail)) }
        ensures spare { self.new.registry.objects.spare + 1 ≡ self.old.registry.objects.spare }
        ensures owner { room_in self.old.registry.objects.owned parent ≤ room_in self.new.registry.objects.owned parent + 1 }
    {
        self.registry.create_owned(id, parent, detail);
        self.is_empty = false;
    }

    /// Sets the layout of a live image.
    pub(crate) fn set_layout(&mut self, image: u64, layout: u32)
        requires { IsTrue (view.is_live (state_answers self.old) kind.Image image) }
        ensures { state_answers self.new ≡ after (state_answers self.old) (changes (set_layout image layout)) }
    {
        self.registry.set_layout(image, layout);
        self.is_empty = false;
    }

    /// Sets the layouts in which a command buffer leaves images, which have to be live.
    pub(crate) fn leave_layouts(&mut self, cb: u64)
        requires { AllByRecursion (SetsLive (state_answers self.old)) (asked_in (state_answers self.old).buffer cb) }
        ensures { state_answers self.new ≡ record (state_answers self.old) { layout = layouts_after (state_answers self.old).layout (asked_in (state_answers self.old).buffer cb) } }
    {
        self.registry.leave_layouts(&self.recordings, cb);
    }

    /// Signals a live fence or semaphore.
    pub(crate) fn signal(&mut self, id: u64)
        requires { passes (λ o. has_signal o.detail) ((state_answers self.old).live id) ≡ true }
        ensures { state_answers self.new ≡ after (state_answers self.old) (signals id) }
    {
        self.registry.signal(id);
        self.is_empty = false;
    }

    /// Takes the signal of a live fence or semaphore away.
    pub(crate) fn unsignal(&mut self, id: u64)
        requires { passes (λ o. has_signal o.detail) ((state_answers self.old).live id) ≡ true }
        ensures { state_answers self.new ≡ after (state_answers self.old) (unsignals id) }
    {
        self.registry.unsignal(id);
        self.is_empty = false;
    }

    /// Acquires an image of a live swapchain.
    pub(crate) fn acquire(&mut self, swapchain: u64, index: u32)
        requires live { view.is_live (state_answers self.old) kind.Swapchain swapchain ≡ true }
        requires index { index < view.images_in (state_answers self.old) swapchain }
        ensures { state_answers self.new ≡ after (state_answers self.old) (acquires swapchain index) }
    {
        self.registry.acquire(swapchain, index);
        self.is_empty = false;
    }

    /// Gives an image of a live swapchain back.
    pub(crate) fn give_back(&mut self, swapchain: u64, index: u32)
        requires live { view.is_live (state_answers self.old) kind.Swapchain swapchain ≡ true }
        requires index { index < view.images_in (state_answers self.old) swapchain }
        ensures { state_answers self.new ≡ after (state_answers self.old) (gives_back swapchain index) }
    {
        self.registry.give_back(swapchain, index);
        self.is_empty = false;
    }

    /// Begins to record into a live command buffer. When out of memory all is as it was.
    pub(crate) fn begin(&mut self, cb: u64, flags: u32) -> Result<(), WantMemory>
        requires { view.is_live (state_answers self.old) kind.CommandBuffer cb ≡ true }
        ensures ok { OnOk result (state_answers self.new ≡ after (state_answers self.old) (begins cb flags)) }
        ensures err { OnErr result (state_answers self.new ≡ state_answers self.old) }
    {
        self.recordings.begin(cb, flags)?;
        self.is_empty = false;
        Ok(())
    }

    /// Adds a command to a live buffer that is recording. When out of memory all is as it was.
    pub(crate) fn record(&mut self, cb: u64, call: &Call<'_>) -> Result<(), WantMemory>
        requires live { view.is_live (state_answers self.old) kind.CommandBuffer cb ≡ true }
        requires recording { IsTrue (is_recording ((state_answers self.old).buffer cb).state) }
        requires spelled { HasSpelling 1 (event_of_call call.now) }
        requires few { commands_total self.old.recordings + 1 ≤ max_kept_commands }
        requires small { bytes_total self.old.recordings + length (spelling 1 (event_of_call call.now)) ≤ max_kept_bytes }
        ensures ok { OnOk result (state_answers self.new ≡ after (state_answers self.old) (records cb (event_of_call call.now))) }
        ensures err { OnErr result (state_answers self.new ≡ state_answers self.old) }
    {
        self.registry.objects.note_device(cb);
        self.recordings.add(cb, call)?;
        self.is_empty = false;
        Ok(())
    }

    /// Ends the recording of a live buffer.
    pub(crate) fn finish(&mut self, cb: u64)
        requires live { view.is_live (state_answers self.old) kind.CommandBuffer cb ≡ true }
        requires recording { IsTrue (is_recording ((state_answers self.old).buffer cb).state) }
        ensures { state_answers self.new ≡ after (state_answers self.old) (finishes cb) }
    {
        self.recordings.end(cb);
        self.is_empty = false;
    }

    /// A command buffer is as a new one.
    pub(crate) fn reset(&mut self, cb: u64)
        ensures { state_answers self.new ≡ after (state_answers self.old) (resets cb) }
    {
        self.recordings.reset(cb);
        self.is_empty = false;
    }

    /// All command buffers of a pool are as new ones.
    pub(crate) fn reset_pool(&mut self, pool: u64)
        ensures { state_answers self.new ≡ after (state_answers self.old) (resets_pool pool) }
    {
        reset_each(&mut self.recordings, self.registry.objects.owned(pool));
        self.is_empty = false;
    }

    /// A command buffer was executed.
    pub(crate) fn execute(&mut self, cb: u64)
        ensures { state_answers self.new ≡ after (state_answers self.old) (executed cb) }
    {
        self.recordings.executed(cb);
        self.is_empty = false;
    }

    /// A section begins, before a frame.
    pub(crate) fn begin_section(&mut self, frame: u64)
        ensures { state_answers self.new ≡ after (state_answers self.old) (begins_section frame) }
    {
        self.next_frame = frame;
        self.is_empty = false;
        self.section = Some(frame);
    }

    /// The section ends.
    pub(crate) fn end_section(&mut self)
        ensures { state_answers self.new ≡ after (state_answers self.old) ends_section }
    {
        self.is_empty = false;
        self.section = None;
    }

    /// A frame is shown.
    pub(crate) fn present(&mut self)
        requires { (state_answers self.old).next_frame ≤ max_frame }
        ensures { state_answers self.new ≡ after (state_answers self.old) presents }
    {
        self.next_frame += 1;
        self.is_empty = false;
    }
}

// The kind of a live object.
fn kind_at(objects: &Objects, id: u64) -> Kind
    requires { is_some ((answers objects.now).live id) ≡ true }
    ensures { view.is_live (answers objects.now) result id ≡ true }
{
    let Some(object) = objects.get(id) else {
        unreachable!()
    };
    object.kind
}

// What the end of a live object makes of the command buffers. A memory and a swapchain take resources with them; of
// other objects commands name buffers and images alone, and no buffer is visited where a fence or a device ends.
fn end_users(recordings: &mut Recordings, objects: &Objects, gone: u64, kind: Kind)
    requires kind { view.is_live (answers objects.now) kind gone ≡ true }
    requires plain { IsPlain (answers objects.now).live (buffers recordings.old) }
    requires lawful { ∥ LawfulUsers (answers objects.now) (buffers recordings.old) ∥₁ }
    ensures { buffers recordings.new ≡ (λ x. if is_gone (answers objects.now) gone x then new_buffer else buffer_after_end (answers objects.now) gone (buffers recordings.old x)) }
{
    match kind {
        Kind::Memory => invalidate_each(recordings, objects.resting(gone)),
        Kind::Swapchain => invalidate_each(recordings, objects.owned(gone)),
        Kind::Buffer => recordings.invalidate_users(gone),
        Kind::Image => recordings.invalidate_users(gone),
        Kind::Pool => reset_each(recordings, objects.owned(gone)),
        Kind::CommandBuffer => recordings.reset(gone),
        Kind::Instance => {}
        Kind::Surface => {}
        Kind::Device => {}
        Kind::Queue => {}
        Kind::Fence => {}
        Kind::Semaphore => {}
    }
}

// Command buffers are as new ones.
fn reset_each(recordings: &mut Recordings, cbs: &[u64])
    ensures { buffers recordings.new ≡ (λ x. if list_any (λ cb. cb == x) cbs.now then new_buffer else buffers recordings.old x) }
{
    'cbs: for cb in cbs {
        recordings.reset(*cb);
    }
}

// Command buffers that name one of the resources become invalid.
fn invalidate_each(recordings: &mut Recordings, resources: &[u64])
    ensures { buffers recordings.new ≡ (λ x. invalidated (list_any (λ r. names r (buffers recordings.old x)) resources.now) (buffers recordings.old x)) }
{
    'resources: for resource in resources {
        recordings.invalidate_users(*resource);
    }
}
