//! The ids that a range of events needs.
//!
//! Each marked id is put on a list of those that were not looked at, so that a chain of objects is walked once.
ghost use Rattle.std.specs.Prelude.{◌≡◌, ◌≤◌, ◌+◌, ◌∷◌, ◌++◌, [], List, true, flat_map, IfOk, OnOk};
ghost use Rattle.gfx_model.specs.Events.{Event, event_of, event_of_call};
ghost use Rattle.gfx_model.specs.Questions.{is_kept};
ghost use Rattle.gfx_model.specs.Views as view;
ghost use Rattle.gfx_objects.specs.Object.{detail_of};
ghost use Rattle.gfx_commands.specs.Recorded.{event_in, IsRecorded};
ghost use Rattle.gfx_tracker.specs.Tracker.{answers};
ghost use Rattle.gfx_needed.specs.Fields.{ids_in};
ghost use Rattle.gfx_needed.specs.NeededIds.{is_there};

use crate::listing::{ids_of, list_call};
use gfx_commands::{CbState, Recorded};
use gfx_objects::{Detail, Window};
use gfx_params::{ParamFault, decode};
use gfx_state::fetched;
use gfx_table::IdSet;
use gfx_tracker::Tracker;
use gfx_types::{Call, Effect, Place, WantMemory};
use std::alloc::{AllocError, Global};

/// The ids that a range of events needs of what is before it, as far as they were found. A tracker says what stands
/// there, the same in all calls. When out of memory it is of no use.
#[derive(Drop)]
pub struct NeededIds {
    marks: IdSet,
    // marked ids that were not looked at
    pending: Vec<u64>,
    alloc: Global,
}

#[tactic(auto, unfolding(crate::specs::NeededIds::is_marked))]
impl NeededIds {
    ghost use Rattle.gfx_model.specs.Views.{View};
    ghost use Rattle.gfx_needed.specs.Grounds.{grounds, linked, memory_under, named_by_commands};
    ghost use Rattle.gfx_needed.specs.NeededIds.{is_marked, IsFound, IsSearched, Marks};

    /// Of a range without events.
    pub fn new(alloc: Global) -> Self
        ensures { (v : View) → IsSearched v [] result }
    {
        NeededIds {
            marks: IdSet::new(alloc),
            pending: Vec::new(alloc),
            alloc,
        }
    }

    /// Takes down what the next effect of the range names or creates of what is before the range.
    pub fn name(&mut self, tracker: &Tracker, effect: &Effect<'_>) -> Result<(), WantMemory>
        ensures { OnOk result ((range : List Event) → IsSearched (answers tracker.now) range self.old → IsSearched (answers tracker.now) (range ++ event_of effect.now ∷ []) self.new) }
    {
        Ok(self.mark_named(tracker, effect)?)
    }

    /// Finds what these ids depend on, and what that depends on, to the end.
    pub fn follow(&mut self, tracker: &Tracker) -> Result<(), WantMemory>
        ensures { OnOk result ((range : List Event) → IsSearched (answers tracker.now) range self.old → IsFound (answers tracker.now) range (is_marked self.new)) }
    {
        'pending: while let Some(id) = self.pending.pop() {
            self.mark_grounds(tracker, id)?;
        }
        Ok(())
    }

    /// Whether the id was found.
    pub fn contains(&self, id: u64) -> bool
        ensures { result ≡ is_marked self.now id }
    {
        self.marks.contains(id)
    }

    // Marks what an effect names or creates.
    fn mark_named(&mut self, tracker: &Tracker, effect: &Effect<'_>) -> Result<(), AllocError>
        ensures { OnOk result (Marks (answers tracker.now) (ids_in (event_of effect.now)) self.old self.new) }
    {
        let ids = ids_of(self.alloc, effect)?;
        self.mark_all(tracker, &ids)
    }

    // Marks what a marked id leads to.
    fn mark_grounds(&mut self, tracker: &Tracker, id: u64) -> Result<(), AllocError>
        ensures { OnOk result (Marks (answers tracker.now) (grounds (answers tracker.now) id) self.old self.new) }
    {
        let Some(object) = tracker.objects().get(id).copied() else {
            return Ok(());
        };
        self.mark(tracker, object.parent)?;
        self.mark_memory(tracker, id)?;
        self.mark_linked(tracker, id, object.detail)
    }

    // Marks the memory under a resource.
    fn mark_memory(&mut self, tracker: &Tracker, id: u64) -> Result<(), AllocError>
        ensures { OnOk result (Marks (answers tracker.now) (memory_under (answers tracker.now) id) self.old self.new) }
    {
        match tracker.objects().window(id) {
            Some(
                Window {
                    place: Place::Memory(memory),
                    ..
                },
            ) => self.mark(tracker, memory),
            _ => Ok(()),
        }
    }

    // Marks the surface and the images of a swapchain, and what the commands of a buffer name.
    fn mark_linked(&mut self, tracker: &Tracker, id: u64, detail: Detail) -> Result<(), AllocError>
        requires { view.detail_images (detail_of detail) ≡ view.images_in (answers tracker.now) id }
        ensures { OnOk result (Marks (answers tracker.now) (linked (answers tracker.now) id (detail_of detail)) self.old self.new) }
    {
        match detail {
            Detail::Swapchain {
                surface,
                images,
                ..
            } => {
                self.mark(tracker, surface)?;
                let pictures = fetched(self.alloc, tracker.objects(), id, images)?;
                self.mark_all(tracker, &pictures)
            }
            Detail::CommandBuffer => self.mark_recorded(tracker, id),
            _ => Ok(()),
        }
    }

    // Marks what the commands of a buffer name, where it is recording or executable.
    fn mark_recorded(&mut self, tracker: &Tracker, cb: u64) -> Result<(), AllocError>
        ensures { OnOk result (Marks (answers tracker.now) (named_by_commands (answers tracker.now) cb) self.old self.new) }
    {
        match tracker.recordings().state(cb) {
            CbState::Recording | CbState::Executable => self.mark_commands(tracker, cb),
            CbState::Initial | CbState::Invalid => Ok(()),
        }
    }

    // Marks what the commands of a buffer name.
    fn mark_commands(&mut self, tracker: &Tracker, cb: u64) -> Result<(), AllocError>
        requires { is_kept ((answers tracker.now).buffer cb).state ≡ true }
        ensures { OnOk result (Marks (answers tracker.now) (flat_map ids_in ((answers tracker.now).buffer cb).commands) self.old self.new) }
    {
        let recordings = tracker.recordings();
        let _totals = recordings.totals();
        let mut k = 0;
        'commands: while let Some(command) = recordings.command(cb, k) {
            self.mark_command(tracker, &command)?;
            k += 1;
        }
        Ok(())
    }

    // Marks what a command names.
    fn mark_command(&mut self, tracker: &Tracker, command: &Recorded<'_>) -> Result<(), AllocError>
        requires { IsRecorded command.now }
        ensures { OnOk result (Marks (answers tracker.now) (ids_in (event_in command.now)) self.old self.new) }
    {
        match decode(self.alloc, 1, command.call_id, command.params) {
            Ok(call) => self.mark_call(tracker, &call),
            Err(ParamFault::BadParams) => unreachable!(),
            Err(ParamFault::WantMemory) => Err(AllocError),
        }
    }

    // Marks what a call names or creates.
    fn mark_call(&mut self, tracker: &Tracker, call: &Call<'_>) -> Result<(), AllocError>
        ensures { OnOk result (Marks (answers tracker.now) (ids_in (event_of_call call.now)) self.old self.new) }
    {
        let mut ids = Vec::new(self.alloc);
        list_call(call, &mut ids)?;
        self.mark_all(tracker, &ids)
    }

    // Marks those of the ids that are live.
    fn mark_all(&mut self, tracker: &Tracker, ids: &[u64]) -> Result<(), AllocError>
        ensures { OnOk result (Marks (answers tracker.now) ids.now self.old self.new) }
    {
        'ids: for id in ids {
            self.mark(tracker, *id)?;
        }
        Ok(())
    }

    // Marks an id that is live.
    fn mark(&mut self, tracker: &Tracker, id: u64) -> Result<(), AllocError>
        ensures { OnOk result (Marks (answers tracker.now) (id ∷ []) self.old self.new) }
    {
        if self.marks.contains(id) || !is_live(tracker, id) {
            return Ok(());
        }
        self.marks.reserve(1)?;
        self.pending.push(id)?;
        self.marks.insert(id);
        Ok(())
    }
}

// Whether an object of this id is live.
fn is_live(tracker: &Tracker, id: u64) -> bool
    ensures { result ≡ is_there (answers tracker.now) id }
{
    tracker.objects().get(id).is_some()
}
