//! What the commands of a buffer ask of each resource that they name.
ghost use Rattle.std.specs.Prelude.{◌≡◌, ◌≤◌, ◌++◌, ◌∷◌, [], ℕ, List, true, length, map, is_some, slice_get, OnOk, None};
ghost use Rattle.std.specs.List.{list_all};
ghost use Rattle.std.specs.FinMap as finmap;
ghost use Rattle.gfx_table.specs.Dense.{is_listed};
ghost use Rattle.gfx_model.specs.Events.{event_of_call};
ghost use Rattle.gfx_model.specs.Steps.{resources_of};
ghost use Rattle.gfx_model.specs.Checks.{Layouts, layouts_of};
ghost use Rattle.gfx_model.specs.Checks.Layouts.{stays, goes};
ghost use Rattle.gfx_commands.specs.Uses.{IsIndex, HasPlaces, plain, use_of, known, accepts, asked, lets_go, gone};

use gfx_table::Dense;
use gfx_types::{Barrier, Call};
use std::alloc::{AllocError, Global};

/// What the commands ask of a resource: the layout that it must have before them, and the one that it has after them
/// where they change it.
#[derive(Clone, Copy, Debug, PartialEq, Eq)]
pub(crate) struct Use {
    pub(crate) wanted: Option<u32>,
    pub(crate) left: Option<u32>,
}

/// A use for each resource that the commands name, and whether there are layouts with which they can be executed.
#[derive(Drop)]
pub(crate) struct Uses {
    pub(crate) table: Dense<Use>,
    pub(crate) agrees: bool,
}

impl Use {
    /// Nothing is asked.
    fn none() -> Use
        ensures { result ≡ plain }
    {
        Use {
            wanted: None,
            left: None,
        }
    }

    /// The layout that the image has by now, as far as the commands tell.
    pub(crate) fn known(&self) -> Option<u32>
        ensures { result ≡ known self.now }
    {
        self.left.or(self.wanted)
    }

    /// Whether the commands so far leave the image in this layout, or may do so.
    fn accepts(&self, layout: u32) -> bool
        ensures { result ≡ accepts self.now layout }
    {
        match self.known() {
            Some(known) => known == layout,
            None => true,
        }
    }

    /// The use of an image that is asked for in this layout.
    fn asked(self, layout: u32) -> Use
        ensures { result ≡ asked self layout }
    {
        match self.known() {
            Some(_) => self,
            None => Use {
                wanted: Some(layout),
                ..self
            },
        }
    }

    /// Whether a barrier may take the image from this layout.
    fn lets_go(&self, before: u32) -> bool
        ensures { result ≡ lets_go self.now before }
    {
        before == 0 || self.accepts(before)
    }

    /// The use of an image that a barrier takes from one layout to another.
    fn gone(self, before: u32, after: u32) -> Use
        ensures { result ≡ gone self before after }
    {
        let asked = if before == 0 {
            self
        } else {
            self.asked(before)
        };
        Use {
            left: Some(after),
            ..asked
        }
    }
}

impl Uses {
    /// No resources.
    pub(crate) fn new(alloc: Global) -> Self
        ensures { IsIndex result.table.map result.agrees [] [] }
    {
        Uses {
            table: Dense::new(alloc),
            agrees: true,
        }
    }

    /// What is asked of the resource.
    pub(crate) fn get(&self, id: u64) -> Use
        ensures { result ≡ use_of self.now.table.map id }
    {
        match self.table.get(id) {
            Some(used) => *used,
            None => Use::none(),
        }
    }

    /// Makes room for the resources of a command, which are perhaps known to be named.
    pub(crate) fn reserve(&mut self, call: &Call<'_>, is_known: bool) -> Result<(), AllocError>
        requires { is_known ≡ true → list_all (λ x. is_some (finmap.get self.old.table.map x)) (resources_of (event_of_call call.now)) ≡ true }
        ensures map { self.new.table.map ≡ self.old.table.map }
        ensures agrees { self.new.agrees ≡ self.old.agrees }
        ensures ok { OnOk result (HasPlaces self.new.table (resources_of (event_of_call call.now))) }
    {
        if is_known {
            return Ok(());
        }
        self.table.reserve(resources_in(call))
    }

    // A resource that is named.
    fn name(&mut self, id: u64)
        requires { finmap.get self.old.table.map id ≡ None → 1 ≤ self.old.table.spare }
        ensures index { (named : List ℕ) (asks : List Layouts) → IsIndex self.old.table.map self.old.agrees named asks
            → IsIndex self.new.table.map self.new.agrees (named ++ id ∷ []) asks }
        ensures places { (rest : List ℕ) → HasPlaces self.old.table (id ∷ rest) → HasPlaces self.new.table rest }
    {
        if !self.names(id) {
            self.table.set(id, Use::none());
        }
    }

    // An image that must have a layout.
    fn ask(&mut self, image: u64, layout: u32)
        requires { finmap.get self.old.table.map image ≡ None → 1 ≤ self.old.table.spare }
        ensures index { (named : List ℕ) (asks : List Layouts) → IsIndex self.old.table.map self.old.agrees named asks
            → IsIndex self.new.table.map self.new.agrees (named ++ image ∷ []) (asks ++ stays image layout ∷ []) }
        ensures places { (rest : List ℕ) → HasPlaces self.old.table (image ∷ rest) → HasPlaces self.new.table rest }
    {
        match self.table.get_mut(image) {
            Some(used) => {
                self.agrees = self.agrees && used.accepts(layout);
                *used = used.asked(layout);
            }
            None => self.table.set(image, Use::none().asked(layout)),
        }
    }

    // An image that a barrier takes from one layout to another.
    fn change(&mut self, image: u64, before: u32, after: u32)
        requires { finmap.get self.old.table.map image ≡ None → 1 ≤ self.old.table.spare }
        ensures index { (named : List ℕ) (asks : List Layouts) → IsIndex self.old.table.map self.old.agrees named asks
            → IsIndex self.new.table.map self.new.agrees (named ++ image ∷ []) (asks ++ goes image before after ∷ []) }
        ensures places { (rest : List ℕ) → HasPlaces self.old.table (image ∷ rest) → HasPlaces self.new.table rest }
    {
        match self.table.get_mut(image) {
            Some(used) => {
                self.agrees = self.agrees && used.lets_go(before);
                *used = used.gone(before, after);
            }
            None => self.table.set(image, Use::none().gone(before, after)),
        }
    }

    // The images of barriers, each taken from one layout to another.
    fn change_all(&mut self, barriers: &[Barrier])
        requires { HasPlaces self.old.table (map (λ b. b.image) barriers.now) }
        ensures { (named : List ℕ) (asks : List Layouts) → IsIndex self.old.table.map self.old.agrees named asks
            → IsIndex self.new.table.map self.new.agrees (named ++ map (λ b. b.image) barriers.now) (asks ++ map (λ b. goes b.image b.before b.after) barriers.now) }
    {
        for barrier in barriers {
            self.change(barrier.image, barrier.before, barrier.after);
        }
    }

    /// The resources and layouts of a command. A resource that isn't named yet takes a spare place.
    #[tactic(auto, unfolding(gfx_model::specs::Steps::resources_of, gfx_model::specs::Checks::layouts_of))]
    pub(crate) fn add(&mut self, call: &Call<'_>)
        requires { HasPlaces self.old.table (resources_of (event_of_call call.now)) }
        ensures { (named : List ℕ) (asks : List Layouts) → IsIndex self.old.table.map self.old.agrees named asks
            → IsIndex self.new.table.map self.new.agrees (named ++ resources_of (event_of_call call.now)) (asks ++ layouts_of (event_of_call call.now)) }
    {
        match call {
            Call::CmdPipelineBarrier { barriers, .. } => self.change_all(barriers.items()),
            Call::CmdFillBuffer { buffer, .. } => self.name(*buffer),
            Call::CmdUpdateBuffer { buffer, .. } => self.name(*buffer),
            Call::CmdCopyBuffer { source, target, .. } => {
                self.name(*source);
                self.name(*target);
            }
            Call::CmdCopyImage {
                source,
                source_layout,
                target,
                target_layout,
                ..
            } => {
                self.ask(*source, *source_layout);
                self.ask(*target, *target_layout);
            }
            Call::CmdCopyBufferToImage {
                source,
                target,
                layout,
                ..
            } => {
                self.name(*source);
                self.ask(*target, *layout);
            }
            Call::CmdCopyImageToBuffer {
                source,
                layout,
                target,
                ..
            } => {
                self.ask(*source, *layout);
                self.name(*target);
            }
            Call::CmdClearColorImage { image, layout, .. } => self.ask(*image, *layout),
            _ => {}
        }
    }

    /// The resources that are named, each once.
    pub(crate) fn ids(&self) -> &[u64]
        ensures { (id : ℕ) → is_listed id result.now ≡ is_some (finmap.get self.now.table.map id) }
    {
        self.table.ids()
    }

    /// Nothing is asked any more.
    pub(crate) fn clear(&mut self)
        ensures { IsIndex self.new.table.map self.new.agrees [] [] }
    {
        self.table.clear();
        self.agrees = true;
    }

    /// Whether each resource that the command names is named already.
    pub(crate) fn names_all(&self, call: &Call<'_>) -> bool
        ensures { result ≡ list_all (λ x. is_some (finmap.get self.now.table.map x)) (resources_of (event_of_call call.now)) }
    {
        'resources: for at in 0..resources_in(call) {
            let Some(resource) = resource_at(call, at) else {
                unreachable!()
            };
            if !self.names(resource) {
                return false;
            }
        }
        true
    }

    /// Whether the resource is named.
    pub(crate) fn names(&self, id: u64) -> bool
        ensures { result ≡ is_some (finmap.get self.now.table.map id) }
    {
        self.table.get(id).is_some()
    }
}

/// How many resources the command names.
#[tactic(auto, unfolding(gfx_model::specs::Steps::resources_of))]
pub(crate) fn resources_in(call: &Call<'_>) -> usize
    ensures { result ≡ length (resources_of (event_of_call call.now)) }
{
    match call {
        Call::CmdPipelineBarrier { barriers, .. } => barriers.items().len(),
        Call::CmdFillBuffer { .. }
        | Call::CmdUpdateBuffer { .. }
        | Call::CmdClearColorImage { .. } => 1,
        Call::CmdCopyBuffer { .. }
        | Call::CmdCopyImage { .. }
        | Call::CmdCopyBufferToImage { .. }
        | Call::CmdCopyImageToBuffer { .. } => 2,
        _ => 0,
    }
}

/// The resource at a place of those that the command names.
#[tactic(auto, unfolding(gfx_model::specs::Steps::resources_of))]
pub(crate) fn resource_at(call: &Call<'_>, at: usize) -> Option<u64>
    ensures { result ≡ slice_get (resources_of (event_of_call call.now)) at }
{
    match call {
        Call::CmdPipelineBarrier { barriers, .. } => barriers.items().get(at).map(|b| b.image),
        Call::CmdFillBuffer { buffer, .. } | Call::CmdUpdateBuffer { buffer, .. } => {
            [*buffer].get(at).copied()
        }
        Call::CmdClearColorImage { image, .. } => [*image].get(at).copied(),
        Call::CmdCopyBuffer { source, target, .. }
        | Call::CmdCopyImage { source, target, .. }
        | Call::CmdCopyBufferToImage { source, target, .. }
        | Call::CmdCopyImageToBuffer { source, target, .. } => {
            [*source, *target].get(at).copied()
        }
        _ => None,
    }
}
