//! The first command buffer of a call that does not meet the layouts that it asks for.
ghost use Rattle.std.specs.Prelude.{◌≡◌, ℕ, ◌<◌, ◌≤◌, ◌+◌, true, false, not, None, IfSome, length, unwrap_or};
ghost use Rattle.std.specs.List.{AllByRecursion};
ghost use Rattle.gfx_model.specs.Checks.{layouts_after, meets};
ghost use Rattle.gfx_model.specs.Layouts.{asked_in, cbs_at, executed_before, layouts_by};
ghost use Rattle.gfx_model.specs.Limits.{max_submits, max_submit_buffers};
ghost use Rattle.gfx_objects.specs.Objects.{answers};
ghost use Rattle.gfx_commands.specs.Laid.{IsLaid};
ghost use Rattle.gfx_commands.specs.Uses.{use_of, suits};
ghost use Rattle.gfx_commands.specs.Recordings.{buffers};
ghost use Rattle.gfx_commands.specs.Differing.{AreMet, IsFirstDiffering, IsReached, layouts_at, meets_at, SetsLive};

use crate::laid::Laid;
use crate::recordings::Recordings;
use crate::uses::Uses;
use gfx_objects::Objects;
use gfx_types::{Submit, Submits};

/// A place of a call: the command buffer at `at` of its submit `submit`, or behind its last.
#[derive(Clone, Copy)]
pub(crate) struct Place<'s> {
    pub(crate) submits: &'s [Submit],
    pub(crate) submit: usize,
    pub(crate) at: usize,
}

impl Recordings {
    /// The first place of a call, as a submit and a place among its command buffers, at which a command buffer does not
    /// meet its layouts after all that the call executes before it. Where memory for a table is found it is found sooner, and
    /// the answer is the same.
    pub fn differs_at(&self, submits: &Submits, objects: &Objects) -> Option<(u32, u32)>
        requires all { length submits.now ≤ max_submits }
        requires each { (submit : ℕ) → length (cbs_at submits.now submit) ≤ max_submit_buffers }
        ensures { IsFirstDiffering (buffers self.now) (answers objects.now).layout submits.now result }
    {
        let all = submits.items();
        let mut laid = Laid::new(self.allocator());
        'submits: for submit in 0..all.len() {
            if let Some(at) = self.differs_in(all, submit, objects, &mut laid) {
                return Some((submit as u32, at as u32));
            }
        }
        None
    }

    // The first command buffer of a submit that does not meet its layouts, where all before the submit meet theirs.
    fn differs_in(
        &self,
        submits: &[Submit],
        submit: usize,
        objects: &Objects,
        laid: &mut Laid,
    ) -> Option<usize>
        requires submit { submit < length submits.now }
        requires met { AreMet (buffers self.now) (answers objects.now).layout (executed_before submits.now submit 0) }
        requires laid { IsLaid laid.old (answers objects.now).layout (layouts_by (buffers self.now) (answers objects.now).layout (executed_before submits.now submit 0)) }
        ensures inside { IfSome result (λ at. at < length (cbs_at submits.now submit)) }
        ensures differs { IfSome result (λ at. meets_at (buffers self.now) (answers objects.now).layout submits.now submit at ≡ false) }
        ensures before { (at : ℕ) → at < length (cbs_at submits.now submit) → IfSome result (λ place. at < place)
            → meets_at (buffers self.now) (answers objects.now).layout submits.now submit at ≡ true }
        ensures met { result ≡ None → AreMet (buffers self.now) (answers objects.now).layout (executed_before submits.now (submit + 1) 0) }
        ensures laid { result ≡ None → IsLaid laid.new (answers objects.now).layout (layouts_by (buffers self.now) (answers objects.now).layout (executed_before submits.now (submit + 1) 0)) }
    {
        let cbs = submits[submit].cbs.items();
        'buffers: for at in 0..cbs.len() {
            let place = Place {
                submits,
                submit,
                at,
            };
            if self.layout_differs(place, cbs[at], objects, laid) {
                return Some(at);
            }
        }
        None
    }

    // Whether the buffer at a place of a call meets a layout other than the one that it asks for. Where it meets each, the layouts
    // that it leaves are laid.
    fn layout_differs(&self, place: Place<'_>, cb: u64, objects: &Objects, laid: &mut Laid) -> bool
        requires reached { IsReached (buffers self.now) (answers objects.now).layout place }
        requires laid { IsLaid laid.old (answers objects.now).layout (layouts_at (buffers self.now) (answers objects.now).layout place) }
        ensures differs { result ≡ not (meets (layouts_at (buffers self.now) (answers objects.now).layout place.entry) (asked_in (buffers self.now) cb)) }
        ensures laid { result ≡ false → IsLaid laid.new (answers objects.now).layout (layouts_after (layouts_at (buffers self.now) (answers objects.now).layout place.entry) (asked_in (buffers self.now) cb)) }
    {
        let Some(uses) = self.uses(cb) else {
            return false;
        };
        if !uses.agrees || self.image_differs(uses, place, objects, laid) {
            return true;
        }
        laid.leave(uses);
        false
    }

    // Whether an image has another layout than the uses need, before the place of the call.
    fn image_differs(&self, uses: &Uses, place: Place<'_>, objects: &Objects, laid: &Laid) -> bool
        requires reached { IsReached (buffers self.now) (answers objects.now).layout place }
        requires laid { IsLaid laid.now (answers objects.now).layout (layouts_at (buffers self.now) (answers objects.now).layout place) }
        ensures differs { result ≡ true → (x : ℕ) × (suits (use_of uses.now.table.map x).wanted (layouts_at (buffers self.now) (answers objects.now).layout place.entry x) ≡ false) }
        ensures suits { result ≡ false → (x : ℕ) → suits (use_of uses.now.table.map x).wanted (layouts_at (buffers self.now) (answers objects.now).layout place.entry x) ≡ true }
    {
        'images: for image in uses.ids() {
            if self.wants_another(uses, place, objects, laid, *image) {
                return true;
            }
        }
        false
    }

    // Whether this image has another layout than the uses need.
    fn wants_another(
        &self,
        uses: &Uses,
        place: Place<'_>,
        objects: &Objects,
        laid: &Laid,
        image: u64,
    ) -> bool
        requires reached { IsReached (buffers self.now) (answers objects.now).layout place }
        requires laid { IsLaid laid.now (answers objects.now).layout (layouts_at (buffers self.now) (answers objects.now).layout place) }
        ensures { result ≡ not (suits (use_of uses.now.table.map image).wanted (layouts_at (buffers self.now) (answers objects.now).layout place.entry image)) }
    {
        match uses.get(image).wanted {
            Some(wanted) => wanted != self.layout_before(place, objects, laid, image),
            None => false,
        }
    }

    // The layout of an image before the place of the call, where all before the place meet theirs.
    fn layout_before(&self, place: Place<'_>, objects: &Objects, laid: &Laid, image: u64) -> u32
        requires reached { IsReached (buffers self.now) (answers objects.now).layout place }
        requires laid { IsLaid laid.now (answers objects.now).layout (layouts_at (buffers self.now) (answers objects.now).layout place) }
        ensures { result ≡ layouts_at (buffers self.now) (answers objects.now).layout place.entry image }
    {
        if laid.is_whole {
            laid.layout(image, objects)
        } else {
            self.layout_sought(place, objects, image)
        }
    }

    // The layout of an image before the place of the call, found without memory: the newest buffer before the place that
    // asks for the image decides.
    fn layout_sought(&self, place: Place<'_>, objects: &Objects, image: u64) -> u32
        requires reached { IsReached (buffers self.now) (answers objects.now).layout place }
        ensures { result ≡ layouts_at (buffers self.now) (answers objects.now).layout place.entry image }
    {
        let Place {
            submits,
            submit,
            at,
        } = place;
        if let Some(layout) = self.known_by(&submits[submit].cbs.items()[..at], image) {
            return layout;
        }
        let mut end = submit;
        'submits: while end > 0 {
            end -= 1;
            if let Some(layout) = self.known_by(submits[end].cbs.items(), image) {
                return layout;
            }
        }
        objects.layout(image)
    }

    // The layout in which these buffers leave an image, where they meet theirs and one of them asks for the image.
    fn known_by(&self, cbs: &[u64], image: u64) -> Option<u32>
        ensures { (layout : ℕ → ℕ) → AreMet (buffers self.now) layout cbs.now → layouts_by (buffers self.now) layout cbs.now image ≡ unwrap_or result (layout image) }
    {
        let mut end = cbs.len();
        'buffers: while end > 0 {
            end -= 1;
            if let Some(layout) = self.known_in(cbs[end], image) {
                return Some(layout);
            }
        }
        None
    }

    /// Sets the layouts in which the commands of a buffer leave images, which have to be live.
    pub fn leave_layouts(&self, cb: u64, objects: &mut Objects)
        requires { AllByRecursion (SetsLive (answers objects.old)) (asked_in (buffers self.now) cb) }
        ensures layouts { answers objects.new ≡ record (answers objects.old) { layout = layouts_after (answers objects.old).layout (asked_in (buffers self.now) cb) } }
        ensures spare { objects.new.spare ≡ objects.old.spare }
    {
        let Some(uses) = self.uses(cb) else {
            return;
        };
        'images: for image in uses.ids() {
            if let Some(layout) = uses.get(*image).left {
                objects.set_layout(*image, layout);
            }
        }
    }

    // The layout in which this buffer leaves an image, where it meets its layouts and asks for the image.
    fn known_in(&self, cb: u64, image: u64) -> Option<u32>
        ensures { (layout : ℕ → ℕ) → meets layout (asked_in (buffers self.now) cb) ≡ true → layouts_after layout (asked_in (buffers self.now) cb) image ≡ unwrap_or result (layout image) }
    {
        match self.uses(cb) {
            Some(uses) => uses.get(image).known(),
            None => None,
        }
    }
}
