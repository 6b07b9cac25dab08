//! The replay of a capture, block by block.
//!
//! A shown frame names places and copies nothing: who prints or digests it reads the place before the next block is
//! fed. Once memory is refused in the middle of an effect the replayer answers that for good, since the tracker may be
//! ahead of the bytes.
ghost use Rattle.std.specs.Prelude.{◌≡◌, List, [], ◌∷◌, true, false, None, Some, Err, IfOk, IsSome};
ghost use Rattle.gfx_model.specs.Events.{Event, event_of};
ghost use Rattle.gfx_model.specs.Checks.{first_broken};
ghost use Rattle.gfx_model.specs.Table.{checks_of};
ghost use Rattle.gfx_model.specs.Blocks.Content.{effect as of_effect};
ghost use Rattle.gfx_blocks.specs.Payloads.{content_of};
ghost use Rattle.gfx_tracker.specs.Tracker.{answers};
ghost use Rattle.gfx_tracker.specs.Operations.{given_by};
ghost use Rattle.gfx_replay.specs.Places.{bytes_in};
ghost use Rattle.gfx_replay.specs.Stands.{Stands, HasStood};
ghost use Rattle.gfx_replay.specs.Fed.{IsTaken, rule_in, broken_by};

use crate::fault::FeedFault;
use crate::places::Places;
use crate::present::shown_frame;
use crate::shown::ShownFrame;
use crate::updates::{ending_images, update};
use gfx_device::StateBytes;
use gfx_pages::{Bytes, Span};
use gfx_tracker::Tracker;
use gfx_types::{Block, Effect, Fault, Meta, OpList, Place, WantMemory};
use std::alloc::Global;

/// The objects and bytes of a capture after the blocks that were fed, or nothing of use once no memory was found.
#[derive(Drop)]
pub struct Replayer {
    tracker: Tracker,
    places: Places,
    is_lost: bool,
    alloc: Global,
    // until no memory was found it stands for some history
    ghost standing: { is_lost ≡ false → HasStood (answers tracker) (bytes_in places) },
}

impl Replayer {
    ghost use Rattle.gfx_replay.specs.Replayer.{StandsFor, IsFed, bytes_of};

    /// Stands for the capture without blocks.
    pub fn new(alloc: Global) -> Replayer
        ensures { StandsFor result [] }
    {
        Replayer {
            tracker: Tracker::new(alloc),
            places: Places::new(alloc),
            is_lost: false,
            alloc,
        }
    }

    /// Takes a block, and gives the frame that it shows, whose bytes are those of the places of its images. After a
    /// rule fault, which comes exactly where the tracker tells one, all is as it was. Once no memory was found that is
    /// the answer to each block.
    pub fn feed(&mut self, block: &Block<'_>) -> Result<Option<ShownFrame>, FeedFault>
        ensures rule { self.old.is_lost ≡ false → rule_in result ≡ broken_by (answers self.old.tracker) (content_of block.now) }
        ensures refused { (fault : Fault) → result ≡ Err (FeedFault.Rule fault) → self.new ≡ self.old }
        ensures lost { result ≡ Err FeedFault.WantMemory → self.new.is_lost ≡ true }
        ensures stays { self.old.is_lost ≡ true → result ≡ Err FeedFault.WantMemory }
        ensures fed { IfOk result (λ shown. (h : List Event) → StandsFor self.old h → IsFed self.new h (content_of block.now) shown) }
    {
        if self.is_lost {
            return Err(FeedFault::WantMemory);
        }
        match block {
            Block::Effect { effect, .. } => self.feed_effect(effect),
            Block::Skip => Ok(None),
        }
    }

    /// The objects and states after the blocks that were fed.
    pub fn tracker(&self) -> &Tracker
        ensures { result.now ≡ self.now.tracker }
    {
        &self.tracker
    }

    /// The bytes of a place, in pages that are shared until the next blocks write there.
    pub fn share(&self, place: Place) -> Result<Bytes, WantMemory>
        requires { IsSome (bytes_of self.now place) }
        ensures { IfOk result (λ bytes. Some bytes ≡ bytes_of self.now place) }
    {
        self.places.share(place)
    }

    fn feed_effect(&mut self, effect: &Effect<'_>) -> Result<Option<ShownFrame>, FeedFault>
        requires { self.old.is_lost ≡ false }
        ensures rule { rule_in result ≡ first_broken (answers self.old.tracker) (checks_of (event_of effect.now)) }
        ensures refused { (fault : Fault) → result ≡ Err (FeedFault.Rule fault) → self.new ≡ self.old }
        ensures lost { result ≡ Err FeedFault.WantMemory → self.new.is_lost ≡ true }
        ensures fed { IfOk result (λ shown. (h : List Event) → StandsFor self.old h → IsFed self.new h (of_effect 0 (event_of effect.now)) shown) }
    {
        if let Some(fault) = self.tracker.fault_of(effect) {
            return Err(FeedFault::Rule(fault));
        }
        match take(self.alloc, &mut self.tracker, &mut self.places, effect) {
            Ok(shown) => Ok(shown),
            Err(WantMemory) => {
                self.is_lost = true;
                Err(FeedFault::WantMemory)
            }
        }
    }
}

impl StateBytes for Replayer {
    ghost use Rattle.gfx_replay.specs.Replayer.{bytes_of};

    ghost bytes = { bytes_of };

    fn length(&self, place: Place) -> Option<u64> {
        self.places.length(place)
    }

    fn next_fill(&self, place: Place, after: u64) -> Option<Span> {
        self.places.next_fill(place, after)
    }

    fn read(&self, place: Place, at: u64, into: &mut [u8]) {
        self.places.read(place, at, into);
    }
}

// Takes an effect without a fault.
fn take(
    alloc: Global,
    tracker: &mut Tracker,
    places: &mut Places,
    effect: &Effect<'_>,
) -> Result<Option<ShownFrame>, WantMemory>
    requires passes { first_broken (answers tracker.old) (checks_of (event_of effect.now)) ≡ None }
    requires standing { HasStood (answers tracker.old) (bytes_in places.old) }
    ensures { IfOk result (λ shown. (h : List Event) → Stands (answers tracker.old) (bytes_in places.old) h → IsTaken (answers tracker.new) (bytes_in places.new) h (event_of effect.now) shown) }
{
    let shown = shown_frame(alloc, tracker, effect)?;
    let ending = ending_images(alloc, tracker.objects(), effect)?;
    let mut ops = OpList::of(Vec::new(alloc));
    tracker.expand_bytes(effect, &mut ops)?;
    tracker.take(effect)?;
    places.run_all(&ops, given_bytes(effect))?;
    update(places, tracker.objects(), effect, &ending)?;
    Ok(shown)
}

// The bytes that the effect has of its own.
fn given_bytes<'a>(effect: &'a Effect<'_>) -> &'a [u8]
    ensures { result.now ≡ given_by (event_of effect.now) }
{
    match effect {
        Effect::Meta(Meta::FillMemory { bytes, .. } | Meta::InitImage { bytes, .. }) => bytes,
        _ => &[],
    }
}
