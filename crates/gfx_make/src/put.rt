//! Blocks of effects, one after another, and the lists of ids in them.
ghost use Rattle.std.specs.Prelude.{◌≡◌, ◌∷◌, ◌++◌, [], map, IfOk, OnOk};
ghost use Rattle.std.specs.List.{AllByRecursion};
ghost use Rattle.gfx_model.specs.Events.{event_of};
ghost use Rattle.gfx_grammar.specs.Framing.{CanBeWritten};
ghost use Rattle.gfx_make.specs.Made.{blocks};

use gfx_blocks::put_block;
use gfx_types::{Effect, Ids, WantMemory};
use std::alloc::Global;

/// Appends the blocks of these effects under thread 0.
pub(crate) fn put_all(effects: &[Effect<'_>], out: &mut Vec<u8>) -> Result<(), WantMemory>
    requires { AllByRecursion (CanBeWritten 1 0) (map event_of effects.now) }
    ensures { OnOk result (out.new.items ≡ out.old.items ++ blocks (map event_of effects.now)) }
{
    'effects: for effect in effects {
        put_block(1, 0, effect, out)?;
    }
    Ok(())
}

/// The list of these ids.
pub(crate) fn ids_of(alloc: Global, ids: &[u64]) -> Result<Ids, WantMemory>
    ensures { IfOk result (λ list. list ≡ ids.now) }
{
    let mut items = Vec::new(alloc);
    items.extend_from_slice(ids)?;
    Ok(Ids::of(items))
}

/// The list of one item.
pub(crate) fn one<T: Drop>(alloc: Global, item: T) -> Result<Vec<T>, WantMemory>
    ensures { IfOk result (λ list. list.items ≡ item ∷ []) }
{
    let mut items = Vec::new(alloc);
    items.push(item)?;
    Ok(items)
}
