//! The ids of names, and which calls are recorded.
ghost use Rattle.std.specs.Prelude.{◌≡◌, ◌<◌, ◌^◌, ℕ, map, IfOk};
ghost use Rattle.gfx_recorder.specs.Ids.{id_in};

use gfx_params::call_id;
use gfx_types::Effect;
use std::alloc::{AllocError, Global};

/// The ids that the table has for these numbers of names.
pub(crate) fn ids_of(alloc: Global, table: &[u64], names: &[u64]) -> Result<Vec<u64>, AllocError>
    ensures { IfOk result (λ ids. ids.items ≡ map (id_in table.now) names.now) }
{
    let mut ids = Vec::new(alloc);
    'names: for name in names {
        ids.push(id_of(table, *name))?;
    }
    Ok(ids)
}

// The id of a name, and 0 where the table has none.
fn id_of(table: &[u64], name: u64) -> u64
    ensures { result ≡ id_in table.now name }
{
    if name < table.len() as u64 {
        table[name as usize]
    } else {
        0
    }
}

/// Each id has eight bytes.
pub(crate) fn are_wide(table: &[u64])
    ensures { (name : ℕ) → id_in table.now name < 2 ^ 64 }
{}

/// Whether the call is recorded into a command buffer.
pub(crate) fn is_recorded(effect: &Effect<'_>) -> bool {
    match effect {
        Effect::Call(call) => matches!(call_id(call), 26..=33),
        Effect::Meta(_) | Effect::Marker { .. } => false,
    }
}
