//! Statements with the numbers of their names.
ghost use Rattle.std.specs.Prelude.{◌≡◌, ◌∷◌, [], map, length, IfOk, IsTrue};
ghost use Rattle.std.specs.List.{list_any};
ghost use Rattle.gfx_script.specs.Resolved.{is_unknown};
ghost use Rattle.gfx_model.specs.Events.{Event, event_of, event_of_meta};
ghost use Rattle.gfx_script_model.specs.Ids.{uses_of, defines_of};
ghost use Rattle.gfx_script.specs.Kept.{is_version};
ghost use Rattle.gfx_script.specs.Puts.{HasIds, AreWide};
ghost use Rattle.gfx_script.specs.Stated.{Stated, NumbersLine};
ghost use Rattle.gfx_script_model.specs.Statements.{may_be_written};

use crate::kind::ScriptKind;
use crate::line::Line;
use crate::line_fault::LineFault;
use crate::names::Names;
use crate::putting::{collect_ids, with_ids};
use crate::resolver::UNKNOWN;
use crate::words::define_all;
use gfx_types::{Effect, Ids, Meta, WantMemory};
use std::alloc::{AllocError, Global};

/// Where a line stands: its number, the minor version, and its phase and thread.
#[derive(Clone, Copy)]
pub(crate) struct Place {
    pub number: u32,
    pub minor: u32,
    pub phase: usize,
    pub thread: u32,
}

/// The line of a statement that uses only known names, and defines these words, which are new: NameUnknown and NameTaken,
/// in this order.
pub(crate) fn number_line<'t>(
    alloc: Global,
    names: &mut Names<'t>,
    at: Place,
    words: &[&'t [u8]],
    effect: &Effect<'_>,
) -> Result<Line, LineFault>
    requires version { IsTrue (is_version at.minor) }
    requires stated { (e : Event) × Stated at names.old (map (λ t. t.now) words.now) (event_of effect.now) e }
    ensures { (e : Event) → Stated at names.old (map (λ t. t.now) words.now) (event_of effect.now) e → NumbersLine at names.old e result names.new }
{
    names.are_numbered();
    let uses = uses(alloc, effect)?;
    if has_unknown(&uses) {
        return Err(LineFault::Refused(ScriptKind::NameUnknown));
    }
    let defines = define_all(alloc, names, words, at.phase, at.thread)?;
    are_wide(uses.items());
    are_wide(defines.items());
    let effect = renumber(alloc, effect, &uses, &defines)?;
    match Line::new(alloc, at.number, at.minor, &effect, defines, uses) {
        Ok(line) => Ok(line),
        Err(WantMemory) => Err(LineFault::WantMemory),
    }
}

// The ids that a call or a write names.
#[tactic(auto, unfolding(gfx_model::specs::Spelling::type_of, gfx_script_model::specs::Ids::uses_of))]
fn uses(alloc: Global, effect: &Effect<'_>) -> Result<Ids, AllocError>
    requires { IsTrue (may_be_written (event_of effect.now)) }
    ensures { IfOk result (λ uses. uses ≡ uses_of 2 (event_of effect.now)) }
{
    let mut uses = Vec::new(alloc);
    match effect {
        Effect::Call(call) => {
            collect_ids(call, &mut uses)?;
            Ok(Ids::of(uses))
        }
        Effect::Meta(meta) => {
            uses.push(written_memory(meta))?;
            Ok(Ids::of(uses))
        }
        Effect::Marker { .. } => unreachable!(),
    }
}

// The memory that is written.
#[tactic(auto, unfolding(gfx_model::specs::Spelling::type_of, gfx_script_model::specs::Ids::uses_of))]
fn written_memory(write: &Meta<'_>) -> u64
    requires { IsTrue (may_be_written (event_of_meta write.now)) }
    ensures { uses_of 2 (event_of_meta write.now) ≡ result ∷ [] }
{
    match write {
        Meta::FillMemory { memory, .. } => *memory,
        _ => unreachable!(),
    }
}

// Whether one of the numbers stands for a name that may not be used.
fn has_unknown(ids: &Ids) -> bool
    ensures { result ≡ list_any is_unknown ids.now }
{
    ids.items().contains(&UNKNOWN)
}

// Each is a number of eight bytes.
fn are_wide(ids: &[u64])
    ensures { AreWide ids.now }
{}

// The call or write with these ids in place of its own.
#[tactic(auto, unfolding(gfx_model::specs::Spelling::type_of, gfx_script_model::specs::Ids::uses_of, gfx_script_model::specs::Ids::defines_of, gfx_script_model::specs::Ids::map_ids))]
fn renumber<'c>(
    alloc: Global,
    effect: &Effect<'c>,
    uses: &Ids,
    defines: &Ids,
) -> Result<Effect<'c>, AllocError>
    requires written { IsTrue (may_be_written (event_of effect.now)) }
    requires uses { length uses.now ≡ length (uses_of 2 (event_of effect.now)) }
    requires defines { length defines.now ≡ length (defines_of 2 (event_of effect.now)) }
    ensures { IfOk result (λ out. HasIds (event_of effect.now) uses.now defines.now (event_of out)) }
{
    match effect {
        Effect::Call(call) => {
            let call = with_ids(alloc, call, uses.items(), defines.items())?;
            Ok(Effect::Call(call))
        }
        Effect::Meta(meta) => {
            let write = with_memory(meta, uses.items());
            Ok(Effect::Meta(write))
        }
        Effect::Marker { .. } => unreachable!(),
    }
}

/// The write with this id in place of its own.
#[tactic(auto, unfolding(gfx_model::specs::Spelling::type_of, gfx_script_model::specs::Ids::uses_of, gfx_script_model::specs::Ids::defines_of, gfx_script_model::specs::Ids::map_ids))]
pub(crate) fn with_memory<'c>(write: &Meta<'c>, named: &[u64]) -> Meta<'c>
    requires written { IsTrue (may_be_written (event_of_meta write.now)) }
    requires named { length named.now ≡ 1 }
    ensures { HasIds (event_of_meta write.now) named.now [] (event_of_meta result) }
{
    let [memory] = named else { unreachable!() };
    match write {
        Meta::FillMemory { offset, bytes, .. } => Meta::FillMemory {
            memory: *memory,
            offset: *offset,
            bytes,
        },
        _ => unreachable!(),
    }
}
