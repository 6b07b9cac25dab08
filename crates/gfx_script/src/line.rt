//! Lines of scripts.
//!
//! A line keeps the fields of its call as a block spells them, with numbers of names for ids, and is decoded with
//! other ids: a call borrows its bytes.
ghost use Rattle.std.specs.Prelude.{◌≡◌, length, IfOk, IsTrue};
ghost use Rattle.gfx_script_model.specs.Ids.{uses_of, defines_of};
ghost use Rattle.gfx_script.specs.Kept.{event_in, is_version};

use crate::kept::Kept;
use gfx_types::{Effect, Ids, WantMemory};
use std::alloc::Global;

/// A line with a call or a write: its number, counted from 1, and the numbers of the names that it defines and uses, in
/// the order of its fields. In `uses` a 0 stands for no object.
#[derive(Debug, Drop)]
pub struct Line {
    pub number: u32,
    /// How many lines of the text are held back just before this one.
    pub held: u32,
    /// Whether it writes what was held, and is no line of the text.
    pub is_fill: bool,
    pub defines: Ids,
    pub uses: Ids,
    pub(crate) call: Kept,
    ghost defined: { defines ≡ defines_of 2 (event_in call.minor call.call call.fields.items) },
    ghost used: { uses ≡ uses_of 2 (event_in call.minor call.call call.fields.items) },
}

impl Line {
    ghost use Rattle.gfx_model.specs.Events.{event_of};
    ghost use Rattle.gfx_model.specs.Spelling.{HasSpelling};
    ghost use Rattle.gfx_script_model.specs.Statements.{may_be_written};
    ghost use Rattle.gfx_script.specs.Line.{event_of_line, line_of};
    ghost use Rattle.gfx_script.specs.Puts.{HasIds};

    /// The line with this number of a call or a write whose ids are numbers of names.
    pub fn new(
        alloc: Global,
        number: u32,
        minor: u32,
        effect: &Effect<'_>,
        defines: Ids,
        uses: Ids,
    ) -> Result<Self, WantMemory>
        requires version { IsTrue (is_version minor) }
        requires written { IsTrue (may_be_written (event_of effect.now)) }
        requires fits { HasSpelling minor (event_of effect.now) }
        requires defines { defines ≡ defines_of 2 (event_of effect.now) }
        requires uses { uses ≡ uses_of 2 (event_of effect.now) }
        ensures { IfOk result (λ line. (line.number ≡ number) × (event_of_line line ≡ event_of effect.now)) }
    {
        let call = Kept::of(alloc, minor, effect)?;
        Ok(Line {
            number,
            held: 0,
            is_fill: false,
            defines,
            uses,
            call,
        })
    }

    /// The call or write with these ids in place of the names that it uses and of those that it defines, in order.
    pub fn effect(
        &self,
        alloc: Global,
        used: &[u64],
        defined: &[u64],
    ) -> Result<Effect<'_>, WantMemory>
        requires used { length used.now ≡ length self.now.uses }
        requires defined { length defined.now ≡ length self.now.defines }
        ensures { IfOk result (λ effect. HasIds (event_of_line self.now) used.now defined.now (event_of effect)) }
    {
        self.call.effect(alloc, used, defined)
    }

    /// The call or write with the numbers of names for its ids.
    pub fn event(&self, alloc: Global) -> Result<Effect<'_>, WantMemory>
        ensures { IfOk result (λ effect. event_of effect ≡ event_of_line self.now) }
    {
        self.call.event(alloc)
    }

    /// A copy of the line.
    pub fn copy(&self, alloc: Global) -> Result<Self, WantMemory>
        ensures { IfOk result (λ line. line_of line ≡ line_of self.now) }
    {
        let defines = Vec::from_slice(alloc, self.defines.items())?;
        let uses = Vec::from_slice(alloc, self.uses.items())?;
        let call = self.call.copy(alloc)?;
        Ok(Line {
            number: self.number,
            held: self.held,
            is_fill: self.is_fill,
            defines: Ids::of(defines),
            uses: Ids::of(uses),
            call,
        })
    }
}
