//! Statements added to what has been read.
ghost use Rattle.std.specs.Prelude.{◌≡◌, Some, map, IfOk};
ghost use Rattle.gfx_model.specs.Events.{event_of};
ghost use Rattle.gfx_text_grammar.specs.Parsing.{form_outcome};
ghost use Rattle.gfx_text_grammar.specs.StatementReading.{apart_of};
ghost use Rattle.gfx_text.specs.Gives.{Gives};
ghost use Rattle.gfx_script.specs.Answers.{GivesOutcome};
ghost use Rattle.gfx_script.specs.Resolved.{made_texts, seen_by};
ghost use Rattle.gfx_script.specs.State.{reading_of, stated_form, IsAt};

use crate::kind::ScriptKind;
use crate::line_fault::LineFault;
use crate::names::Names;
use crate::numbering::{Place, number_line};
use crate::reading::Reading;
use crate::resolver::Resolver;
use crate::statement::{apart, read_statement};
use crate::words::parts;
use gfx_text::TextFault;
use gfx_types::Effect;
use std::alloc::{AllocError, Global};

impl<'t> Reading<'t> {
    /// A statement is under a thread; its names are known, and what it defines is new.
    pub(crate) fn add_statement(
        &mut self,
        alloc: Global,
        number: u32,
        tokens: &[&'t [u8]],
    ) -> Result<(), LineFault>
        ensures { GivesOutcome (form_outcome number (reading_of self.old) (stated_form (reading_of self.old).minor (map (λ t. t.now) tokens.now))) (reading_of self.new) result }
    {
        let at = self.place(number);
        let mut room = Vec::new(alloc);
        match read_at(alloc, &self.names, at, tokens, &mut room) {
            Ok(effect) => self.add_effect(alloc, at, tokens, &effect),
            Err(TextFault::Bad) => Err(LineFault::Refused(ScriptKind::BadLine)),
            Err(TextFault::WantMemory) => Err(LineFault::WantMemory),
        }
    }

    // A call or write that was read is under a thread; its names are known, and what it defines is new.
    fn add_effect(
        &mut self,
        alloc: Global,
        at: Place,
        tokens: &[&'t [u8]],
        effect: &Effect<'_>,
    ) -> Result<(), LineFault>
        requires place { IsAt self.old at }
        requires read { seen_by at.phase at.thread self.old.names at.minor (map (λ t. t.now) tokens.now) ≡ Some (event_of effect.now) }
        ensures { GivesOutcome (form_outcome at.number (reading_of self.old) (stated_form (reading_of self.old).minor (map (λ t. t.now) tokens.now))) (reading_of self.new) result }
    {
        if !self.is_in_thread() {
            return Err(LineFault::Refused(ScriptKind::Structure));
        }
        let words = made_words(alloc, tokens)?;
        let line = number_line(alloc, &mut self.names, at, &words, effect)?;
        self.lines.push(line)?;
        Ok(())
    }
}

// The call or write of the tokens, with the numbers of the names that a line at this place may use.
fn read_at<'r>(
    alloc: Global,
    names: &Names<'_>,
    at: Place,
    tokens: &[&[u8]],
    room: &'r mut Vec<u8>,
) -> Result<Effect<'r>, TextFault>
    ensures { Gives result event_of (seen_by at.phase at.thread names.now at.minor (map (λ t. t.now) tokens.now)) }
{
    let resolver = Resolver {
        names,
        phase: at.phase,
        thread: at.thread,
    };
    read_statement(alloc, &resolver, at.minor, tokens, room)
}

// The words that are written apart in a statement.
fn made_words<'t>(alloc: Global, tokens: &[&'t [u8]]) -> Result<Vec<&'t [u8]>, AllocError>
    ensures { IfOk result (λ words. map (λ t. t.now) words.items ≡ made_texts (apart_of (map (λ t. t.now) tokens.now)).0) }
{
    let (made, _) = apart(tokens);
    match made {
        [token, ..] => parts(alloc, token),
        [] => Ok(Vec::new(alloc)),
    }
}
