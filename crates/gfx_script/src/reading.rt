//! What has been read of a script.
ghost use Rattle.std.specs.Prelude.{◌≡◌, ◌≤◌, ◌==◌, ◌&&◌, nat_le, [], ◌∷◌, length, map, OnOk, IfOk, IsTrue};
ghost use Rattle.std.specs.List.{list_any};
ghost use Rattle.gfx_model.specs.Limits.{max_phases, max_lines};
ghost use Rattle.gfx_script_model.specs.Scripts as script;
ghost use Rattle.gfx_script.specs.Kept.{is_version};
ghost use Rattle.gfx_script.specs.Staged.{is_staged, is_outside, is_in_thread, thread_of_stage};
ghost use Rattle.gfx_script_model.specs.Scripts.{at_first, set_version, begin_thread, in_order};
ghost use Rattle.gfx_text_grammar.specs.Parsing.{form_of, form_outcome, line_outcome};

use crate::early::{early_fault, is_phase};
use crate::kind::ScriptKind;
use crate::line::Line;
use crate::line_fault::LineFault;
use crate::names::Names;
use crate::numbering::Place;
use crate::plain::Plain;
use crate::script::{Lines, Part, Parts, Phase, Phases, Script};
use crate::tokens::tokens;
use gfx_types::limits::MAX_PHASES;
use std::alloc::{AllocError, Global};
use std::mem;

/// Where the text stands.
#[derive(Clone, Copy, PartialEq, Eq)]
pub(crate) enum Stage {
    NoPhase,
    InPhase,
    InThread(u32),
}

/// What has been read: the version, the phases that ended, in the phase that is read the threads that ended, the lines of
/// the thread that is read, and the names.
#[derive(Drop)]
pub(crate) struct Reading<'t> {
    pub(crate) minor: u32,
    pub(crate) phases: Vec<Phase>,
    pub(crate) parts: Vec<Part>,
    pub(crate) lines: Vec<Line>,
    pub(crate) stage: Stage,
    pub(crate) names: Names<'t>,
    ghost version: { IsTrue (is_version minor) },
    ghost staged: { IsTrue (is_staged stage phases.items parts.items lines.items) },
}

impl<'t> Reading<'t> {
    ghost use Rattle.gfx_script.specs.Answers.{GivesOutcome};
    ghost use Rattle.gfx_script.specs.Line.{phases_of};
    ghost use Rattle.gfx_script.specs.State.{reading_of, open_part, thread_stood, IsAt, EndsPart, EndsPhase};

    /// Nothing has been read.
    pub(crate) fn new(alloc: Global) -> Self
        ensures { reading_of result ≡ at_first }
    {
        Reading {
            minor: 1,
            phases: Vec::new(alloc),
            parts: Vec::new(alloc),
            lines: Vec::new(alloc),
            stage: Stage::NoPhase,
            names: Names::new(alloc),
        }
    }

    /// How many phases there are, with the one that is read.
    pub(crate) fn count(&self) -> usize
        ensures { result ≡ length (reading_of self.now).phases }
    {
        match self.stage {
            Stage::NoPhase => self.phases.len(),
            _ => self.phases.len() + 1,
        }
    }

    // Whether the line of these tokens begins a phase, and there are as many as there may be.
    fn begins_too_many(&self, tokens: &[&[u8]]) -> bool
        ensures { result ≡ (script.is_phase (map (λ t. t.now) tokens.now) && nat_le max_phases (length (reading_of self.now).phases)) }
    {
        is_phase(tokens) && self.count() >= MAX_PHASES
    }

    /// Where a line with this number stands.
    pub(crate) fn place(&self, number: u32) -> Place
        ensures number { result.number ≡ number }
        ensures place { IsAt self.now result }
    {
        Place {
            number,
            minor: self.minor,
            phase: self.count(),
            thread: self.thread(),
        }
    }

    // The thread that is read, or 0 where none is.
    fn thread(&self) -> u32
        ensures { result ≡ thread_of_stage self.now.stage }
    {
        match self.stage {
            Stage::InThread(thread) => thread,
            _ => 0,
        }
    }

    /// Whether a thread is read.
    pub(crate) fn is_in_thread(&self) -> bool
        ensures { result ≡ is_in_thread self.now.stage }
    {
        match self.stage {
            Stage::InThread(_) => true,
            _ => false,
        }
    }

    /// Reads one more line, which has this number and ends, with its line feed, where so many bytes of the text do.
    pub(crate) fn read_line(
        &mut self,
        alloc: Global,
        number: u32,
        through: usize,
        line: &'t [u8],
    ) -> Result<(), LineFault>
        ensures line { GivesOutcome (line_outcome number through (reading_of self.old) line.now) (reading_of self.new) result }
        ensures number { OnOk result (number ≤ max_lines) }
    {
        if let Some(kind) = early_fault(number, through, line) {
            return Err(LineFault::Refused(kind));
        }
        let tokens = tokens(alloc, line)?;
        if self.begins_too_many(&tokens) {
            return Err(LineFault::Refused(ScriptKind::TooMany));
        }
        self.read_tokens(alloc, number, &tokens)
    }

    // Reads the tokens of a line without an early fault.
    fn read_tokens(
        &mut self,
        alloc: Global,
        number: u32,
        tokens: &[&'t [u8]],
    ) -> Result<(), LineFault>
        ensures { GivesOutcome (form_outcome number (reading_of self.old) (form_of (reading_of self.old).minor (map (λ t. t.now) tokens.now))) (reading_of self.new) result }
    {
        match Plain::of(tokens) {
            Some(Plain::Skips) => Ok(()),
            Some(Plain::SetsVersion) => self.set_version(),
            Some(Plain::BeginsPhase) => Ok(self.begin_phase(alloc)?),
            Some(Plain::BeginsThread(thread)) => self.begin_thread(alloc, thread),
            None => self.add_statement(alloc, number, tokens),
        }
    }

    // The version is first or not at all.
    fn set_version(&mut self) -> Result<(), LineFault>
        ensures { GivesOutcome (set_version (reading_of self.old)) (reading_of self.new) result }
    {
        if self.minor != 1 || self.count() > 0 {
            return Err(LineFault::Refused(ScriptKind::Structure));
        }
        self.minor = 2;
        Ok(())
    }

    // A phase begins.
    fn begin_phase(&mut self, alloc: Global) -> Result<(), AllocError>
        ensures { OnOk result (reading_of self.new ≡ record (reading_of self.old) { phases = [] ∷ (reading_of self.old).phases }) }
    {
        self.end_phase(alloc)?;
        self.stage = Stage::InPhase;
        Ok(())
    }

    // A thread begins, which occurs once in a phase.
    fn begin_thread(&mut self, alloc: Global, thread: u32) -> Result<(), LineFault>
        ensures { GivesOutcome (begin_thread thread (reading_of self.old) (reading_of self.old).phases) (reading_of self.new) result }
    {
        if self.is_outside() {
            return Err(LineFault::Refused(ScriptKind::Structure));
        }
        if self.has_thread(thread) {
            return Err(LineFault::Refused(ScriptKind::Structure));
        }
        self.end_part(alloc)?;
        self.stage = Stage::InThread(thread);
        Ok(())
    }

    // Whether the thread was in the phase that is read.
    fn has_thread(&self, thread: u32) -> bool
        ensures { result ≡ thread_stood thread self.now }
    {
        if any_has(&self.parts, thread) {
            return true;
        }
        self.is_open(thread)
    }

    // Whether the thread is the one that is read.
    fn is_open(&self, thread: u32) -> bool
        ensures { result ≡ list_any (λ p. p.thread == thread) (open_part self.now.stage self.now.lines.items) }
    {
        match self.stage {
            Stage::NoPhase => false,
            Stage::InPhase => false,
            Stage::InThread(read) => read == thread,
        }
    }

    // Whether no phase is read.
    fn is_outside(&self) -> bool
        ensures { result ≡ is_outside self.now.stage }
    {
        match self.stage {
            Stage::NoPhase => true,
            _ => false,
        }
    }

    // Puts the thread that is read to those that ended.
    fn end_part(&mut self, alloc: Global) -> Result<(), AllocError>
        ensures { OnOk result (EndsPart self.old self.new) }
    {
        if let Stage::InThread(thread) = self.stage {
            let lines = mem::replace(&mut self.lines, Vec::new(alloc));
            self.parts.push(Part {
                thread,
                lines: Lines::of(lines),
            })?;
        }
        Ok(())
    }

    // Puts the phase that is read to those that ended.
    fn end_phase(&mut self, alloc: Global) -> Result<(), AllocError>
        ensures { OnOk result (EndsPhase self.old self.new) }
    {
        self.end_part(alloc)?;
        if self.stage != Stage::NoPhase {
            let parts = mem::replace(&mut self.parts, Vec::new(alloc));
            self.phases.push(Phase {
                threads: Parts::of(parts),
            })?;
        }
        Ok(())
    }

    /// The script that was read.
    pub(crate) fn into_script(mut self, alloc: Global) -> Result<Script, AllocError>
        ensures { IfOk result (λ script. (script.minor ≡ self.entry.minor) × (phases_of script.phases ≡ in_order (reading_of self.entry).phases)) }
    {
        self.end_phase(alloc)?;
        let Reading { minor, phases, .. } = self;
        Ok(Script {
            minor,
            phases: Phases::of(phases),
        })
    }
}

// Whether one of the parts is of this thread.
fn any_has(parts: &[Part], thread: u32) -> bool
    ensures { result ≡ list_any (λ p. p.thread == thread) parts.now }
{
    parts.iter().any(|part| part.thread == thread)
}
