//! How a script is run in tests.
ghost use Rattle.std.specs.Prelude.{IfOk};
ghost use Rattle.gfx_script.specs.Line.{phases_of};
ghost use Rattle.gfx_script_law.specs.Playable.{IsPlayable};

use gfx_capture::Log;
use gfx_gather::shown_script;
use gfx_io::Gate;
use gfx_recorder::{Outcome, record_script};
use gfx_script::{Script, ScriptFault, parse};
use gfx_types::Fault;
use std::alloc::Global;
use std::sync::Wait;
use std::test::Fail;
use std::thread::Threads;

/// The line that is refused, why, and behind how many blocks.
pub(crate) type Refusal = (u32, Fault, u64);

/// The script that a text is, as it is run.
fn script_of(alloc: Global, gathers: bool, text: &[u8]) -> Result<Script, Fail>
    ensures { IfOk result (λ script. IsPlayable script.minor (phases_of script.phases)) }
{
    let script = match parse(alloc, text) {
        Ok(script) => script,
        Err(ScriptFault::Bad { .. }) => return Err(Fail::new("no script")),
        Err(ScriptFault::WantMemory) => return Err(Fail::new("no memory")),
    };
    match shown_script(alloc, gathers, script) {
        Ok(script) => Ok(script),
        Err(_) => Err(Fail::new("no memory")),
    }
}

/// What a run left: what is refused, if anything is, and the bytes of the log.
#[derive(Drop)]
pub(crate) struct Left {
    pub(crate) refused: Option<Refusal>,
    pub(crate) log: Vec<u8>,
}

/// What is refused, if anything is, and the log that a script leaves.
fn log_of<R: Threads + Wait + Sync, G: Gate + Sync>(
    rt: &R,
    alloc: Global,
    gate: &G,
    script: &Script,
) -> Result<(Option<Refusal>, Log), Fail>
    requires { IsPlayable script.now.minor (phases_of script.now.phases) }
{
    match record_script(rt, alloc, gate, script) {
        Outcome::Done { log } => Ok((None, log)),
        Outcome::Refused {
            line,
            fault,
            at,
            log,
        } => Ok((Some((line, fault, at)), log)),
        Outcome::LogFull { .. } => Err(Fail::new("the log is full")),
        Outcome::WantMemory => Err(Fail::new("no memory")),
    }
}

fn kept_of(alloc: Global, refused: Option<Refusal>, log: &Log) -> Result<Left, Fail> {
    let log = Vec::from_slice(alloc, log.bytes())?;
    Ok(Left { refused, log })
}

// The log goes no further: a function that owns one drops it at each way out, which takes long to prove.
fn run_script<R: Threads + Wait + Sync, G: Gate + Sync>(
    rt: &R,
    alloc: Global,
    gate: &G,
    script: &Script,
) -> Result<Left, Fail>
    requires { IsPlayable script.now.minor (phases_of script.now.phases) }
{
    let (refused, log) = log_of(rt, alloc, gate, script)?;
    kept_of(alloc, refused, &log)
}

/// Runs the script that a text is.
pub(crate) fn record<R: Threads + Wait + Sync, G: Gate + Sync>(
    rt: &R,
    alloc: Global,
    gate: &G,
    text: &[u8],
) -> Result<Left, Fail> {
    run(rt, alloc, gate, false, text)
}

/// Runs the script, with the writes of its threads gathered where that is asked for.
pub(crate) fn run<R: Threads + Wait + Sync, G: Gate + Sync>(
    rt: &R,
    alloc: Global,
    gate: &G,
    gathers: bool,
    text: &[u8],
) -> Result<Left, Fail> {
    let script = script_of(alloc, gathers, text)?;
    run_script(rt, alloc, gate, &script)
}
