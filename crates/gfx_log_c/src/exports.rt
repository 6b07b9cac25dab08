//! The functions that C calls. Each takes the handle by value, and writes it back to `out`, which holds nothing meanwhile:
//! an export can't take a reference to what owns a `Box`.
ghost use Rattle.std.specs.Prelude.{◌≡◌, ◌≢◌, ◌+◌, ◌-◌, ◌≤◌, ◌<◌, ◌⊎◌, ◌++◌, [], Some, None, length, take, drop};
ghost use Rattle.gfx_model.specs.Spelling.{header};
ghost use Rattle.gfx_script_model.specs.Runs.{log_bytes};
ghost use Rattle.gfx_log_c.specs.declared.answer.Answer.{Answer};
ghost use Rattle.gfx_log_c.specs.declared.state.State.{State};
ghost use Rattle.gfx_log_c.specs.Codes.{code_of};
ghost use Rattle.gfx_log_c.specs.Answers.{Answered, read_fields};
ghost use Rattle.gfx_log_c.specs.Owned.{IsOpen, IsClosed, Opened, Appended};

use crate::handle::Handle;
use crate::state::State;
use std::alloc::Global;

/// Out of memory.
const WANT_MEMORY: u32 = 30;

/// A version other than 1 and 2.
const BAD_VERSION: u32 = 2;

/// Opens a log without blocks. Returns 0; or 2 for a version other than 1 and 2, or 30 when out of memory, and then `out`
/// holds nothing.
#[unsafe(no_mangle)]
pub extern "C" fn gfx_log_open(alloc: Global, out: &mut Handle, minor: u32) -> u32
    requires { IsClosed out.old.held }
    ensures opened { result ≡ 0 → Opened minor out.new.held }
    ensures closed { result ≢ 0 → IsClosed out.new.held }
    ensures results { (result ≡ 0) ⊎ ((result ≡ 2) ⊎ (result ≡ 30)) }
    ensures not_1 { result ≡ 2 → minor ≢ 1 }
    ensures not_2 { result ≡ 2 → minor ≢ 2 }
    ensures unknown { minor ≢ 1 → minor ≢ 2 → result ≡ 2 }
{
    if minor != 1 && minor != 2 {
        return BAD_VERSION;
    }
    let Ok(state) = State::new(alloc, minor) else {
        return WANT_MEMORY;
    };
    match Box::new(alloc, state) {
        Ok(state) => {
            *out = Handle::of_box(state);
            0
        }
        Err(_) => WANT_MEMORY,
    }
}

/// Appends a call (kind 4) or a metadata block (kind 3) with this id and these fields, spelled as in a capture file.
///
/// Returns 0 if the log grew by it. Else the log is as before: 8 if the bytes spell no fields, the number of the rule that
/// the call breaks, 29 if the log would pass 2^28 bytes, or 30 when out of memory.
#[unsafe(no_mangle)]
pub extern "C" fn gfx_log_append(
    log: Handle,
    out: &mut Handle,
    thread: u32,
    kind: u32,
    id: u32,
    fields: &[u8],
) -> u32
    requires open { IsOpen log.held }
    requires room { IsClosed out.old.held }
    ensures { Appended log.held thread kind id fields.now result out.new.held }
{
    let mut state = log.into_box();
    let answer = state.append(thread, kind, id, fields);
    *out = Handle::of_box(state);
    answer.code()
}

/// The length in bytes of the capture file: a header and the blocks.
#[unsafe(no_mangle)]
pub extern "C" fn gfx_log_length(log: Handle, out: &mut Handle) -> u64
    requires open { IsOpen log.held }
    requires room { IsClosed out.old.held }
    ensures kept { out.new.held ≡ log.held }
    ensures length { (state : State) → log.held ≡ Some state → result ≡ length (header state.log.minor ++ log_bytes state.log.minor state.log.entries) }
{
    let state = log.into_box();
    let length = state.log.bytes().len() as u64;
    *out = Handle::of_box(state);
    length
}

/// Copies the bytes of the capture file from this offset on, as many as fit, and returns how many.
#[unsafe(no_mangle)]
pub extern "C" fn gfx_log_bytes(log: Handle, out: &mut Handle, from: u64, into: &mut [u8]) -> u64
    requires open { IsOpen log.held }
    requires room { IsClosed out.old.held }
    ensures kept { out.new.held ≡ log.held }
    ensures few { result ≤ length into.old }
    ensures count { (state : State) → log.held ≡ Some state → (result ≡ length (header state.log.minor ++ log_bytes state.log.minor state.log.entries) - from) ⊎ (result ≡ length into.old) }
    ensures copied { (state : State) → log.held ≡ Some state → into.new ≡ take result (drop from (header state.log.minor ++ log_bytes state.log.minor state.log.entries)) ++ drop result into.old }
{
    let state = log.into_box();
    let count = copy_from(state.log.bytes(), from, into);
    *out = Handle::of_box(state);
    count
}

// Copies the bytes from this offset on, as many as fit.
fn copy_from(bytes: &[u8], from: u64, into: &mut [u8]) -> u64
    ensures few { result ≤ length into.old }
    ensures count { (result ≡ length bytes.now - from) ⊎ (result ≡ length into.old) }
    ensures copied { into.new ≡ take result (drop from bytes.now) ++ drop result into.old }
{
    if from >= bytes.len() as u64 {
        return 0;
    }
    let rest = &bytes[from as usize..];
    let count = if rest.len() < into.len() {
        rest.len()
    } else {
        into.len()
    };
    into[..count].copy_from_slice(&rest[..count]);
    count as u64
}

/// Closes the log, and frees its memory.
#[unsafe(no_mangle)]
pub extern "C" fn gfx_log_close(log: Handle)
    requires { IsOpen log.held }
{
    drop(log.into_box());
}
