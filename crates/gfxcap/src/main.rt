//! Records, trims and replays captures of Vulkan calls.
#![tactic(auto)]

use gfx_cli::{Status, run};
use gfx_io::{NoGate, StdSink, StdSource};
use std::alloc::{AllocError, Global};
use std::env;
use std::io::{BufReader, ErrorKind};
use std::process::ExitCode;

fn main(rt: HostRuntime) -> ExitCode {
    let (Ok(words), Ok(input)) = (words_of(&rt), BufReader::new(rt.alloc(), rt.stdin())) else {
        return ExitCode::from(Status::WantMemory.code());
    };
    let mut source = StdSource::new(input);
    let mut sink = StdSink::new(rt.stdout());
    let mut notes = StdSink::new(rt.stderr());
    let status = run(
        &rt,
        rt.alloc(),
        &words,
        &mut source,
        &mut sink,
        &mut notes,
        &NoGate,
    );
    ExitCode::from(status.code())
}

/// The words after the program's name. Words that aren't UTF-8 are none.
fn words_of(rt: &HostRuntime) -> Result<Vec<String>, AllocError> {
    let alloc = rt.alloc();
    match env::args(rt) {
        Ok(args) => args.skip(1).collect(alloc),
        Err(error) if error.kind() == ErrorKind::OutOfMemory => Err(AllocError),
        Err(_) => Ok(Vec::new(alloc)),
    }
}
