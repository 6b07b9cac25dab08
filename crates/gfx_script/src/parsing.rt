//! Scripts from text.
ghost use Rattle.gfx_script.specs.State.{IsParsed};

use crate::fault::ScriptFault;
use crate::lines::first_line;
use crate::reading::Reading;
use crate::script::Script;
use std::alloc::Global;

/// The script that the text is. Bad names the first line with a fault, and the first fault of that line.
pub fn parse(alloc: Global, text: &[u8]) -> Result<Script, ScriptFault>
    ensures { IsParsed text.now result }
{
    let mut reading = Reading::new(alloc);
    let mut number = 1;
    let mut rest = text;
    'lines: while let Some((line, behind)) = first_line(rest) {
        match reading.read_line(alloc, number, text.len() - behind.len(), line) {
            Ok(()) => {}
            Err(fault) => return Err(fault.at(number)),
        }
        number += 1;
        rest = behind;
    }
    Ok(reading.into_script(alloc)?)
}
