//! Lines of markers, read.
ghost use Rattle.std.specs.Prelude.{◌≡◌, ◌⊎◌, ◌∷◌, map};
ghost use Rattle.gfx_text_grammar.specs.Lines as lines;
ghost use Rattle.gfx_listing.specs.Answers.{AppendsPart};
ghost use Rattle.gfx_listing.specs.Lines.{marker_name, begins_section};

use crate::fault::LineFault;
use crate::words::{is_word, number_behind};
use gfx_blocks::put_block;
use gfx_types::Effect;

/// Whether a line whose first token is this is that of a marker which begins the section, or of one which ends it; None
/// where it is that of no marker.
pub(crate) fn begins_section(name: &[u8]) -> Option<bool>
    ensures { result ≡ begins_section name.now }
{
    if is_word(name, b"begin") {
        Some(true)
    } else if is_word(name, b"end") {
        Some(false)
    } else {
        None
    }
}

/// Appends the block of a marker with these tokens behind its name.
pub(crate) fn read_marker(
    minor: u32,
    begin: bool,
    fields: &[&[u8]],
    out: &mut Vec<u8>,
) -> Result<(), LineFault>
    requires { (minor ≡ 1) ⊎ (minor ≡ 2) }
    ensures { AppendsPart result (lines.read_marker minor (marker_name begin ∷ map (λ t. t.now) fields.now)) out.old.items out.new.items }
{
    let [field] = fields else {
        return Err(LineFault::BadLine);
    };
    let Some(frame) = number_behind(b"frame=", field) else {
        return Err(LineFault::BadLine);
    };
    put_block(minor, 0, &Effect::Marker { begin, frame }, out)?;
    Ok(())
}
