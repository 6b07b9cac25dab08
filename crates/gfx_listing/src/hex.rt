//! Bytes from hexadecimal digits.
ghost use Rattle.gfx_text_grammar.specs.Words.{raw_in};
ghost use Rattle.gfx_listing.specs.Answers.{AppendsRead};

use crate::fault::LineFault;
use gfx_text::byte_of;

/// Appends the bytes of hexadecimal digits in lower case, two for each byte. After a fault some of them may follow
/// the old bytes.
pub(crate) fn append_bytes(digits: &[u8], out: &mut Vec<u8>) -> Result<(), LineFault>
    ensures { AppendsRead result (raw_in digits.now) (λ bytes. bytes) out.old.items out.new.items }
{
    if digits.len() % 2 != 0 {
        return Err(LineFault::BadLine);
    }
    let pairs = digits.len() / 2;
    out.reserve(pairs)?;
    'pairs: for i in 0..pairs {
        match byte_of(digits[2 * i], digits[2 * i + 1]) {
            Some(byte) => out.push(byte)?,
            None => return Err(LineFault::BadLine),
        }
    }
    Ok(())
}
