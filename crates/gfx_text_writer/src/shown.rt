// How ids, numbers and bytes are shown.
ghost use Rattle.std.specs.Prelude.{◌≡◌, ◌++◌, ◌<◌, length, take, decimal, OnOk, OnErr};
ghost use Rattle.gfx_model.specs.Text.{hex_digit, hex_text};
ghost use Rattle.gfx_text_grammar.specs.Reading.{Style};
ghost use Rattle.gfx_text_grammar.specs.Styles.{numbered};

use gfx_text::Numbered;
use itoa::Buffer;
use std::alloc::AllocError;

/// How ids are shown.
pub trait ShowId {
    /// The style of their texts.
    ghost style: { Self → Style };

    /// Whether the ids that a call makes are written apart, left of its fields.
    fn apart(&self) -> bool
        ensures { result ≡ (style self.now).ids.apart };

    /// Appends the text of an id. When out of memory some of it may follow the old text.
    fn show(&self, id: u64, out: &mut Vec<u8>) -> Result<(), AllocError>
        ensures ok { OnOk result (out.new.items ≡ out.old.items ++ (style self.now).ids.show id) }
        ensures err { OnErr result (take (length out.old.items) out.new.items ≡ out.old.items) };
}

impl ShowId for Numbered {
    ghost style = { λ _. numbered };

    fn apart(&self) -> bool {
        false
    }

    fn show(&self, id: u64, out: &mut Vec<u8>) -> Result<(), AllocError> {
        put_number(id, out)
    }
}

/// Appends a number in decimal. When out of memory `out` is as it was.
pub fn put_number(number: u64, out: &mut Vec<u8>) -> Result<(), AllocError>
    ensures ok { OnOk result (out.new.items ≡ out.old.items ++ decimal number) }
    ensures err { OnErr result (out.new.items ≡ out.old.items) }
{
    let mut buffer = Buffer::new();
    out.extend_from_slice(buffer.format(number).as_bytes())
}

/// Appends bytes in hexadecimal, two digits in lower case for each. When out of memory `out` is as it was.
pub fn put_bytes(bytes: &[u8], out: &mut Vec<u8>) -> Result<(), AllocError>
    ensures ok { OnOk result (out.new.items ≡ out.old.items ++ hex_text bytes.now) }
    ensures err { OnErr result (out.new.items ≡ out.old.items) }
{
    out.reserve(2 * bytes.len())?;
    'bytes: for byte in bytes {
        out.push_reserved(hex_digit(*byte / 16));
        out.push_reserved(hex_digit(*byte % 16));
    }
    Ok(())
}

/// The hexadecimal digit of a number below 16.
fn hex_digit(number: u8) -> u8
    requires { number < 16 }
    ensures { result ≡ hex_digit number }
{
    if number < 10 {
        b'0' + number
    } else {
        87 + number
    }
}
