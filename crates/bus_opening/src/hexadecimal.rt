//! Bytes as hexadecimal digits.

ghost use Rattle.std.specs.Prelude.{◌≡◌, ◌≤◌, Some, length};
ghost use Rattle.hex.specs.Hex.{encode_lower};

use std::{fmt, str};

/// How many bytes are written at once.
const RUN_SIZE: usize = 64;

/// The digits of that many bytes.
type DigitBuffer = [u8; 128];

/// The digits of a run of bytes, as a text.
fn run_text<'b>(run: &[u8], buffer: &'b mut DigitBuffer) -> &'b str
    requires { length run.now ≤ 64 }
    ensures { result.now ≡ encode_lower run.now }
{
    let digits = &mut buffer[..2 * run.len()];
    hex::encode_to_slice(run, digits).unwrap();
    // SAFETY: digits are ASCII, and so a text.
    unsafe { str::from_utf8_unchecked(digits) }
}

/// Bytes that print as hexadecimal digits, two a byte and in lower case; no bytes print nothing.
#[derive(Clone, Copy)]
pub struct Hexadecimal<'a>(pub &'a [u8]);

impl fmt::Display for Hexadecimal<'_> {
    ghost output = { λ h. Some (encode_lower h.0.now) };

    fn fmt<W: fmt::Write>(&self, f: &mut fmt::Formatter<W>) -> fmt::Result {
        let mut buffer = [0u8; 128];
        for run in self.0.chunks(RUN_SIZE) {
            f.write_str(run_text(run, &mut buffer))?;
        }
        Ok(())
    }
}
