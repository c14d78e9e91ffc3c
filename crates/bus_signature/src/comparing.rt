//! Signatures beside texts.

ghost use Rattle.std.specs.Prelude.{◌↔◌, IsTrue};
ghost use Rattle.bus_signature.specs.Texts.{text, texts};
ghost use Rattle.bus_signature.specs.Comparing.{AtEnd, IsPrinted, Stripped};

use crate::printing::letter;
use crate::signature::Signature;

impl Signature {
    /// Whether the text is one of the two printed forms; nothing is printed for it.
    pub fn eq_text(&self, text: &str) -> bool
        ensures { IsTrue result ↔ IsPrinted text.now self.now }
    {
        let bytes = text.as_bytes();
        if is_end(strip(self, bytes)) {
            return true;
        }
        match self {
            Signature::Structure(fields) => is_end(strip_all(fields.as_slice(), bytes)),
            _ => false,
        }
    }
}

fn is_end(rest: Option<&[u8]>) -> bool
    ensures { IsTrue result ↔ AtEnd rest.entry }
{
    match rest {
        Some(rest) => rest.is_empty(),
        None => false,
    }
}

// What is left behind the signature's text.
#[cycle(stripping)]
fn strip<'a>(signature: &Signature, bytes: &'a [u8]) -> Option<&'a [u8]>
    ensures { Stripped (text signature.now) bytes.now result }
{
    match signature {
        Signature::Array(child) => {
            let Some(rest) = strip_piece("a", bytes) else {
                return None;
            };
            strip(child.get(), rest)
        }
        Signature::Dict { key, value } => {
            let Some(rest) = strip_piece("a{", bytes) else {
                return None;
            };
            let Some(rest) = strip(key.get(), rest) else {
                return None;
            };
            let Some(rest) = strip(value.get(), rest) else {
                return None;
            };
            strip_piece("}", rest)
        }
        Signature::Structure(fields) => {
            let Some(rest) = strip_piece("(", bytes) else {
                return None;
            };
            let Some(rest) = strip_all(fields.as_slice(), rest) else {
                return None;
            };
            strip_piece(")", rest)
        }
        plain => strip_piece(letter(plain), bytes),
    }
}

// What is left behind the texts of several, one after another.
#[cycle(stripping)]
fn strip_all<'a>(signatures: &[Signature], bytes: &'a [u8]) -> Option<&'a [u8]>
    ensures { Stripped (texts signatures.now) bytes.now result }
{
    let mut rest = bytes;
    for signature in signatures {
        let Some(behind) = strip(signature, rest) else {
            return None;
        };
        rest = behind;
    }
    Some(rest)
}

fn strip_piece<'a>(piece: &str, bytes: &'a [u8]) -> Option<&'a [u8]>
    ensures { Stripped piece.now bytes.now result }
{
    bytes.strip_prefix(piece.as_bytes())
}
