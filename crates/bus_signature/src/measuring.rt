//! The length of a signature's text, and where its values may begin.

ghost use Rattle.std.specs.Prelude.{◌≡◌, ◌↔◌, ℕ, ◌+◌, IsTrue, false, length};
ghost use Rattle.bus_signature.specs.Texts.{text, texts};
ghost use Rattle.bus_signature.specs.Measures.{Counted, Fits, alignment};

use crate::boxed::Boxed;
use crate::format::Format;
use crate::signature::Signature;

impl Signature {
    /// The length of the text with its outer parentheses, in bytes.
    pub fn string_len(&self) -> usize
        requires { Fits self.now }
        ensures { result ≡ length (text self.now) }
    {
        text_len(self).unwrap()
    }

    /// Whether the text's length is a `usize`. It is one for each signature that was read.
    pub fn text_fits(&self) -> bool
        ensures { IsTrue result ↔ Fits self.now }
    {
        text_len(self).is_some()
    }

    /// The alignment of a value of this type, in bytes (D-Bus specification, Marshaling).
    pub fn alignment(&self, format: Format) -> usize
        ensures { result ≡ alignment self.now }
    {
        match format {
            Format::DBus => alignment_of(self),
        }
    }

    /// Whether a `Maybe` is inside; D-Bus has none.
    pub fn contains_maybe(&self) -> bool
        ensures { result ≡ false }
    {
        false
    }
}

impl Boxed<Signature> {
    /// Lends the signature.
    pub fn signature(&self) -> &Signature
        ensures { result.now ≡ self.now }
    {
        self.get()
    }

    /// The length of the signature's text, in bytes.
    pub fn string_len(&self) -> usize
        requires { Fits self.now }
        ensures { result ≡ length (text self.now) }
    {
        self.get().string_len()
    }
}

fn alignment_of(signature: &Signature) -> usize
    ensures { result ≡ alignment signature.now }
{
    match signature {
        Signature::U8 | Signature::Variant | Signature::Signature => 1,
        Signature::I16 | Signature::U16 => 2,
        Signature::I32 | Signature::U32 | Signature::Bool | Signature::Fd => 4,
        Signature::Str | Signature::ObjectPath => 4,
        Signature::Array(_) | Signature::Dict { .. } => 4,
        Signature::I64 | Signature::U64 | Signature::F64 => 8,
        Signature::Unit | Signature::Structure(_) => 8,
    }
}

// The length of the text, where it is a `usize`.
#[cycle(measuring)]
fn text_len(signature: &Signature) -> Option<usize>
    ensures { Counted result (length (text signature.now)) }
{
    match signature {
        Signature::Unit => Some(0),
        Signature::Array(child) => sum(1, text_len(child.get())),
        Signature::Dict { key, value } => {
            let Some(key) = text_len(key.get()) else {
                return None;
            };
            sum(3, sum(key, text_len(value.get())))
        }
        Signature::Structure(fields) => sum(2, texts_len(fields.as_slice())),
        _ => Some(1),
    }
}

// The length of the texts one after another, where it is a `usize`.
#[cycle(measuring)]
fn texts_len(signatures: &[Signature]) -> Option<usize>
    ensures { Counted result (length (texts signatures.now)) }
{
    let mut len: usize = 0;
    for signature in signatures {
        let Some(longer) = sum(len, text_len(signature)) else {
            return None;
        };
        len = longer;
    }
    Some(len)
}

fn sum(a: usize, b: Option<usize>) -> Option<usize>
    ensures { (n : ℕ) → Counted b n → Counted result (a + n) }
{
    a.checked_add(b?)
}
