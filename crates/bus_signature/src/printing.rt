//! Signatures as text (D-Bus specification, Type System).

ghost use Rattle.std.specs.Prelude.{◌≡◌, ◌++◌, IfOk, OnErr, OnOk, Some};
ghost use Rattle.std.specs.String.{string_bytes};
ghost use Rattle.bus_signature.specs.Texts.{text, texts, text_no_parens, IsPlain};
ghost use Rattle.bus_signature.specs.Appending.{Grew};

use crate::error::OutOfMemory;
use crate::signature::Signature;
use std::alloc::Global;
use std::fmt;

impl fmt::Display for Signature {
    ghost output = { λ signature. Some (text signature) };

    #[tactic(auto, using(crate::proofs::TextLemmas::texts_rules))]
    fn fmt<W: fmt::Write>(&self, f: &mut fmt::Formatter<W>) -> fmt::Result {
        match self {
            Signature::Array(child) => {
                f.write_str("a")?;
                child.get().fmt(f)?;
                Ok(())
            }
            Signature::Dict { key, value } => {
                f.write_str("a{")?;
                key.get().fmt(f)?;
                value.get().fmt(f)?;
                f.write_str("}")?;
                Ok(())
            }
            Signature::Structure(fields) => {
                f.write_str("(")?;
                for field in fields.as_slice() {
                    field.fmt(f)?;
                }
                f.write_str(")")?;
                Ok(())
            }
            plain => f.write_str(letter(plain)),
        }
    }
}

impl Signature {
    /// The text, as [`Display`](fmt::Display) prints it.
    pub fn to_string(&self, alloc: Global) -> Result<String, OutOfMemory>
        ensures { IfOk result (λ printed. string_bytes printed ≡ text self.now) }
    {
        let mut printed = String::new(alloc);
        append(self, &mut printed)?;
        Ok(printed)
    }

    /// The text without the parentheses around the whole, where it has them.
    pub fn to_string_no_parens(&self, alloc: Global) -> Result<String, OutOfMemory>
        ensures { IfOk result (λ printed. string_bytes printed ≡ text_no_parens self.now) }
    {
        let mut printed = String::new(alloc);
        self.write_as_string_no_parens(&mut printed)?;
        Ok(printed)
    }

    /// Appends the text without the parentheses around the whole, where it has them.
    ///
    /// For want of memory the string stays as it was.
    pub fn write_as_string_no_parens(&self, w: &mut String) -> Result<(), OutOfMemory>
        ensures appended { OnOk result (string_bytes w.new ≡ string_bytes w.old ++ text_no_parens self.now) }
        ensures unchanged { OnErr result (string_bytes w.new ≡ string_bytes w.old) }
    {
        let len = w.len();
        let appended = append_no_parens(self, w);
        if appended.is_err() {
            w.truncate(len);
        }
        appended
    }
}

// Appends the text without the outer parentheses, or a part of it.
#[tactic(auto, using(crate::proofs::Cases::opened_structure, crate::proofs::Cases::no_parens_other))]
fn append_no_parens(signature: &Signature, w: &mut String) -> Result<(), OutOfMemory>
    ensures ok { OnOk result (string_bytes w.new ≡ string_bytes w.old ++ text_no_parens signature.now) }
    ensures err { OnErr result (Grew (string_bytes w.old) (string_bytes w.new)) }
{
    match signature {
        Signature::Structure(fields) => append_all(fields.as_slice(), w),
        other => append(other, w),
    }
}

// Appends the text, or a part of it for want of memory.
#[cycle(appending)]
#[tactic(auto, using(crate::proofs::TextLemmas::texts_rules))]
fn append(signature: &Signature, w: &mut String) -> Result<(), OutOfMemory>
    ensures ok { OnOk result (string_bytes w.new ≡ string_bytes w.old ++ text signature.now) }
    ensures err { OnErr result (Grew (string_bytes w.old) (string_bytes w.new)) }
{
    match signature {
        Signature::Array(child) => {
            put(w, "a")?;
            append(child.get(), w)?;
            Ok(())
        }
        Signature::Dict { key, value } => {
            put(w, "a{")?;
            append(key.get(), w)?;
            append(value.get(), w)?;
            put(w, "}")?;
            Ok(())
        }
        Signature::Structure(fields) => {
            put(w, "(")?;
            append_all(fields.as_slice(), w)?;
            put(w, ")")?;
            Ok(())
        }
        plain => put(w, letter(plain)),
    }
}

// Appends the texts one after another, or a part of them for want of memory.
#[cycle(appending)]
fn append_all(signatures: &[Signature], w: &mut String) -> Result<(), OutOfMemory>
    ensures ok { OnOk result (string_bytes w.new ≡ string_bytes w.old ++ texts signatures.now) }
    ensures err { OnErr result (Grew (string_bytes w.old) (string_bytes w.new)) }
{
    for signature in signatures {
        append(signature, w)?;
    }
    Ok(())
}

fn put(w: &mut String, piece: &str) -> Result<(), OutOfMemory>
    ensures ok { OnOk result (string_bytes w.new ≡ string_bytes w.old ++ piece.now) }
    ensures err { OnErr result (string_bytes w.new ≡ string_bytes w.old) }
{
    w.push_str(piece)?;
    Ok(())
}

/// The text of a signature without inner ones: one letter, or none for `Unit`.
pub(crate) fn letter(signature: &Signature) -> &'static str
    requires { IsPlain signature.now }
    ensures { result.now ≡ text signature.now }
{
    match signature {
        Signature::Unit => "",
        Signature::U8 => "y",
        Signature::Bool => "b",
        Signature::I16 => "n",
        Signature::U16 => "q",
        Signature::I32 => "i",
        Signature::U32 => "u",
        Signature::I64 => "x",
        Signature::U64 => "t",
        Signature::F64 => "d",
        Signature::Str => "s",
        Signature::Signature => "g",
        Signature::ObjectPath => "o",
        Signature::Variant => "v",
        Signature::Fd => "h",
        Signature::Array(_) | Signature::Dict { .. } | Signature::Structure(_) => "",
    }
}
