//! Signatures made of others.

ghost use Rattle.std.specs.Prelude.{◌≡◌, IfOk};
ghost use Rattle.bus_signature.specs.declared.signature.Signature.TheVariants.{Unit, Array, Dict, Structure};

use crate::error::OutOfMemory;
use crate::signature::{Child, Fields, Signature};
use std::alloc::Global;

impl Default for Signature {
    ghost is_default = { λ signature. signature ≡ Unit };

    fn default() -> Signature {
        Signature::Unit
    }
}

impl Signature {
    /// An array of such elements.
    pub fn array(alloc: Global, child: Signature) -> Result<Signature, OutOfMemory>
        ensures { IfOk result (λ made. made ≡ Array child) }
    {
        let child = Child::new(alloc, child)?;
        Ok(Signature::Array(child))
    }

    /// A dictionary of such keys and values.
    pub fn dict(alloc: Global, key: Signature, value: Signature) -> Result<Signature, OutOfMemory>
        ensures { IfOk result (λ made. made ≡ Dict key value) }
    {
        let key = Child::new(alloc, key)?;
        let value = Child::new(alloc, value)?;
        Ok(Signature::Dict { key, value })
    }

    /// A structure of these fields.
    pub fn structure(fields: Fields) -> Signature
        ensures { result ≡ Structure fields }
    {
        Signature::Structure(fields)
    }

    /// The same signature once more.
    pub fn duplicate(&self, alloc: Global) -> Result<Signature, OutOfMemory>
        ensures { IfOk result (λ copy. copy ≡ self.now) }
    {
        copy(alloc, self)
    }
}

#[cycle(copying)]
fn copy(alloc: Global, signature: &Signature) -> Result<Signature, OutOfMemory>
    ensures { IfOk result (λ copied. copied ≡ signature.now) }
{
    match signature {
        Signature::Unit => Ok(Signature::Unit),
        Signature::U8 => Ok(Signature::U8),
        Signature::Bool => Ok(Signature::Bool),
        Signature::I16 => Ok(Signature::I16),
        Signature::U16 => Ok(Signature::U16),
        Signature::I32 => Ok(Signature::I32),
        Signature::U32 => Ok(Signature::U32),
        Signature::I64 => Ok(Signature::I64),
        Signature::U64 => Ok(Signature::U64),
        Signature::F64 => Ok(Signature::F64),
        Signature::Str => Ok(Signature::Str),
        Signature::Signature => Ok(Signature::Signature),
        Signature::ObjectPath => Ok(Signature::ObjectPath),
        Signature::Variant => Ok(Signature::Variant),
        Signature::Fd => Ok(Signature::Fd),
        Signature::Array(child) => Signature::array(alloc, copy(alloc, child.get())?),
        Signature::Dict { key, value } => {
            let key = copy(alloc, key.get())?;
            let value = copy(alloc, value.get())?;
            Signature::dict(alloc, key, value)
        }
        Signature::Structure(fields) => {
            let copied = copy_all(alloc, fields.as_slice())?;
            Ok(Signature::Structure(copied))
        }
    }
}

#[cycle(copying)]
fn copy_all(alloc: Global, signatures: &[Signature]) -> Result<Fields, OutOfMemory>
    ensures { IfOk result (λ copied. copied ≡ signatures.now) }
{
    let mut copied = Fields::new(alloc);
    for signature in signatures {
        copied.push(copy(alloc, signature)?)?;
    }
    Ok(copied)
}
