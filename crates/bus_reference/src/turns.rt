//! What is said after lines, by either side.

ghost use Rattle.std.specs.Prelude.{◌≡◌, [], ◌∷◌, IfOk};
ghost use Rattle.bus_reference.specs.Views.{as_said, ahead};

use bus_address::Guid;
use react_core::outside::Bytes;
use std::alloc::{AllocError, Global};

/// How far a conversation has come.
#[derive(Clone, Copy)]
pub(crate) enum Status {
    More,
    Done(Guid, bool),
    Refused,
}

/// Pieces to be sent, and the next step or the end.
#[derive(Drop)]
pub(crate) enum Turn<P> {
    Goes(Vec<Bytes>, P),
    Ends(Vec<Bytes>, Status),
}

/// The pieces to be sent, and how far the conversation has come.
#[derive(Drop)]
pub(crate) struct Said {
    pub(crate) pieces: Vec<Bytes>,
    pub(crate) status: Status,
}

/// One piece.
pub(crate) fn only(alloc: Global, piece: Vec<u8>) -> Result<Vec<Bytes>, AllocError>
    ensures value { IfOk result (λ v. v.items ≡ piece.items ∷ []) }
{
    let mut pieces = Vec::new(alloc);
    pieces.push(Bytes::from_vec(piece))?;
    Ok(pieces)
}

/// More pieces before what is said.
pub(crate) fn ahead(mut before: Vec<Bytes>, said: Said) -> Result<Said, AllocError>
    ensures value { IfOk result (λ s. as_said s ≡ ahead before.items (as_said said)) }
{
    let Said { mut pieces, status } = said;
    before.append(&mut pieces)?;
    Ok(Said {
        pieces: before,
        status,
    })
}
