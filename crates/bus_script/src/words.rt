//! The parts of a text between separators.

ghost use Rattle.std.specs.Prelude.{◌≡◌, IfOk, map};
ghost use Rattle.bus_script.specs.Words.{words_of, parts_of};

use std::alloc::{AllocError, Global};

/// The words of a line.
pub(crate) fn words(alloc: Global, line: &str) -> Result<Vec<&str>, AllocError>
    ensures { IfOk result (λ v. map (λ x. x.now) v.items ≡ words_of line.now) }
{
    line.split(' ').collect(alloc)
}

/// The parts of a peer.
pub(crate) fn split_peer(alloc: Global, word: &str) -> Result<Vec<&str>, AllocError>
    ensures { IfOk result (λ v. map (λ x. x.now) v.items ≡ parts_of 45 word.now) }
{
    word.split('-').collect(alloc)
}
