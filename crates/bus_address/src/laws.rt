//! What holds of addresses and GUIDs beyond single calls: equality, order, hashes, and reading back what was printed.

ghost use Rattle.std.specs.Prelude.{◌≡◌, ◌↔◌, ℕ, List, IsTrue, Some, Ok};
ghost use Rattle.std.specs.Cmp.Lexicographic.{slice_cmp};
ghost use Rattle.std.specs.Hash as fed;
ghost use Rattle.std.specs.Ordering.{nat_cmp};
ghost use Rattle.bus_address.specs.declared.error.AddressError.{AddressError as Refusal};
ghost use Rattle.bus_address.specs.declared.error.AddressKind.{AddressKind as Why};
ghost use Rattle.bus_address.specs.declared.tcp.TcpTransportFamily.{TcpTransportFamily as Family};
ghost use Rattle.bus_address.specs.declared.transport.Transport.{Transport as Way};
ghost use Rattle.bus_address.specs.declared.unix.UnixSocket.{UnixSocket as Place};
ghost use Rattle.bus_address.specs.Address.{AddressParts};
ghost use Rattle.bus_address.specs.Errors.{Gives};
ghost use Rattle.bus_address.specs.Parts.{TcpParts, ProgramParts};
ghost use Rattle.bus_address.specs.ReadBack.{is_readable};

use crate::address::Address;
use crate::error::{AddressError, AddressKind};
use crate::guid::Guid;
use crate::octets::Octets;
use crate::tcp::{Tcp, TcpTransportFamily};
use crate::transport::Transport;
use crate::unix::{Unix, UnixSocket};
use crate::unixexec::Unixexec;
use std::alloc::Global;
use std::hash::Hash;

/// GUIDs are equal, ordered and hashed as their digits.
pub fn guids_compare_as_digits()
    ensures equal { (a b : List ℕ) → IsTrue (⟦<Guid as PartialEq>⟧.eq a b) ↔ (a ≡ b) }
    ensures order { (a b : List ℕ) → ⟦<Guid as Ord>⟧.cmp a b ≡ slice_cmp nat_cmp a b }
    ensures less { (a b : List ℕ) → ⟦<Guid as PartialOrd>⟧.partial_cmp a b ≡ Some (slice_cmp nat_cmp a b) }
    ensures hash { (a : List ℕ) → ⟦<Guid as Hash>⟧.hash_input a ≡ fed.slice fed.u8 a }
{}

/// Addresses are equal exactly where they are one value.
pub fn addresses_are_equal_as_values()
    ensures { (a b : AddressParts) → IsTrue (⟦<Address as PartialEq>⟧.eq a b) ↔ (a ≡ b) }
{}

/// The parts of addresses are equal exactly where they are one value.
pub fn parts_are_equal_as_values()
    ensures transports { (a b : Way) → IsTrue (⟦<Transport as PartialEq>⟧.eq a b) ↔ (a ≡ b) }
    ensures sockets { (a b : Place) → IsTrue (⟦<UnixSocket as PartialEq>⟧.eq a b) ↔ (a ≡ b) }
    ensures unix { (a b : Place) → IsTrue (⟦<Unix as PartialEq>⟧.eq a b) ↔ (a ≡ b) }
    ensures tcp { (a b : TcpParts) → IsTrue (⟦<Tcp as PartialEq>⟧.eq a b) ↔ (a ≡ b) }
    ensures programs { (a b : ProgramParts) → IsTrue (⟦<Unixexec as PartialEq>⟧.eq a b) ↔ (a ≡ b) }
    ensures octets { (a b : List ℕ) → IsTrue (⟦<Octets as PartialEq>⟧.eq a b) ↔ (a ≡ b) }
    ensures families { (a b : Family) → IsTrue (⟦<TcpTransportFamily as PartialEq>⟧.eq a b) ↔ (a ≡ b) }
{}

/// Refusals are equal exactly where they are one value.
pub fn refusals_are_equal_as_values()
    ensures kinds { (a b : Why) → IsTrue (⟦<AddressKind as PartialEq>⟧.eq a b) ↔ (a ≡ b) }
    ensures errors { (a b : Refusal) → IsTrue (⟦<AddressError as PartialEq>⟧.eq a b) ↔ (a ≡ b) }
{}

/// Prints an address and reads it again: it comes back, want of memory aside.
pub fn read_back(alloc: Global, address: &Address) -> Result<Address, AddressError>
    requires { IsTrue (is_readable address.now) }
    ensures { Gives result (Ok address.now) }
{
    let _is_readable = address.is_readable();
    let printed = address.to_string(alloc)?;
    Address::from_str(alloc, printed.as_str())
}
