//! Bus addresses: server addresses, the escapes in their values, and GUIDs (D-Bus specification,
//! Server Addresses).
#![tactic(auto)]

mod address;
mod error;
mod escapes;
mod guid;
mod ibus;
pub mod laws;
mod octets;
mod options;
mod printing;
mod reading;
mod tcp;
mod text;
mod transport;
mod unix;
mod unixexec;

pub use address::Address;
pub use error::{AddressError, AddressKind, OutOfMemory};
pub use escapes::{decode_percents, encode_percents};
pub use guid::{Guid, InvalidGuid};
pub use ibus::Ibus;
pub use octets::Octets;
pub use tcp::{Tcp, TcpTransportFamily};
pub use text::Text;
pub use transport::Transport;
pub use unix::{Unix, UnixSocket};
pub use unixexec::Unixexec;
