//! What the tables of several crates share.

use react_core::outside::Bytes;
use std::alloc::Global;
use std::test::Fail;

/// The GUID of the servers.
pub(crate) const GUID: &str = "1234deadbeef1234deadbeef12345678";

/// These bytes, owned.
pub(crate) fn bytes(alloc: Global, from: &[u8]) -> Result<Bytes, Fail> {
    Ok(Bytes::from_vec(Vec::from_slice(alloc, from)?))
}
