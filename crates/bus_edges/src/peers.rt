//! Addresses of the network, as the traits and as the system have them.
use react_core::outside::Peer;
use std::net::{Ipv4Addr, Ipv6Addr, SocketAddr, SocketAddrV4, SocketAddrV6};

/// The system's address of a peer.
pub(crate) fn address_of(peer: Peer) -> SocketAddr {
    match peer {
        Peer::V4 { ip, port } => SocketAddr::V4(SocketAddrV4::new(Ipv4Addr::from_bits(ip), port)),
        Peer::V6 { ip, port } => {
            SocketAddr::V6(SocketAddrV6::new(Ipv6Addr::from_bits(ip), port, 0, 0))
        }
    }
}

/// The peer at an address. Scope and flow are left out.
pub(crate) fn peer_at(address: SocketAddr) -> Peer {
    match address {
        SocketAddr::V4(v4) => Peer::V4 {
            ip: v4.ip().to_bits(),
            port: v4.port(),
        },
        SocketAddr::V6(v6) => Peer::V6 {
            ip: v6.ip().to_bits(),
            port: v6.port(),
        },
    }
}
