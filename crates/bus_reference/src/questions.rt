//! Whether two questions are one.

ghost use Rattle.std.specs.Prelude.{◌≡◌};
ghost use Rattle.std.specs.Str.{bytes_eq};
ghost use Rattle.bus_session.specs.Dialling.{is_same_peer, is_same_option, are_same, is_same};

use react_core::outside::{Bytes, Peer, Question};

/// Whether two are the same bytes.
pub(crate) fn same_bytes(a: &[u8], b: &[u8]) -> bool
    ensures value { result ≡ bytes_eq a.now b.now }
{
    a == b
}

// Whether two peers are one.
fn is_same_peer(a: &Peer, b: &Peer) -> bool
    ensures value { result ≡ is_same_peer a.now b.now }
{
    match (*a, *b) {
        (
            Peer::V4 { ip, port },
            Peer::V4 {
                ip: other,
                port: at,
            },
        ) => ip == other && port == at,
        (
            Peer::V6 { ip, port },
            Peer::V6 {
                ip: other,
                port: at,
            },
        ) => ip == other && port == at,
        _ => false,
    }
}

// Whether both are missing, or both are the same.
fn is_same_option(a: &Option<Bytes>, b: &Option<Bytes>) -> bool
    ensures value { result ≡ is_same_option a.now b.now }
{
    match (a, b) {
        (None, None) => true,
        (Some(a), Some(b)) => same_bytes(a.as_slice(), b.as_slice()),
        _ => false,
    }
}

// Whether the arguments are the same.
fn are_same(one: &[Bytes], two: &[Bytes]) -> bool
    ensures value { result ≡ are_same one.now two.now }
{
    match (one.split_first(), two.split_first()) {
        (None, None) => true,
        (Some((a, one)), Some((b, two))) => {
            same_bytes(a.as_slice(), b.as_slice()) && are_same(one, two)
        }
        _ => false,
    }
}

/// Whether two questions are one.
pub(crate) fn is_same(a: &Question, b: &Question) -> bool
    ensures value { result ≡ is_same a.now b.now }
{
    match (a, b) {
        (Question::Unix(a), Question::Unix(b)) => same_bytes(a.as_slice(), b.as_slice()),
        (Question::Abstract(a), Question::Abstract(b)) => same_bytes(a.as_slice(), b.as_slice()),
        (
            Question::Lookup { host, port },
            Question::Lookup {
                host: other,
                port: at,
            },
        ) => same_bytes(host.as_slice(), other.as_slice()) && *port == *at,
        (Question::Tcp(a), Question::Tcp(b)) => is_same_peer(a, b),
        (Question::Nonce(a), Question::Nonce(b)) => same_bytes(a.as_slice(), b.as_slice()),
        (
            Question::Start {
                program,
                arg0,
                args,
            },
            Question::Start {
                program: other,
                arg0: name,
                args: words,
            },
        ) => {
            same_bytes(program.as_slice(), other.as_slice())
                && is_same_option(arg0, name)
                && are_same(args.as_slice(), words.as_slice())
        }
        (Question::Ibus, Question::Ibus) => true,
        (Question::Accept, Question::Accept) => true,
        _ => false,
    }
}
