//! Addresses, escapes and GUIDs.

use bus_address::{
    Address, AddressError, AddressKind, Guid, Ibus, InvalidGuid, Octets, OutOfMemory, Tcp,
    TcpTransportFamily, Transport, Unix, UnixSocket, Unixexec, decode_percents, encode_percents,
    laws,
};
use std::alloc::Global;
use std::fmt::Display;
use std::str::FromStr;
use std::test::Fail;

const GUID: &str = "00112233445566778899aabbccddeeff";

#[test]
fn a_guid_is_read_in_either_case_and_printed_in_lower_case(rt: HostRuntime) -> Result<(), Fail> {
    let guid = Guid::from_str("1234DEADbeef1234deadbeef12345678")?;
    assert_eq!(rt; guid.as_str(), "1234deadbeef1234deadbeef12345678");
    let printed = guid.to_string(rt.alloc())?;
    assert_eq!(rt; printed.as_str(), "1234deadbeef1234deadbeef12345678");
    for text in [
        "",
        "1234deadbeef1234deadbeef1234567",
        "1234deadbeef1234deadbeef123456789",
        "1234deadbeef1234deadbeef1234567g",
    ] {
        assert!(rt; Guid::from_str(text).is_err(), "{text}");
    }
    Ok(())
}

/// What `parse` reads, through the trait.
fn parsed<T: FromStr>(text: &str) -> Option<T>
where
    T::Err: Drop,
{
    <T as FromStr>::from_str(text).ok()
}

#[test]
fn guids_and_families_are_parsed_as_texts_are(rt: HostRuntime) -> Result<(), Fail> {
    assert_eq!(rt; parsed::<Guid>(GUID), Guid::from_str(GUID).ok());
    assert_eq!(rt; parsed::<Guid>("00"), None);
    assert_eq!(rt;
        parsed::<TcpTransportFamily>("ipv6"),
        Some(TcpTransportFamily::Ipv6)
    );
    assert_eq!(rt; parsed::<TcpTransportFamily>("IPv6"), None);
    Ok(())
}

/// The text of an error.
fn printed<E: Display + Drop>(alloc: Global, error: E) -> Result<String, Fail> {
    Ok(format!(in alloc; "{error}")?)
}

#[test]
fn errors_are_printed_and_numbered(rt: HostRuntime) -> Result<(), Fail> {
    let kinds = [
        (AddressKind::Form, 1, "Form"),
        (AddressKind::BadGuid, 2, "BadGuid"),
        (AddressKind::UnknownTransport, 3, "UnknownTransport"),
        (AddressKind::Keys, 4, "Keys"),
        (AddressKind::MissingPath, 5, "MissingPath"),
        (AddressKind::Bind, 6, "Bind"),
        (AddressKind::MissingHost, 7, "MissingHost"),
        (AddressKind::MissingPort, 8, "MissingPort"),
        (AddressKind::BadPort, 9, "BadPort"),
        (AddressKind::BadFamily, 10, "BadFamily"),
        (AddressKind::MissingNonceFile, 11, "MissingNonceFile"),
        (AddressKind::BadEscape, 12, "BadEscape"),
        (AddressKind::HostText, 13, "HostText"),
    ];
    for (kind, number, name) in kinds {
        assert_eq!(rt; kind.number(), number, "{name}");
        assert_eq!(rt; printed(rt.alloc(), kind)?.as_str(), name);
        let error = AddressError::from(kind);
        assert_eq!(rt; printed(rt.alloc(), error)?.as_str(), name);
    }
    let error = AddressError::from(OutOfMemory);
    assert_eq!(rt; printed(rt.alloc(), error)?.as_str(), "out of memory");
    assert_eq!(rt; printed(rt.alloc(), OutOfMemory)?.as_str(), "out of memory");
    assert_eq!(rt;
        printed(rt.alloc(), InvalidGuid)?.as_str(),
        "not 32 hexadecimal digits"
    );
    Ok(())
}

#[test]
fn bytes_are_escaped_and_read_back(rt: HostRuntime) -> Result<(), Fail> {
    let written = [
        (b"/run/a-b_c.d\\*Z9".as_slice(), "/run/a-b_c.d\\*Z9"),
        (b"/a b", "/a%20b"),
        (b"\0\x7f\xff", "%00%7f%ff"),
        (b"%,;=", "%25%2c%3b%3d"),
        (b"", ""),
        (
            b"a\xc3\xa9\xc3\xa9\xc3\xa9\xc3\xa9\xc3\xa9\xc3\xa9\xc3\xa9\xc3\xa9 b",
            "a%c3%a9%c3%a9%c3%a9%c3%a9%c3%a9%c3%a9%c3%a9%c3%a9%20b",
        ),
    ];
    for (bytes, want) in written {
        let text = encode_percents(rt.alloc(), bytes)?;
        assert_eq!(rt; text.as_str(), want);
        let back = decode_percents(rt.alloc(), want)?;
        assert_eq!(rt; back.as_slice(), bytes, "{want}");
    }
    let read = [("%2F%2f", b"//".as_slice()), ("%41", b"A")];
    for (text, want) in read {
        let bytes = decode_percents(rt.alloc(), text)?;
        assert_eq!(rt; bytes.as_slice(), want, "{text}");
    }
    for text in ["%", "%2", "%2g", "%g2", "a b", "%%20", "é"] {
        let refused = decode_percents(rt.alloc(), text).err();
        assert_eq!(rt;
            refused,
            Some(AddressError::Kind(AddressKind::BadEscape)),
            "{text}"
        );
    }
    Ok(())
}

#[test]
fn a_wrong_text_is_refused_with_its_first_kind(rt: HostRuntime) -> Result<(), Fail> {
    let table = [
        ("", AddressKind::Form),
        ("foo", AddressKind::Form),
        ("foo:opt", AddressKind::Form),
        (":path=/a", AddressKind::Form),
        ("unix:path=/a,", AddressKind::Form),
        ("unix:path=/a,,dir=/b", AddressKind::Form),
        ("unix:path=", AddressKind::Form),
        ("unix:=/a", AddressKind::Form),
        ("unix:pa-th=/a", AddressKind::Form),
        (
            "ibus:,guid=00112233445566778899aabbccddeeff",
            AddressKind::Form,
        ),
        ("unix:path=/a,guid=12", AddressKind::BadGuid),
        ("foo:guid=12", AddressKind::BadGuid),
        ("foo:opt=1,opt=2", AddressKind::UnknownTransport),
        ("foo:", AddressKind::UnknownTransport),
        ("unix:path=/tmp,abstract=foo", AddressKind::Keys),
        ("unix:foo=blah", AddressKind::Keys),
        ("unix:path=/a b,dir=/b", AddressKind::Keys),
        ("unix:path=/a b", AddressKind::BadEscape),
        ("unix:path=/a;unix:path=/b", AddressKind::BadEscape),
        ("unix:abstract=%2", AddressKind::BadEscape),
        ("tcp:bind=*,port=1", AddressKind::Bind),
        ("tcp:port=123", AddressKind::MissingHost),
        ("tcp:host=a b", AddressKind::BadEscape),
        ("tcp:host=%ff", AddressKind::HostText),
        ("tcp:host=localhost", AddressKind::MissingPort),
        ("tcp:host=localhost,port=32f", AddressKind::BadPort),
        ("tcp:host=localhost,port=65536", AddressKind::BadPort),
        ("tcp:host=localhost,port=+", AddressKind::BadPort),
        ("tcp:host=localhost,port=-1", AddressKind::BadPort),
        (
            "tcp:host=localhost,port=123,family=ipv7",
            AddressKind::BadFamily,
        ),
        (
            "tcp:host=localhost,port=123,noncefile=%",
            AddressKind::BadEscape,
        ),
        (
            "nonce-tcp:host=localhost,port=123",
            AddressKind::MissingNonceFile,
        ),
        ("unixexec:foo=blah", AddressKind::MissingPath),
        ("unixexec:path=%g0", AddressKind::BadEscape),
        ("unixexec:path=/a,argv0= ", AddressKind::BadEscape),
        ("unixexec:path=/a,argv1=x,argv2= ", AddressKind::BadEscape),
    ];
    for (text, kind) in table {
        let refused = Address::from_str(rt.alloc(), text).err();
        assert_eq!(rt; refused, Some(AddressError::Kind(kind)), "{text}");
    }
    Ok(())
}

#[test]
fn a_text_is_read_and_printed(rt: HostRuntime) -> Result<(), Fail> {
    let table = [
        ("unix:path=/run/a%20b", "unix:path=/run/a%20b"),
        ("unix:path=/a,path=/b", "unix:path=/b"),
        ("unix:path=%2Ftmp%2f%41", "unix:path=/tmp/A"),
        ("unix:path=/%FF", "unix:path=/%ff"),
        ("unix:abstract=x,bind=*", "unix:abstract=x"),
        ("unix:dir=/tmp,foo=b=c", "unix:dir=/tmp"),
        ("unix:tmpdir=/tmp", "unix:tmpdir=/tmp"),
        ("unix:path=/a b,path=/c", "unix:path=/c"),
        ("tcp:host=localhost,port=0", "tcp:host=localhost,port=0"),
        ("tcp:port=65535,host=%3a%3a1", "tcp:host=%3a%3a1,port=65535"),
        ("tcp:host=h,port=+80", "tcp:host=h,port=80"),
        (
            "tcp:host=h,port=00080,family=ipv4",
            "tcp:host=h,port=80,family=ipv4",
        ),
        (
            "tcp:host=%c3%a9,port=1,noncefile=/n",
            "nonce-tcp:noncefile=/n,host=%c3%a9,port=1",
        ),
        (
            "nonce-tcp:host=localhost,port=4142,family=ipv6,noncefile=/a/file/path%20to%20file%201234",
            "nonce-tcp:noncefile=/a/file/path%20to%20file%201234,host=localhost,port=4142,family=ipv6",
        ),
        ("unixexec:path=/bin/x,argv2=b", "unixexec:path=/bin/x"),
        (
            "unixexec:argv3=d,argv1=b,argv0=a,path=/bin/x",
            "unixexec:path=/bin/x,argv0=a,argv1=b",
        ),
        (
            "unixexec:path=/x,argv1=a,argv01= ,argv2=b",
            "unixexec:path=/x,argv1=a,argv2=b",
        ),
        ("ibus:", "ibus:"),
        (
            "ibus:guid=00112233445566778899AABBCCDDEEFF",
            "ibus:guid=00112233445566778899aabbccddeeff",
        ),
        (
            "unix:guid=00112233445566778899aabbccddeeff,path=/a",
            "unix:path=/a,guid=00112233445566778899aabbccddeeff",
        ),
    ];
    for (text, want) in table {
        let address = Address::try_from_text(rt.alloc(), text)?;
        let printed = address.to_string(rt.alloc())?;
        assert_eq!(rt; printed.as_str(), want, "{text}");
    }
    Ok(())
}

#[test]
fn an_address_is_made_of_its_parts(rt: HostRuntime) -> Result<(), Fail> {
    let alloc = rt.alloc();
    let path = Octets::from_vec(Vec::from_slice(alloc, b"/a")?);
    let unix = Unix::new(UnixSocket::File(path));
    assert!(rt; matches!(unix.path(), UnixSocket::File(_)));
    let octets = Octets::from_vec(Vec::from_slice(alloc, b"/a")?);
    assert_eq!(rt; octets.into_vec().as_slice(), b"/a".as_slice());
    let guid = Guid::from_str(GUID)?;
    let address = Address::new(Transport::Unix(unix)).set_guid(guid);
    assert_eq!(rt; address.guid(), Some(guid));
    assert!(rt; matches!(address.transport(), Transport::Unix(_)));
    assert!(rt;
        address == Address::from_str(alloc, "unix:path=/a,guid=00112233445566778899aabbccddeeff")?
    );
    assert_eq!(rt; Ibus::new(), Ibus::default());
    Ok(())
}

/// A TCP transport with all of its parts.
fn whole_tcp(alloc: Global) -> Result<Tcp, Fail> {
    let bind = String::from_str(alloc, "*")?;
    let file = Vec::from_slice(alloc, b"/n")?;
    let family = TcpTransportFamily::from_str("ipv6").ok();
    Ok(
        Tcp::new(alloc, "h", 80)?
            .set_bind(Some(bind))
            .set_family(family)
            .set_nonce_file(Some(file)),
    )
}

#[test]
fn a_tcp_transport_is_asked_for_its_parts(rt: HostRuntime) -> Result<(), Fail> {
    let mut tcp = whole_tcp(rt.alloc())?;
    let printed = tcp.to_string(rt.alloc())?;
    assert_eq!(rt;
        printed.as_str(),
        "nonce-tcp:noncefile=/n,host=h,port=80,bind=*,family=ipv6"
    );
    assert_eq!(rt;
        (tcp.host(), tcp.port(), tcp.family()),
        ("h", 80, Some(TcpTransportFamily::Ipv6))
    );
    assert_eq!(rt; tcp.bind(), Some("*"));
    assert_eq!(rt; tcp.nonce_file(), Some(b"/n".as_slice()));
    assert!(rt; tcp.take_nonce_file().is_some());
    assert_eq!(rt; tcp.nonce_file(), None);
    Ok(())
}

#[test]
fn a_program_is_asked_for_its_parts(rt: HostRuntime) -> Result<(), Fail> {
    let alloc = rt.alloc();
    let path = Vec::from_slice(alloc, b"/x")?;
    let mut args = Vec::new(alloc);
    args.push(Vec::from_slice(alloc, b"a b")?)?;
    let unixexec = Unixexec::new(path, None, args);
    assert_eq!(rt; unixexec.path(), b"/x".as_slice());
    assert_eq!(rt; unixexec.arg0(), None);
    assert_eq!(rt; unixexec.args().len(), 1);
    let printed = unixexec.to_string(alloc)?;
    assert_eq!(rt; printed.as_str(), "unixexec:path=/x,argv1=a%20b");
    Ok(())
}

#[test]
fn an_address_without_bind_and_empty_values_comes_back(rt: HostRuntime) -> Result<(), Fail> {
    let alloc = rt.alloc();
    for text in [
        "unix:path=/a%20b",
        "nonce-tcp:noncefile=/n,host=h,port=80,family=ipv6",
        "unixexec:path=/x,argv0=y,argv1=a,argv2=b,guid=00112233445566778899aabbccddeeff",
        "ibus:",
    ] {
        let address = Address::from_str(alloc, text)?;
        assert!(rt; address.is_readable(), "{text}");
        assert!(rt; laws::read_back(alloc, &address)? == address, "{text}");
    }
    let bound = Address::new(Transport::Tcp(whole_tcp(alloc)?));
    assert!(rt; !bound.is_readable());
    let empty = Octets::from_vec(Vec::new(alloc));
    let nowhere = Address::new(Transport::Unix(Unix::new(UnixSocket::File(empty))));
    assert!(rt; !nowhere.is_readable());
    Ok(())
}

#[test]
fn the_known_buses_have_addresses(rt: HostRuntime) -> Result<(), Fail> {
    let table = [
        (Some("unix:path=/e"), Some(b"/r".as_slice()), "unix:path=/e"),
        (None, Some(b"/run/x y"), "unix:path=/run/x%20y/bus"),
        (None, None, "unix:path=/run/user/1000/bus"),
    ];
    for (env, folder, want) in table {
        let address = Address::session(rt.alloc(), env, folder, 1000)?;
        let printed = address.to_string(rt.alloc())?;
        assert_eq!(rt; printed.as_str(), want);
    }
    let refused = Address::session(rt.alloc(), Some(""), None, 1000).err();
    assert_eq!(rt; refused, Some(AddressError::Kind(AddressKind::Form)));
    let system = Address::system(rt.alloc(), None)?.to_string(rt.alloc())?;
    assert_eq!(rt;
        system.as_str(),
        "unix:path=/var/run/dbus/system_bus_socket"
    );
    let other = Address::system(rt.alloc(), Some("ibus:"))?.to_string(rt.alloc())?;
    assert_eq!(rt; other.as_str(), "ibus:");
    Ok(())
}
