//! The grammars of names, their refusals and how names compare.

use bus_names::kind::{Failure, Interface, Kind, Member, Property, Unique, WellKnown};
use bus_names::{
    BusName, Error, MemberName, Name, OwnedBusName, OwnedMemberName, OwnedName, OwnedUniqueName,
    OwnedWellKnownName, UniqueName, WellKnownName,
};
use std::alloc::{AllocError, Global};
use std::cmp::Ordering;
use std::convert::TryFrom;
use std::hash::{DefaultHasher, Hash, Hasher};
use std::test::Fail;

/// Texts, and the kinds that read them. A text is what stands first and then so many letters `b`.
/// The kinds are those of `kinds_of`.
const TEXTS: [(&str, usize, &str); 57] = [
    ("org.freedesktop.DBus", 0, "UWIE-PU"),
    ("org.freedesktop.dbus", 0, "-WIE-PW"),
    ("org.freedesktop.DBus", 1, "-WIE-PW"),
    ("org.freedesktop.DBu", 0, "-WIE-PW"),
    (":1.42", 0, "U----PU"),
    (":1.2", 0, "U----PU"),
    (":1", 0, "-----P-"),
    (":", 0, "-----P-"),
    (":.", 0, "-----P-"),
    (":1.", 0, "-----P-"),
    (":.1", 0, "-----P-"),
    (":1..2", 0, "-----P-"),
    ("1.42", 0, "-----P-"),
    ("::1.42", 0, "-----P-"),
    (":a-b._c.9", 0, "U----PU"),
    ("", 0, "-------"),
    ("a", 0, "----MP-"),
    ("_", 0, "----MP-"),
    ("Z9_", 0, "----MP-"),
    ("9a", 0, "-----P-"),
    ("-", 0, "-----P-"),
    ("a-b", 0, "-----P-"),
    ("a.b", 0, "-WIE-PW"),
    ("_.A.z_9", 0, "-WIE-PW"),
    (".", 0, "-----P-"),
    ("a.", 0, "-----P-"),
    (".a.b", 0, "-----P-"),
    ("a.b.", 0, "-----P-"),
    ("a..b", 0, "-----P-"),
    ("9a.b", 0, "-----P-"),
    ("a.9b", 0, "-----P-"),
    ("a-b.c", 0, "-W---PW"),
    ("-a.b", 0, "-W---PW"),
    ("a.-", 0, "-W---PW"),
    ("a.b c", 0, "-----P-"),
    ("a.@", 0, "-----P-"),
    ("a.[", 0, "-----P-"),
    ("a.`", 0, "-----P-"),
    ("a.{", 0, "-----P-"),
    ("a./", 0, "-----P-"),
    ("a.b:", 0, "-----P-"),
    ("a.b,", 0, "-----P-"),
    ("a.b\n", 0, "-----P-"),
    ("a.b\0", 0, "-----P-"),
    ("\u{e9}", 0, "-----P-"),
    ("a.\u{e9}", 0, "-----P-"),
    (":1.\u{e9}", 0, "-----P-"),
    ("a.", 253, "-WIE-PW"),
    ("a.", 254, "-------"),
    (":1.", 252, "U----PU"),
    (":1.", 253, "-------"),
    ("-.", 253, "-W---PW"),
    ("-.", 254, "-------"),
    ("", 255, "----MP-"),
    ("", 256, "-------"),
    ("\u{e9}", 253, "-----P-"),
    ("\u{e9}", 254, "-------"),
];

/// The letter where each reading takes the text as a name of the kind, `-` where each refuses it.
fn answer<K: Kind>(alloc: Global, text: &str, letter: char) -> Result<char, AllocError> {
    let is_lent = Name::<K>::try_from(text).is_ok();
    let is_copied = OwnedName::<K>::try_from_text(alloc, text).is_ok();
    let is_taken = OwnedName::<K>::try_from_string(String::from_str(alloc, text)?).is_ok();
    let is_converted = OwnedName::<K>::try_from(String::from_str(alloc, text)?).is_ok();
    match (
        Name::<K>::is_valid(text),
        is_lent,
        is_copied,
        is_taken,
        is_converted,
    ) {
        (true, true, true, true, true) => Ok(letter),
        (false, false, false, false, false) => Ok('-'),
        _ => Ok('?'),
    }
}

/// `U` or `W` where each reading takes the text as a unique or a well-known bus name, `-` where
/// each refuses it.
fn bus_answer(alloc: Global, text: &str) -> Result<char, AllocError> {
    let string = String::from_str(alloc, text)?;
    let lent = BusName::try_from(text);
    let copied = OwnedBusName::try_from_text(alloc, text);
    let taken = OwnedBusName::try_from_string(string);
    match (lent, copied, taken) {
        (Ok(BusName::Unique(_)), Ok(OwnedBusName::Unique(_)), Ok(OwnedBusName::Unique(_))) => Ok(
            'U',
        ),
        (
            Ok(BusName::WellKnown(_)),
            Ok(OwnedBusName::WellKnown(_)),
            Ok(OwnedBusName::WellKnown(_)),
        ) => Ok('W'),
        (Err(_), Err(_), Err(_)) => Ok('-'),
        _ => Ok('?'),
    }
}

/// The answers of the kinds: unique, well-known, interface, error, member, property and bus.
fn kinds_of(alloc: Global, text: &str) -> Result<String, AllocError> {
    let mut kinds = String::new(alloc);
    kinds.push(answer::<Unique>(alloc, text, 'U')?)?;
    kinds.push(answer::<WellKnown>(alloc, text, 'W')?)?;
    kinds.push(answer::<Interface>(alloc, text, 'I')?)?;
    kinds.push(answer::<Failure>(alloc, text, 'E')?)?;
    kinds.push(answer::<Member>(alloc, text, 'M')?)?;
    kinds.push(answer::<Property>(alloc, text, 'P')?)?;
    kinds.push(bus_answer(alloc, text)?)?;
    Ok(kinds)
}

#[test]
fn texts_are_read_by_the_grammars_that_have_them(rt: HostRuntime) -> Result<(), Fail> {
    for (start, letters, kinds) in TEXTS {
        let mut text = String::from_str(rt.alloc(), start)?;
        for _ in 0..letters {
            text.push('b')?;
        }
        let read = kinds_of(rt.alloc(), text.as_str())?;
        assert_eq!(rt; read.as_str(), kinds, "{text}");
    }
    Ok(())
}

/// What an error prints, or nothing where there is none.
fn why(alloc: Global, error: Option<Error>) -> Result<String, AllocError> {
    match error {
        Some(error) => error.to_string(alloc),
        None => Ok(String::new(alloc)),
    }
}

/// What the refusal of a text as a name of the kind prints.
fn refusal<K: Kind>(alloc: Global, text: &str) -> Result<String, AllocError> {
    why(alloc, Name::<K>::try_from(text).err())
}

#[test]
fn refusals_name_the_kind(rt: HostRuntime) -> Result<(), Fail> {
    let alloc = rt.alloc();
    let mut long = String::new(alloc);
    for _ in 0..256 {
        long.push('b')?;
    }
    let printed = [
        refusal::<Unique>(alloc, "a")?,
        refusal::<WellKnown>(alloc, "a")?,
        refusal::<Interface>(alloc, "a")?,
        refusal::<Member>(alloc, "a.b")?,
        refusal::<Failure>(alloc, "a")?,
        refusal::<Property>(alloc, "")?,
        refusal::<Property>(alloc, long.as_str())?,
    ];
    let expected = [
        "Invalid unique name. See https://dbus.freedesktop.org/doc/dbus-specification.html#message-protocol-names-bus",
        "Invalid well-known name. See https://dbus.freedesktop.org/doc/dbus-specification.html#message-protocol-names-bus",
        "Invalid interface name. See https://dbus.freedesktop.org/doc/dbus-specification.html#message-protocol-names-interface",
        "Invalid member name. See https://dbus.freedesktop.org/doc/dbus-specification.html#message-protocol-names-member",
        "Invalid error name. See https://dbus.freedesktop.org/doc/dbus-specification.html#message-protocol-names-error",
        "Invalid property name. It has to be at least 1 character long.",
        "Invalid property name. It can not be longer than 255 characters.",
    ];
    for (printed, expected) in printed.iter().zip(expected) {
        assert_eq!(rt; printed.as_str(), expected);
    }
    Ok(())
}

/// What the refusals of a bus name as a unique and as a well-known name print, each nothing where
/// it is given.
fn conversions(alloc: Global, text: &str) -> Result<[String; 4], Error> {
    let lent_unique = BusName::try_from(text)?.into_unique();
    let lent_well_known = BusName::try_from(text)?.into_well_known();
    let unique = OwnedBusName::try_from_text(alloc, text)?.into_unique();
    let well_known = OwnedBusName::try_from_text(alloc, text)?.into_well_known();
    Ok([
        why(alloc, lent_unique.err())?,
        why(alloc, unique.err())?,
        why(alloc, lent_well_known.err())?,
        why(alloc, well_known.err())?,
    ])
}

#[test]
fn conversions_name_both_kinds(rt: HostRuntime) -> Result<(), Fail> {
    let alloc = rt.alloc();
    let to_well_known = "Invalid conversion from `UniqueName` to `WellKnownName`";
    let to_unique = "Invalid conversion from `WellKnownName` to `UniqueName`";
    let cases = [
        (":1.42", ["", "", to_well_known, to_well_known]),
        (
            "org.freedesktop.DBus",
            ["", "", to_well_known, to_well_known],
        ),
        ("a.b", [to_unique, to_unique, "", ""]),
    ];
    for (text, expected) in cases {
        for (printed, expected) in conversions(alloc, text)?.iter().zip(expected) {
            assert_eq!(rt; printed.as_str(), expected);
        }
    }
    let bus =
        "Invalid bus name. See https://dbus.freedesktop.org/doc/dbus-specification.html#message-protocol-names-bus";
    assert_eq!(rt; why(alloc, BusName::try_from("a").err())?.as_str(), bus);
    assert_eq!(rt;
        Error::OutOfMemory.to_string(alloc)?.as_str(),
        "out of memory"
    );
    assert_eq!(rt; Error::InvalidName("a"), Error::InvalidName("b"));
    assert!(rt; Error::InvalidName("a") != Error::OutOfMemory);
    Ok(())
}

/// Whether each call on a lent name of the kind keeps its text.
fn lent_keeps<K: Kind>(alloc: Global, text: &'static str) -> Result<bool, Error> {
    let name = Name::<K>::from_static_str(text)?;
    let owned = name.to_owned(alloc)?;
    let printed = name.to_string(alloc)?;
    let keeps = owned.eq_text(name.as_str())
        && name.as_ref().eq_text(text)
        && name.eq_owned(&owned)
        && name.eq_text(printed.as_str());
    let given = name.into_owned(alloc)?.into_inner();
    Ok(keeps && owned.eq_text(given.as_str()))
}

/// Whether each call on an owned name of the kind keeps its text.
fn owned_keeps<K: Kind>(alloc: Global, text: &str) -> Result<bool, Error> {
    let name = OwnedName::<K>::try_from_text(alloc, text)?;
    let same = name.inner().to_owned(alloc)?;
    let printed = name.to_string(alloc)?;
    Ok(
        name.as_str() == text
            && name.as_ref().as_str() == text
            && name.eq_text(text)
            && name.eq_owned(&same)
            && printed.as_str() == text,
    )
}

/// How two lent names of the kind compare, and whether they are equal.
fn lent_compare<K: Kind>(a: &str, b: &str) -> Result<(Ordering, bool), Error> {
    let (a, b) = (Name::<K>::try_from(a)?, Name::<K>::try_from(b)?);
    Ok((a.cmp(&b), a == b))
}

/// How two owned names of the kind compare, and whether they are equal.
fn owned_compare<K: Kind>(alloc: Global, a: &str, b: &str) -> Result<(Ordering, bool), Error> {
    let a = OwnedName::<K>::try_from_text(alloc, a)?;
    let b = OwnedName::<K>::try_from_text(alloc, b)?;
    Ok((a.cmp(&b), a == b))
}

fn hash_of<T: Hash>(value: &T) -> u64 {
    let mut hasher = DefaultHasher::new();
    value.hash(&mut hasher);
    hasher.finish()
}

#[test]
fn names_keep_their_texts(rt: HostRuntime) -> Result<(), Fail> {
    let alloc = rt.alloc();
    assert!(rt; lent_keeps::<Unique>(alloc, ":1.42")?);
    assert!(rt; lent_keeps::<WellKnown>(alloc, "org.example.Clock")?);
    assert!(rt; lent_keeps::<Interface>(alloc, "org.example.Alarm")?);
    assert!(rt; lent_keeps::<Member>(alloc, "SetAlarm")?);
    assert!(rt; lent_keeps::<Property>(alloc, "Volume")?);
    assert!(rt; lent_keeps::<Failure>(alloc, "org.example.Alarm.NoSuchTime")?);
    assert!(rt; owned_keeps::<Unique>(alloc, ":1.42")?);
    assert!(rt; owned_keeps::<WellKnown>(alloc, "org.example.Clock")?);
    assert!(rt; owned_keeps::<Interface>(alloc, "org.example.Alarm")?);
    assert!(rt; owned_keeps::<Member>(alloc, "SetAlarm")?);
    assert!(rt; owned_keeps::<Property>(alloc, "Volume")?);
    assert!(rt; owned_keeps::<Failure>(alloc, "org.example.Alarm.NoSuchTime")?);
    Ok(())
}

#[test]
fn names_compare_by_text(rt: HostRuntime) -> Result<(), Fail> {
    let alloc = rt.alloc();
    let cases = [
        ("SetAlarm", "SetAlarm", Ordering::Equal),
        ("Set", "SetAlarm", Ordering::Less),
        ("setAlarm", "SetAlarm", Ordering::Greater),
    ];
    for (a, b, order) in cases {
        let expected = (order, order == Ordering::Equal);
        assert_eq!(rt; lent_compare::<Member>(a, b)?, expected);
        assert_eq!(rt; owned_compare::<Property>(alloc, a, b)?, expected);
    }
    let member = MemberName::from_static_str_unchecked("SetAlarm");
    let text = String::from_str(alloc, "SetAlarm")?;
    let owned = OwnedMemberName::from_string_unchecked(text);
    assert!(rt; MemberName::from_str_unchecked("SetAlarm").eq_owned(&owned));
    assert_eq!(rt; hash_of(&member), hash_of(&"SetAlarm"));
    assert_eq!(rt; hash_of(&owned), hash_of(&"SetAlarm"));
    Ok(())
}

#[test]
fn bus_names_compare_by_kind_and_text(rt: HostRuntime) -> Result<(), Fail> {
    let bus = BusName::from_static_str("org.freedesktop.DBus")?;
    let unique = UniqueName::try_from("org.freedesktop.DBus")?;
    let well_known = WellKnownName::try_from("org.freedesktop.DBus")?;
    let asked = BusName::from_well_known(well_known.as_ref());
    assert!(rt; bus != asked);
    assert!(rt; bus == BusName::from_unique(unique.as_ref()));
    assert!(rt; bus.eq_text(asked.as_str()));
    assert!(rt; bus.eq_unique(&unique));
    assert!(rt; !bus.eq_well_known(&well_known));
    assert!(rt; asked.eq_well_known(&well_known));
    assert!(rt; bus < asked);
    assert!(rt; bus < BusName::try_from("a.b")?);
    assert!(rt; BusName::try_from(":1.42")? < bus);
    assert_eq!(rt; hash_of(&bus), hash_of(&bus.as_ref()));
    assert!(rt; hash_of(&bus) != hash_of(&asked));
    Ok(())
}

#[test]
fn owned_bus_names_compare_by_kind_and_text(rt: HostRuntime) -> Result<(), Fail> {
    let alloc = rt.alloc();
    let unique = OwnedUniqueName::try_from_text(alloc, "org.freedesktop.DBus")?;
    let well_known = OwnedWellKnownName::try_from_text(alloc, "org.freedesktop.DBus")?;
    let bus = OwnedBusName::try_from_text(alloc, "org.freedesktop.DBus")?;
    let asked = BusName::from_well_known(well_known.as_ref()).into_owned(alloc)?;
    assert!(rt; bus.eq_owned(&bus.inner().to_owned(alloc)?));
    assert!(rt; !bus.eq_owned(&asked));
    assert!(rt; bus.as_ref().eq_owned(&bus));
    assert!(rt; !asked.as_ref().eq_owned(&bus));
    assert!(rt; bus.eq_text(asked.as_str()));
    assert!(rt; bus.eq_unique(&unique));
    assert!(rt; !bus.eq_well_known(&well_known));
    assert!(rt; asked.eq_well_known(&well_known));
    assert!(rt; bus < asked);
    assert_eq!(rt; hash_of(&bus), hash_of(&bus.as_ref()));
    assert!(rt; hash_of(&bus) != hash_of(&asked));
    Ok(())
}

#[test]
fn bus_names_give_their_parts(rt: HostRuntime) -> Result<(), Fail> {
    let alloc = rt.alloc();
    let unique = BusName::try_from(":1.42")?.into_unique()?;
    let unique = OwnedBusName::from_unique(unique.into_owned(alloc)?);
    assert_eq!(rt; unique.to_string(alloc)?.as_str(), ":1.42");
    assert_eq!(rt; unique.as_ref().to_string(alloc)?.as_str(), ":1.42");
    assert_eq!(rt; unique.into_unique()?.into_inner().as_str(), ":1.42");
    let asked = BusName::try_from("a.b")?.into_well_known()?;
    let asked = OwnedBusName::from_well_known(asked.into_owned(alloc)?);
    let asked = OwnedBusName::from_well_known(asked.into_well_known()?);
    assert_eq!(rt; asked.into_inner().as_str(), "a.b");
    Ok(())
}
