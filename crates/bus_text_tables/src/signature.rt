//! The grammar of signatures, their measures and their laws.

use bus_signature::{Child, Error, Fields, Format, OutOfMemory, Signature, laws, validate};
use std::hash::{DefaultHasher, Hasher};
use std::test::Fail;

// The text that the read signature is printed as; `None` where the text is refused, by `validate` too.
fn reprinted(rt: &HostRuntime, text: &str) -> Result<Option<String>, Fail> {
    let read = Signature::from_str(rt.alloc(), text);
    if read.is_ok() != validate(text.as_bytes()).is_ok() {
        return Err("the reader and the check differ".into());
    }
    match read {
        Ok(signature) => Ok(Some(signature.to_string(rt.alloc())?)),
        Err(Error::InvalidSignature) => Ok(None),
        Err(Error::OutOfMemory) => Err("out of memory".into()),
    }
}

fn signature(rt: &HostRuntime, text: &str) -> Result<Signature, Fail> {
    Ok(Signature::from_str(rt.alloc(), text)?)
}

fn repeated(rt: &HostRuntime, piece: &str, times: usize) -> Result<String, Fail> {
    let mut text = String::new(rt.alloc());
    for _ in 0..times {
        text.push_str(piece)?;
    }
    Ok(text)
}

// So many pieces, one in another, round the middle
fn nested(rt: &HostRuntime, open: &str, close: &str, times: usize) -> Result<String, Fail> {
    let mut text = repeated(rt, open, times)?;
    text.push_str("i")?;
    text.push_str(repeated(rt, close, times)?.as_str())?;
    Ok(text)
}

#[test]
fn texts_are_read_as_the_grammar_says(rt: HostRuntime) -> Result<(), Fail> {
    let rows = [
        ("", Some("")),
        ("xs", Some("(xs)")),
        ("(xs)", Some("(xs)")),
        ("a{vs}", Some("a{vs}")),
        ("ybnqiuxtdsgovh", Some("(ybnqiuxtdsgovh)")),
        ("a(ya{sv})", Some("a(ya{sv})")),
        ("()", None),
        ("a", None),
        ("a{y}", None),
        ("a{}", None),
        ("a{vss}", None),
        ("{sv}", None),
        ("xs)", None),
        ("(xs", None),
        ("r", None),
    ];
    for (text, printed) in rows {
        let read = reprinted(&rt, text)?;
        match (read, printed) {
            (Some(read), Some(printed)) => assert_eq!(rt; read.as_str(), printed),
            (None, None) => {}
            _ => return Err("read or refused otherwise".into()),
        }
    }
    Ok(())
}

#[test]
fn both_depths_end_at_32(rt: HostRuntime) -> Result<(), Fail> {
    for (open, close) in [("(", ")"), ("a", ""), ("a{y", "}")] {
        let deepest = nested(&rt, open, close, 32)?;
        let deeper = nested(&rt, open, close, 33)?;
        let read = reprinted(&rt, deepest.as_str())?.ok_or("32 are refused")?;
        assert_eq!(rt; read.as_str(), deepest.as_str());
        assert!(rt; reprinted(&rt, deeper.as_str())?.is_none());
    }
    let mut both = nested(&rt, "a(", ")", 32)?;
    assert!(rt; reprinted(&rt, both.as_str())?.is_some());
    both.push_str("y")?;
    assert!(rt; reprinted(&rt, both.as_str())?.is_some());
    Ok(())
}

#[test]
fn length_is_not_limited(rt: HostRuntime) -> Result<(), Fail> {
    for length in [1, 255, 256, 10000] {
        let text = repeated(&rt, "y", length)?;
        let read = signature(&rt, text.as_str())?;
        assert_eq!(rt;
            read.to_string_no_parens(rt.alloc())?.as_str(),
            text.as_str()
        );
    }
    Ok(())
}

#[test]
fn measures_are_those_of_the_type_system(rt: HostRuntime) -> Result<(), Fail> {
    let rows = [
        ("", 0, 8),
        ("y", 1, 1),
        ("b", 1, 4),
        ("n", 1, 2),
        ("q", 1, 2),
        ("i", 1, 4),
        ("u", 1, 4),
        ("x", 1, 8),
        ("t", 1, 8),
        ("d", 1, 8),
        ("s", 1, 4),
        ("g", 1, 1),
        ("o", 1, 4),
        ("v", 1, 1),
        ("h", 1, 4),
        ("a{sv}", 5, 4),
        ("ax", 2, 4),
        ("xs", 4, 8),
    ];
    for (text, length, alignment) in rows {
        let read = signature(&rt, text)?;
        assert!(rt; read.text_fits());
        if read.text_fits() {
            assert_eq!(rt; read.string_len(), length);
        }
        assert_eq!(rt; read.alignment(Format::default()), alignment);
        assert!(rt; !read.contains_maybe());
    }
    Ok(())
}

#[test]
fn both_printed_forms_are_equal_texts(rt: HostRuntime) -> Result<(), Fail> {
    let fields = Fields::from_array(rt.alloc(), [Signature::I64])?;
    let one = Signature::structure(fields);
    assert!(rt; one.eq_text("(x)") && one.eq_text("x"));
    assert!(rt;
        !one.eq_text("(x") && !one.eq_text("(x)s") && !one.eq_text("") && !one.eq_text("xs")
    );
    let two = signature(&rt, "xs")?;
    assert!(rt; two.eq_text("(xs)") && two.eq_text("xs") && !two.eq_text("x"));
    assert!(rt; two == Signature::try_from_text(rt.alloc(), "(xs)")?);
    assert!(rt; two == Signature::try_from_bytes(rt.alloc(), b"xs")?);
    let mut written = String::from_str(rt.alloc(), "as ")?;
    two.write_as_string_no_parens(&mut written)?;
    assert_eq!(rt; written.as_str(), "as xs");
    assert_eq!(rt;
        format!(in rt.alloc(); "{two}, {}", Format::DBus)?.as_str(),
        "(xs), D-Bus"
    );
    Ok(())
}

#[test]
fn errors_are_printed(rt: HostRuntime) -> Result<(), Fail> {
    let alloc = rt.alloc();
    let Err(refused) = validate(b"a{sv") else {
        return Err("an open dictionary is accepted".into());
    };
    assert_eq!(rt;
        format!(in alloc; "{refused}")?.as_str(),
        "Invalid signature"
    );
    assert_eq!(rt;
        format!(in alloc; "{}", Error::from(refused))?.as_str(),
        "Invalid signature"
    );
    assert_eq!(rt;
        format!(in alloc; "{OutOfMemory}")?.as_str(),
        "out of memory"
    );
    assert_eq!(rt;
        format!(in alloc; "{}", Error::OutOfMemory)?.as_str(),
        "out of memory"
    );
    Ok(())
}

#[test]
fn signatures_are_built_of_others(rt: HostRuntime) -> Result<(), Fail> {
    let alloc = rt.alloc();
    let variants = Signature::dict(alloc, Signature::Str, Signature::Variant)?;
    let array = Signature::array(alloc, variants.duplicate(alloc)?)?;
    assert!(rt; array == signature(&rt, "aa{sv}")?);
    assert!(rt; Signature::default() == signature(&rt, "")?);
    let child = Child::new(alloc, variants)?;
    assert!(rt; child.signature().eq_text("a{sv}"));
    if child.signature().text_fits() {
        assert_eq!(rt; child.string_len(), 5);
    }
    let fields = Fields::from_vec(vec![in alloc; Signature::U8, Signature::Fd]?);
    assert_eq!(rt; fields.len(), 2);
    assert!(rt; !fields.is_empty());
    assert!(rt; fields.get(1).is_some_and(|field| field.eq_text("h")) && fields.get(2).is_none());
    let mut letters = String::new(alloc);
    for field in &fields {
        field.write_as_string_no_parens(&mut letters)?;
    }
    assert_eq!(rt; letters.as_str(), "yh");
    assert!(rt; Fields::from(fields.into_vec()).iter().len() == 2);
    Ok(())
}

#[test]
fn laws_hold_of_read_signatures(rt: HostRuntime) -> Result<(), Fail> {
    let rising = [
        "", "y", "b", "n", "q", "i", "u", "x", "t", "d", "s", "g", "o", "v", "h", "ax", "as",
        "a{yy}", "a{ys}", "(x)", "(s)", "(sy)",
    ];
    let mut last = Signature::default();
    for (place, text) in rising.iter().enumerate() {
        let next = signature(&rt, text)?;
        if place > 0 {
            assert!(rt; laws::order(&last, &next).is_lt() && laws::order(&next, &last).is_gt());
            assert!(rt; laws::partial_order(&last, &next) == Some(laws::order(&last, &next)));
        }
        let again = next.duplicate(rt.alloc())?;
        assert!(rt; laws::are_equal(&next, &again) && laws::order(&next, &again).is_eq());
        let (mut first, mut second) = (DefaultHasher::new(), DefaultHasher::new());
        laws::hash_both(&next, &again, &mut first, &mut second);
        assert_eq!(rt; first.finish(), second.finish());
        assert!(rt; next.is_readable());
        if next.is_readable() {
            assert!(rt; laws::read_back(rt.alloc(), &next)? == next);
        }
        last = next;
    }
    let hollow = Signature::array(rt.alloc(), Signature::Unit)?;
    assert!(rt; !hollow.is_readable());
    Ok(())
}
