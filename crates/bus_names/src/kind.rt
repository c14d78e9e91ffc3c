//! The kinds of names. Each is a type without values, which a name has as its parameter.

ghost use Rattle.std.specs.Prelude.{◌≡◌, ℕ, Bool, List, IsTrue, false, ◌↔◌};
ghost use Rattle.bus_names.specs.ValidNames.{IsErrorName, IsInterfaceName, IsMemberName};
ghost use Rattle.bus_names.specs.ValidNames.{IsPropertyName, IsUniqueName, IsWellKnownName};
ghost use Rattle.bus_names.specs.Decides.{Decides-is_error_name, Decides-is_interface_name, Decides-is_member_name};
ghost use Rattle.bus_names.specs.Decides.{Decides-is_property_name, Decides-is_unique_name, Decides-is_well_known_name};
ghost use Rattle.bus_names.specs.Grammar.{is_error_name, is_interface_name, is_member_name};
ghost use Rattle.bus_names.specs.Grammar.{is_property_name, is_unique_name, is_well_known_name};
ghost use Rattle.bus_names.specs.Refusals.{no_error, no_interface, no_member, no_property, no_unique, no_well_known};

use crate::grammar::{Form, is_connection, is_dotted, is_element};

/// The greatest number of bytes of a name.
const MAX_LEN: usize = 255;

/// A kind of names: its grammar, the test of the grammar, and what the refusal of a text says.
///
/// In contracts the grammar stands twice: `grammar` is a test that computes, and `IsName` says
/// of a whole text how it is made. The law `decides` says that they agree.
pub trait Kind: Drop {
    ghost grammar: { List ℕ → Bool };

    ghost IsName: { List ℕ → Type 0 };

    ghost refusal: { List ℕ → List ℕ };

    /// Whether the text is a name of this kind.
    fn is_valid(text: &str) -> bool
        ensures { result ≡ grammar text.now };

    /// Why the text is not a name of this kind.
    fn refusal(text: &str) -> &'static str
        requires { grammar text.now ≡ false }
        ensures { result.now ≡ refusal text.now };

    ghost decides: { (text : List ℕ) → IsTrue (grammar text) ↔ IsName text };
}

/// Names that a bus gives to connections, as `:1.42`, and the name of the bus itself,
/// `org.freedesktop.DBus` (D-Bus specification, Bus names).
#[derive(Drop)]
pub struct Unique;

impl Kind for Unique {
    ghost grammar = { is_unique_name };

    ghost IsName = { IsUniqueName };

    ghost refusal = { no_unique };

    ghost decides = { Decides-is_unique_name };

    fn is_valid(text: &str) -> bool {
        text.len() <= MAX_LEN && (text == "org.freedesktop.DBus" || is_connection(text.as_bytes()))
    }

    fn refusal(_text: &str) -> &'static str {
        "Invalid unique name. See https://dbus.freedesktop.org/doc/dbus-specification.html#message-protocol-names-bus"
    }
}

/// Names that a connection asks a bus for, as `org.example.Clock`
/// (D-Bus specification, Bus names).
#[derive(Drop)]
pub struct WellKnown;

impl Kind for WellKnown {
    ghost grammar = { is_well_known_name };

    ghost IsName = { IsWellKnownName };

    ghost refusal = { no_well_known };

    ghost decides = { Decides-is_well_known_name };

    fn is_valid(text: &str) -> bool {
        text.len() <= MAX_LEN && is_dotted(Form::Dashed, text.as_bytes())
    }

    fn refusal(_text: &str) -> &'static str {
        "Invalid well-known name. See https://dbus.freedesktop.org/doc/dbus-specification.html#message-protocol-names-bus"
    }
}

/// Names of sets of methods, signals and properties, as `org.example.Alarm`
/// (D-Bus specification, Interface names).
#[derive(Drop)]
pub struct Interface;

impl Kind for Interface {
    ghost grammar = { is_interface_name };

    ghost IsName = { IsInterfaceName };

    ghost refusal = { no_interface };

    ghost decides = { Decides-is_interface_name };

    fn is_valid(text: &str) -> bool {
        text.len() <= MAX_LEN && is_dotted(Form::Plain, text.as_bytes())
    }

    fn refusal(_text: &str) -> &'static str {
        "Invalid interface name. See https://dbus.freedesktop.org/doc/dbus-specification.html#message-protocol-names-interface"
    }
}

/// Names of methods and signals, as `SetAlarm` (D-Bus specification, Member names).
#[derive(Drop)]
pub struct Member;

impl Kind for Member {
    ghost grammar = { is_member_name };

    ghost IsName = { IsMemberName };

    ghost refusal = { no_member };

    ghost decides = { Decides-is_member_name };

    fn is_valid(text: &str) -> bool {
        text.len() <= MAX_LEN && is_element(Form::Plain, text.as_bytes())
    }

    fn refusal(_text: &str) -> &'static str {
        "Invalid member name. See https://dbus.freedesktop.org/doc/dbus-specification.html#message-protocol-names-member"
    }
}

/// Names of properties: any text that is neither empty nor too long. The D-Bus specification
/// gives them no grammar (Standard Interfaces, org.freedesktop.DBus.Properties).
#[derive(Drop)]
pub struct Property;

impl Kind for Property {
    ghost grammar = { is_property_name };

    ghost IsName = { IsPropertyName };

    ghost refusal = { no_property };

    ghost decides = { Decides-is_property_name };

    fn is_valid(text: &str) -> bool {
        !text.is_empty() && text.len() <= MAX_LEN
    }

    fn refusal(text: &str) -> &'static str {
        if text.is_empty() {
            "Invalid property name. It has to be at least 1 character long."
        } else {
            "Invalid property name. It can not be longer than 255 characters."
        }
    }
}

/// Names of errors, as `org.example.Alarm.NoSuchTime` (D-Bus specification, Error names).
/// They have the grammar of interface names.
#[derive(Drop)]
pub struct Failure;

impl Kind for Failure {
    ghost grammar = { is_error_name };

    ghost IsName = { IsErrorName };

    ghost refusal = { no_error };

    ghost decides = { Decides-is_error_name };

    fn is_valid(text: &str) -> bool {
        text.len() <= MAX_LEN && is_dotted(Form::Plain, text.as_bytes())
    }

    fn refusal(_text: &str) -> &'static str {
        "Invalid error name. See https://dbus.freedesktop.org/doc/dbus-specification.html#message-protocol-names-error"
    }
}
