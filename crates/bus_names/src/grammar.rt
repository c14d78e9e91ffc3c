//! The tests of the grammars: each reads its text once and takes no memory.

ghost use Rattle.std.specs.Prelude.{◌≡◌, ◌≤◌, length};
ghost use Rattle.bus_names.specs.Classes.{class_of, element_len, run_len};
ghost use Rattle.bus_names.specs.Grammar.{goes_on, is_connection, is_dotted, is_element, starts};

/// Which bytes an element may be made of.
#[derive(Clone, Copy)]
pub enum Form {
    /// Letters, digits and `_`, with no digit first: interface, member and error names.
    Plain,
    /// The same and `-`: well-known names.
    Dashed,
    /// The same, and a digit may be first: the names of connections.
    Numbered,
}

/// What a byte is to an element.
#[derive(Clone, Copy)]
pub enum Class {
    /// An ASCII letter or `_`.
    Letter,
    /// An ASCII digit.
    Digit,
    /// The byte `-`.
    Hyphen,
    /// Any other byte.
    Other,
}

// One letter for each class, so that a row of the table holds sixteen bytes.
const A: Class = Class::Letter;

const N: Class = Class::Digit;

const H: Class = Class::Hyphen;

const X: Class = Class::Other;

/// The class of each byte.
#[rattlefmt::skip]
static CLASSES: [Class; 256] = [
    X, X, X, X, X, X, X, X, X, X, X, X, X, X, X, X,
    X, X, X, X, X, X, X, X, X, X, X, X, X, X, X, X,
    X, X, X, X, X, X, X, X, X, X, X, X, X, H, X, X,
    N, N, N, N, N, N, N, N, N, N, X, X, X, X, X, X,
    X, A, A, A, A, A, A, A, A, A, A, A, A, A, A, A,
    A, A, A, A, A, A, A, A, A, A, A, X, X, X, X, A,
    X, A, A, A, A, A, A, A, A, A, A, A, A, A, A, A,
    A, A, A, A, A, A, A, A, A, A, A, X, X, X, X, X,
    X, X, X, X, X, X, X, X, X, X, X, X, X, X, X, X,
    X, X, X, X, X, X, X, X, X, X, X, X, X, X, X, X,
    X, X, X, X, X, X, X, X, X, X, X, X, X, X, X, X,
    X, X, X, X, X, X, X, X, X, X, X, X, X, X, X, X,
    X, X, X, X, X, X, X, X, X, X, X, X, X, X, X, X,
    X, X, X, X, X, X, X, X, X, X, X, X, X, X, X, X,
    X, X, X, X, X, X, X, X, X, X, X, X, X, X, X, X,
    X, X, X, X, X, X, X, X, X, X, X, X, X, X, X, X,
];

fn class_of(byte: u8) -> Class
    ensures { result ≡ class_of byte }
{
    CLASSES[usize::from(byte)]
}

/// Whether an element may begin with the byte.
fn starts(form: Form, byte: u8) -> bool
    ensures { result ≡ starts form byte }
{
    match class_of(byte) {
        Class::Letter => true,
        Class::Digit => matches!(form, Form::Numbered),
        Class::Hyphen => !matches!(form, Form::Plain),
        Class::Other => false,
    }
}

/// Whether the byte may stand in an element after the first one.
fn goes_on(form: Form, byte: u8) -> bool
    ensures { result ≡ goes_on form byte }
{
    match class_of(byte) {
        Class::Letter | Class::Digit => true,
        Class::Hyphen => !matches!(form, Form::Plain),
        Class::Other => false,
    }
}

/// How many bytes an element that has begun goes on for.
fn run_len(form: Form, text: &[u8]) -> usize
    ensures len { result ≡ run_len form text.now }
    ensures within { result ≤ length text.now }
{
    text.iter()
        .position(|byte| !goes_on(form, *byte))
        .unwrap_or(text.len())
}

/// How many bytes the element has with which the text begins: none where it begins with no element.
fn element_len(form: Form, text: &[u8]) -> usize
    ensures len { result ≡ element_len form text.now }
    ensures within { result ≤ length text.now }
{
    match text.split_first() {
        Some((first, rest)) if starts(form, *first) => 1 + run_len(form, rest),
        _ => 0,
    }
}

/// Whether the text is one element.
pub fn is_element(form: Form, text: &[u8]) -> bool
    ensures { result ≡ is_element form text.now }
{
    !text.is_empty() && element_len(form, text) == text.len()
}

/// Whether the text is two or more elements, parted by dots.
pub fn is_dotted(form: Form, text: &[u8]) -> bool
    ensures { result ≡ is_dotted form text.now }
{
    let mut has_dot = false;
    let mut rest = text;
    loop {
        let len = element_len(form, rest);
        if len == 0 {
            return false;
        }
        let (_, left) = rest.split_at(len);
        match left.split_first() {
            None => return has_dot,
            Some((first, after)) => {
                if *first != b'.' {
                    return false;
                }
                has_dot = true;
                rest = after;
            }
        }
    }
}

/// Whether the text is a colon and then the name of a connection, as in `:1.42`.
pub fn is_connection(text: &[u8]) -> bool
    ensures { result ≡ is_connection text.now }
{
    match text.split_first() {
        Some((first, rest)) => *first == b':' && is_dotted(Form::Numbered, rest),
        None => false,
    }
}
