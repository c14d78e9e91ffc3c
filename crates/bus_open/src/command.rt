//! What the words of a command line ask for.

ghost use Rattle.std.specs.Prelude.{◌≡◌, ◌≤◌, ◌^◌, ◌∷◌, [], IfOk, IfSome, map, string_bytes};
ghost use Rattle.bus_script.specs.Words.{number_of};
ghost use Rattle.bus_open.specs.Commands.{asked, command, kind_of, checked_text, IsOfFew};

use bus_check::Kind;
use bus_script::{Reason, number_below};

/// What the program is asked to do.
#[derive(Clone, Copy, Debug, PartialEq, Eq)]
pub enum Command {
    /// `play`: reads a script, runs it, and writes the endings and the events.
    Play,
    /// `open`: reads sessions, runs them over real things, and writes the endings.
    Open,
    /// `bulk N`: runs so many sessions of its own making, and writes a summary.
    Bulk(u32),
    /// `check KIND TEXT`: reads the text as one of its kind, and writes what it is.
    Check(Kind),
}

/// One more than the greatest count of sessions that `bulk` makes.
const SESSIONS_LIMIT: u64 = 10_001;

impl Command {
    /// The command that these words name, where they name one.
    pub fn from_words(words: &[String]) -> Option<Command>
        ensures command { result ≡ command (map string_bytes words.now) }
        ensures few { IfSome result IsOfFew }
    {
        match words {
            [name] => plain_command(name.as_str()),
            [name, count] => counting_command(name.as_str(), count.as_str()),
            [name, kind, text] => checking_command(name.as_str(), kind.as_str(), text.as_str()),
            _ => None,
        }
    }
}

/// The kind that this word names, where it names one.
fn kind_named(word: &str) -> Option<Kind>
    ensures { result ≡ kind_of word.now }
{
    match word {
        "signature" => Some(Kind::Signature),
        "address" => Some(Kind::Address),
        "bus" => Some(Kind::BusName),
        "unique" => Some(Kind::UniqueName),
        "well-known" => Some(Kind::WellKnownName),
        "interface" => Some(Kind::InterfaceName),
        "member" => Some(Kind::MemberName),
        "property" => Some(Kind::PropertyName),
        "error" => Some(Kind::ErrorName),
        _ => None,
    }
}

/// What the words ask for, or why they are refused.
pub fn asked(words: &[String]) -> Result<Command, Reason>
    ensures answer { result ≡ asked (map string_bytes words.now) }
    ensures few { IfOk result IsOfFew }
{
    Command::from_words(words).ok_or(Reason::Words)
}

fn plain_command(name: &str) -> Option<Command>
    ensures command { result ≡ command (name.now ∷ []) }
    ensures few { IfSome result IsOfFew }
{
    match name {
        "play" => Some(Command::Play),
        "open" => Some(Command::Open),
        _ => None,
    }
}

fn counting_command(name: &str, count: &str) -> Option<Command>
    ensures command { result ≡ command (name.now ∷ count.now ∷ []) }
    ensures few { IfSome result IsOfFew }
{
    match name {
        "bulk" => bulk_count(count).map(Command::Bulk),
        _ => None,
    }
}

/// A number without a sign and without a zero in front, below `SESSIONS_LIMIT`.
fn bulk_count(word: &str) -> Option<u32>
    ensures number { result ≡ number_of 10001 word.now }
    ensures few { IfSome result (λ count. count ≤ 10000) }
{
    let count = number_below(word, SESSIONS_LIMIT)?;
    Some(count as u32)
}

fn checking_command(name: &str, kind: &str, _text: &str) -> Option<Command>
    ensures command { result ≡ command (name.now ∷ kind.now ∷ _text.now ∷ []) }
    ensures few { IfSome result IsOfFew }
{
    match name {
        "check" => kind_named(kind).map(Command::Check),
        _ => None,
    }
}

/// The text that is to be checked, where the words ask for one.
pub(crate) fn checked_text(words: &[String]) -> &str
    ensures { result.now ≡ checked_text (map string_bytes words.now) }
{
    match words {
        [_, _, text] => text.as_str(),
        _ => "",
    }
}
