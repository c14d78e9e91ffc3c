//! The laws. A function does nothing: its contract is the law.

ghost use Rattle.bus_cutting.specs.Laws.{CuttingIsNoMatter, CuttingIsNoMatterInRuns, EndsAlike};
ghost use Rattle.bus_cutting.specs.Calls.{CallsLittle};
ghost use Rattle.bus_cutting.specs.Rows.{WholeRows, CutRows};

use bus_record::session_comes_to_its_part;
use bus_session::Session;

/// The ending of a session, and what it wrote, are those of the whole inbound bytes: neither how reads and sends cut
/// the bytes nor where they paused matters (D-Bus specification, Authentication Protocol).
pub fn cutting_does_not_matter(session: &Session)
    ensures { CuttingIsNoMatter session.now }
{
    let _deadline = &session.deadline;
}

/// Two courses of a session over one wire that draw from the same bytes have the same ending and wrote the same bytes.
pub fn same_bytes_end_alike(session: &Session)
    ensures { EndsAlike session.now }
{
    let _deadline = &session.deadline;
}

/// The same of each session of a run with the headline, as `open_all` gives it, whatever the other sessions do.
pub fn cutting_does_not_matter_in_runs(session: &Session)
    ensures { CuttingIsNoMatterInRuns session.now }
{
    cutting_does_not_matter(session);
    session_comes_to_its_part(session);
}

/// A conversation asks its wire only so often: each call moves a byte, pauses it or ends it; a read is asked for only
/// while less came than 64 lines may have, of 16384 bytes each before the line feed; and there were no more calls than
/// bytes moved and calls paused.
pub fn calls_are_few(session: &Session)
    ensures { CallsLittle session.now }
{
    let _deadline = &session.deadline;
}

/// What comes of some small conversations, and one that is cut in two ways.
pub fn small_conversations()
    ensures whole { WholeRows }
    ensures cut { CutRows }
{}
