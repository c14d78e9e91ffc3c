//! Laws of settled records. Each function does nothing: its contract is the law.

ghost use Rattle.bus_record.specs.Laws.{OneCutting, PartsInPieces, WaitsWhereLeft, WaitsInRecord, WaitsAtPlaces};
ghost use Rattle.bus_record.specs.Laws.{EachComesToSomething, PausesLittle};
ghost use Rattle.bus_record.specs.Isolation.{ComesToItsPart, EndsAlike};
ghost use Rattle.bus_record.specs.Rows.{BothOpen, BothPromised, OneWaits, WireComesFirst, LateAtOnce, ReachedInRound};
ghost use Rattle.bus_record.specs.Rows.{MissedInRound, WrongDirection, EasilyMissed, Servers, FurtherRounds};
ghost use Rattle.bus_record.specs.FailingRows.{SmallFailures, RefusedFailures};
ghost use Rattle.bus_record.specs.Refusals.{RefusedVisits, RefusedEndings, RefusedRuns};

use bus_session::{Session, session_is_isolated};

/// A record is cut into the pieces of a settled record in one way only.
pub fn cutting_is_unique(sessions: &[Session])
    ensures { OneCutting sessions.now }
{
    let _count = sessions.len();
}

/// The removals at the end are no part of a session: its part of the record is its part of the pieces.
pub fn closing_is_no_part(sessions: &[Session])
    ensures { PartsInPieces sessions.now }
{
    let _count = sessions.len();
}

/// A direction waits exactly where its last NotReady was not followed at once by another call of the wire, its source
/// is there, and no later Wait has reported it.
pub fn direction_waits_where_left(sessions: &[Session])
    ensures { WaitsWhereLeft sessions.now }
{
    let _count = sessions.len();
}

/// The same of the whole record, however it is cut: a direction of a registered session waits exactly where its last
/// NotReady is not followed at once by another call of the wire, and no later Wait reports it of the session's key.
pub fn record_shows_who_waits(sessions: &[Session])
    ensures test { WaitsInRecord sessions.now }
    ensures places { WaitsAtPlaces sessions.now }
{
    let _count = sessions.len();
}

/// In a settled record each session comes to an ending by its own part and its last reading, or to Waiting, and then it
/// sleeps.
pub fn each_session_comes_to_something(sessions: &[Session])
    ensures { EachComesToSomething sessions.now }
{
    let _count = sessions.len();
}

/// In a run of any sessions with the headline, a session comes to what its own part of the whole record and its own last
/// reading decide alone.
pub fn session_comes_to_its_part(session: &Session)
    ensures { ComesToItsPart session.now }
{
    let _deadline = &session.deadline;
}

/// What becomes of a session is nobody else's matter: of two runs of any sessions, each with the headline, a session
/// of both whose events were the same, but for the number of its wire, and whose last readings were, has the same
/// ending, the same written bytes and the same left-over ones in both.
pub fn session_ends_alike(session: &Session)
    ensures { EndsAlike session.now }
{
    session_is_isolated(session);
}

/// A visit has at most three NotReady.
pub fn visit_pauses_little(session: &Session)
    ensures { PausesLittle session.now }
{
    let _deadline = &session.deadline;
}

/// Small records that are settled.
pub fn small_records_are_settled()
    ensures both_open { BothOpen }
    ensures both_promised { BothPromised }
    ensures one_waits { OneWaits }
    ensures wire_comes_first { WireComesFirst }
    ensures late_at_once { LateAtOnce }
    ensures reached_in_round { ReachedInRound }
    ensures missed_in_round { MissedInRound }
    ensures wrong_direction { WrongDirection }
    ensures easily_missed { EasilyMissed }
    ensures servers { Servers }
    ensures further_rounds { FurtherRounds }
{}

/// Small records that a failing call of the poller cut off: a registration, an arming, a wait, an arming of a round, a
/// removal.
pub fn small_records_are_cut_off()
    ensures failures { SmallFailures }
    ensures refused { RefusedFailures }
{}

/// Small records that are not.
pub fn wrong_records_are_refused()
    ensures visits { RefusedVisits }
    ensures endings { RefusedEndings }
    ensures runs { RefusedRuns }
{}
