//! The kinds of the sessions.

ghost use Rattle.std.specs.Prelude.{◌≡◌};
ghost use Rattle.bus_bulk.specs.Kinds.{kind_of, session_words};
ghost use Rattle.bus_script.specs.Printed.{line_text};

/// What becomes of a session.
#[derive(Clone, Copy, Debug, PartialEq, Eq)]
pub(crate) enum Kind {
    /// A client that its server lets in with one piece.
    Accepted,
    /// A client that its server lets in byte by byte.
    AcceptedByBytes,
    /// A server that lets its client in.
    Serving,
    /// A client that finds nobody.
    Refused,
    /// A client whose server ends in the middle of its line.
    CutOff,
    /// A client whose server says nothing, until its deadline.
    Unanswered,
}

impl Kind {
    /// The kind of the session of a number.
    #[tactic(auto, unfolding(crate::specs::Kinds::kind_of))]
    pub(crate) fn of(session: u32) -> Kind
        ensures { result ≡ kind_of session }
    {
        match session % 6 {
            0 => Kind::Accepted,
            1 => Kind::AcceptedByBytes,
            2 => Kind::Serving,
            3 => Kind::Refused,
            4 => Kind::CutOff,
            _ => Kind::Unanswered,
        }
    }

    /// The line of a session, with its line feed.
    #[tactic(auto, using(crate::proofs::Growing::unanswered_line), unfolding(crate::specs::Kinds::session_words))]
    pub(crate) fn session_line(self) -> &'static str
        ensures { result.now ≡ line_text (session_words self) }
    {
        match self {
            Kind::Serving => "server 1234deadbeef1234deadbeef12345678 EXTERNAL 1000 -\n",
            Kind::Unanswered => "client EXTERNAL 1000 - n 100 unix:path=/run/a\n",
            Kind::Accepted | Kind::AcceptedByBytes | Kind::Refused | Kind::CutOff => {
                "client EXTERNAL 1000 - n - unix:path=/run/a\n"
            }
        }
    }
}
