ghost use Rattle.std.specs.Prelude.{◌≡◌};
ghost use Rattle.cep_refusal.specs.Reasons.{number, reason_name};

/// Why a text is refused. The reasons are numbered from 1 in this order, and all of them, with
/// their numbers, are this profile's.
#[derive(Clone, Copy, PartialEq, Eq)]
pub enum Reason {
    /// A byte with which no token begins.
    BadByte,
    /// A name of more than 255 bytes.
    NameLong,
    /// A token with which no file goes on.
    Unexpected,
    /// One open parenthesis too many.
    Nested,
    /// A name that is declared again in its space.
    Twice,
    /// A name that is declared nowhere.
    Unknown,
    /// A name that is declared in other spaces than the one where it is looked for.
    WrongKind,
    /// An atom or a term with another number of arguments than is declared.
    WrongArity,
    /// A term at a place of another type.
    TypeClash,
    /// A variable or `_` in a state.
    VarInContext,
    /// A backward predicate in a state or on a right side.
    BwdInState,
    /// A linear predicate, or one of facts, in a clause.
    LinearInClause,
    /// A rule outside of stages that does not lead from one stage to one stage at quiescence.
    BadQui,
    /// No `#trace`.
    NoTrace,
    /// A second `#trace`.
    TwoTraces,
    /// A variable or `_` on a right side that the left side does not bind.
    Unbound,
    /// A backward premise that may leave a variable unknown.
    Ungrounded,
    /// More of something than may be.
    OverLimit,
    /// A text of more than 1,048,576 bytes.
    TooLong,
}

impl Reason {
    /// The number of the reason, from 1 to 19.
    pub fn number(self) -> u8
        ensures { result ≡ number self }
    {
        self as u8 + 1
    }

    /// The name of the reason, by which a refusal is told.
    pub fn name(self) -> &'static str
        ensures { result.now ≡ reason_name self }
    {
        match self {
            Reason::BadByte => "BadByte",
            Reason::NameLong => "NameLong",
            Reason::Unexpected => "Unexpected",
            Reason::Nested => "Nested",
            Reason::Twice => "Twice",
            Reason::Unknown => "Unknown",
            Reason::WrongKind => "WrongKind",
            Reason::WrongArity => "WrongArity",
            Reason::TypeClash => "TypeClash",
            Reason::VarInContext => "VarInContext",
            Reason::BwdInState => "BwdInState",
            Reason::LinearInClause => "LinearInClause",
            Reason::BadQui => "BadQui",
            Reason::NoTrace => "NoTrace",
            Reason::TwoTraces => "TwoTraces",
            Reason::Unbound => "Unbound",
            Reason::Ungrounded => "Ungrounded",
            Reason::OverLimit => "OverLimit",
            Reason::TooLong => "TooLong",
        }
    }
}
