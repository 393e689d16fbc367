ghost use Rattle.std.specs.Prelude.{◌≡◌};
ghost use Rattle.cep_lines.specs.Lines.{ending_word};

/// Why a run ended.
#[derive(Clone, Copy, PartialEq, Eq)]
pub enum EndWord {
    /// No rule applies.
    Quiet,
    /// The input ended.
    Input,
    /// All turns are done.
    Turns,
    /// There are too many offers.
    Offers,
    /// No more bytes may be taken.
    Typed,
    /// An atom that the step would make is too large.
    Atom,
    /// The state after the step would be too large.
    State,
}

impl EndWord {
    /// The word as a transcript writes it.
    pub fn text(self) -> &'static [u8]
        ensures { result.now ≡ ending_word self }
    {
        match self {
            EndWord::Quiet => b"quiet",
            EndWord::Input => b"input",
            EndWord::Turns => b"turns",
            EndWord::Offers => b"offers",
            EndWord::Typed => b"typed",
            EndWord::Atom => b"atom",
            EndWord::State => b"state",
        }
    }
}
