ghost use Rattle.std.specs.Prelude.{◌≡◌};
ghost use Rattle.cep_lines.specs.Lines.{has_listing};

/// The form of a transcript. (Profile.)
#[derive(Clone, Copy, PartialEq, Eq)]
pub enum Version {
    /// The first state is listed and the last one.
    One,
    /// Besides, the state after each hundredth step.
    Two,
}

impl Version {
    /// Whether the state after the step of this number, counted from 1, is listed.
    pub fn lists(self, step: u32) -> bool
        ensures { result ≡ has_listing self step }
    {
        match self {
            Version::One => false,
            Version::Two => step % 100 == 0,
        }
    }
}
