ghost use Rattle.std.specs.Prelude.{◌≡◌};
ghost use Rattle.cep_base.specs.Kinds.{is_backward, is_of_facts};

/// What the atoms of a predicate are. Those of linear ones stand in states, copy by copy, as in
/// Ceptre; those of backward ones are derived from clauses; and a fact stands in a state once or not
/// at all, and is never consumed. Facts are this profile's.
#[derive(Clone, Copy, PartialEq, Eq)]
pub enum PredKind {
    Linear,
    Back,
    Fact,
}

impl PredKind {
    /// Whether clauses define the predicates of this kind.
    pub fn is_backward(self) -> bool
        ensures { result ≡ is_backward self }
    {
        matches!(self, PredKind::Back)
    }

    /// Whether the atoms of this kind are facts.
    pub fn is_of_facts(self) -> bool
        ensures { result ≡ is_of_facts self }
    {
        matches!(self, PredKind::Fact)
    }
}
