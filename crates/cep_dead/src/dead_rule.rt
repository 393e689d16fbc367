use cep_base::List;

/// Why a rule can never apply, by all that may come about: its stage is never reached; the
/// premise at a place, counted from 1 over the premises that a state has to meet and then the
/// backward ones, never holds; or a variable, by its number, has no value that may stand at all
/// its places.
#[derive(Clone, Copy, PartialEq, Eq)]
pub enum DeadWhy {
    Stage(u32),
    Premise(u32),
    Var(u32),
}

/// A rule that can never apply, by its number, and why.
#[derive(Clone, Copy, PartialEq, Eq, Drop)]
pub struct DeadRule {
    pub rule: u32,
    pub why: DeadWhy,
}

/// A list of such rules.
pub type Deads = List<DeadRule>;
