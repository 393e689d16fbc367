use cep_base::List;

/// Which earlier steps of a transcript precede a step. Steps are numbered from 1.
#[derive(Drop)]
pub struct StepCause {
    /// Whether the step is a barrier, which each earlier step precedes, and which precedes each
    /// later one.
    pub barrier: bool,
    /// The numbers of earlier steps on which it rests.
    pub after: Numbers,
}

/// Numbers of steps.
pub type Numbers = List<u32>;

/// The entries of the steps, from the first.
pub type StepCauses = List<StepCause>;
