use cep_base::{List, Name};

/// What is claimed of a weight: that no rule changes it, that no rule raises it, or that each rule
/// lowers it. Claims are this profile's.
#[derive(Clone, Copy, PartialEq, Eq)]
pub enum Claim {
    Keep,
    Most,
    Fall,
}

/// A part of a weight: a predicate by its number, and the factor by which each copy of one of its
/// atoms counts, from -1,000,000 to 1,000,000 but for 0.
#[derive(Clone, Copy, Drop)]
pub struct Part {
    pub pred: u32,
    pub factor: i64,
}

/// The parts of a weight, in written order.
pub type WeightParts = List<Part>;

/// A weight with its claim: the number of its line, counted from 1, what is claimed, its name and
/// its parts. `IsWeightOf` of `cep_weigh` says which weights are of a program.
#[derive(Drop)]
pub struct Weight {
    pub line: u32,
    pub claim: Claim,
    pub name: Name,
    pub sum: WeightParts,
}

/// A list of weights, in the order of their lines.
pub type Weights = List<Weight>;
