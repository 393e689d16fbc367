use crate::weight::Claim;
use cep_base::{List, Name};

/// A part of a weight as a line names it: a factor, and the name of a predicate.
#[derive(Drop)]
pub struct NamedPart {
    pub factor: i64,
    pub name: Name,
}

/// A list of such parts, in written order.
pub type NamedParts = List<NamedPart>;

/// A claim as a line writes it: what is claimed, its name, and its parts by their names.
#[derive(Drop)]
pub struct Written {
    pub claim: Claim,
    pub name: Name,
    pub parts: NamedParts,
}
