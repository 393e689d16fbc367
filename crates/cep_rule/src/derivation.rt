use cep_term::Terms;

/// How a ground atom follows from the clauses: a clause by its number, a value for each of its
/// variables, and a derivation of each of its goals, in order. The textbook's tree.
#[derive(Drop)]
#[cycle(derivation)]
pub enum Derivation {
    Node(u32, Terms, Box<Derivations>),
}

/// Derivations in the order of the goals that they derive.
#[derive(Drop)]
#[cycle(derivation)]
pub enum Derivations {
    Nil,
    Cons(Derivation, Box<Derivations>),
}
