/// A limit that a step can pass: that of the atoms that it makes, or that of the state after it.
/// Both are this profile's.
#[derive(Clone, Copy, PartialEq, Eq)]
pub enum Limit {
    Atom,
    State,
}
