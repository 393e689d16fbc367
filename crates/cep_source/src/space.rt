/// The spaces of names. One name may stand in several.
#[derive(Clone, Copy)]
pub enum Space {
    Sorts,
    Constructors,
    Predicates,
    Stages,
    Contexts,
    Rules,
}
