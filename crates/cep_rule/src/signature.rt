use cep_base::{List, Name, PredKind};

/// A list of names: those of the types of a program, or those of the variables of a rule.
pub type Names = List<Name>;

/// A list of types, each by its number.
pub type Kinds = List<u32>;

/// A list of constructors.
pub type Cons = List<Con>;

/// A list of predicates.
pub type Preds = List<PredDecl>;

/// A constructor: it makes a term of its type from one term of each argument's type. Types are
/// simple and constructors first order, as in Ceptre.
#[derive(Drop)]
pub struct Con {
    pub name: Name,
    pub sort: u32,
    pub args: Kinds,
}

/// A predicate of a kind, with the types of its arguments. As in Ceptre, a state has atoms of linear
/// ones, and clauses define the backward ones; facts are this profile's.
#[derive(Drop)]
pub struct PredDecl {
    pub name: Name,
    pub kind: PredKind,
    pub args: Kinds,
}

/// What a program declares of terms and atoms. Types, constructors and predicates are numbered in
/// written order, from 0; the order of terms and atoms, which is this profile's, goes by these
/// numbers.
pub struct Signature {
    pub sorts: Names,
    pub cons: Cons,
    pub preds: Preds,
}

// Written out: what holds one drops it by one call.
impl Drop for Signature {
    fn drop(self) {
        let Signature { sorts, cons, preds } = self;
        drop(sorts);
        drop(cons);
        drop(preds);
    }
}
