//! Laws of what a store holds, for the crates that rest on it. Each function computes nothing, and its
//! contract is the law.
ghost use Rattle.std.specs.Prelude.{◌≡◌, ℕ, ◌<◌, length, slice_get, Some};
ghost use Rattle.cep_term.specs.Tree.{Tree, AtomTree};
ghost use Rattle.cep_store.specs.Held.{Held, parts_at, args_at, AreIds, StaysHeld};

/// What an id reads stays the same while a store grows, one step after another.
pub fn ids_keep_their_trees()
    ensures terms { (old new : Held) (id : ℕ) (t : Tree)
        → StaysHeld old new
        → slice_get old.terms id ≡ Some t
        → slice_get new.terms id ≡ Some t }
    ensures atoms { (old new : Held) (id : ℕ) (a : AtomTree)
        → StaysHeld old new
        → slice_get old.atoms id ≡ Some a
        → slice_get new.atoms id ≡ Some a }
    ensures parts { (old new : Held) (id : ℕ)
        → StaysHeld old new
        → id < length old.terms
        → parts_at new id ≡ parts_at old id }
    ensures args { (old new : Held) (id : ℕ)
        → StaysHeld old new
        → id < length old.atoms
        → args_at new id ≡ args_at old id }
    ensures later { (first second third : Held)
        → StaysHeld first second
        → StaysHeld second third
        → StaysHeld first third }
    ensures same { (held : Held) → StaysHeld held held }
{}

/// Ids of equal trees are equal.
pub fn equal_ids_for_equal_trees()
    ensures terms { (held : Held) (one other : ℕ) (t : Tree)
        → AreIds held
        → slice_get held.terms one ≡ Some t
        → slice_get held.terms other ≡ Some t
        → one ≡ other }
    ensures atoms { (held : Held) (one other : ℕ) (a : AtomTree)
        → AreIds held
        → slice_get held.atoms one ≡ Some a
        → slice_get held.atoms other ≡ Some a
        → one ≡ other }
{}
