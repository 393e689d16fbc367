//! Laws of terms, matching and multisets, for the crates that rest on them. Each function
//! computes nothing, and its contract is the law.
ghost use Rattle.std.specs.Prelude.{◌≡◌, ◌≢◌, ◌⊎◌, ℕ};
ghost use Rattle.std.specs.Cmp.{IsTotalOrder};
ghost use Rattle.std.specs.FinMap as finite;
ghost use Rattle.cep_term.specs.Tree.{Tree, AtomTree, variable, IsGroundAtom, OccursIn};
ghost use Rattle.cep_term.specs.Order.{tree_cmp, atom_cmp};
ghost use Rattle.cep_term.specs.Values.{Values, value_of, term_instance, atom_instance, AreGroundValues, HasValues, Extends, Meets, NeverMeets};
ghost use Rattle.cep_term.specs.MatchingLaws.{MatchingLaws};
ghost use Rattle.cep_term.specs.BagLaws.{BagLaws};

/// The order of terms and of atoms is total, and only equal ones tie.
pub fn order_is_total()
    ensures terms { IsTotalOrder tree_cmp }
    ensures equal_terms { finite.IsAntisymmetric tree_cmp }
    ensures atoms { IsTotalOrder atom_cmp }
    ensures equal_atoms { finite.IsAntisymmetric atom_cmp }
{}

/// Two atoms are one or not. It stands apart from the laws of multisets, since where it is at hand
/// proofs that look for cases find too many.
pub fn atoms_are_one_or_not()
    ensures { (a b : AtomTree) → (a ≡ b) ⊎ (a ≢ b) }
{}

/// What instances of ground atoms and of instances are, and on what an instance depends.
pub fn instances_of_instances()
    ensures of_known { (values : Values) (a : AtomTree)
        → IsGroundAtom a
        → atom_instance values a ≡ a }
    ensures twice { (first next both : Values) (a : AtomTree)
        → ((v : ℕ) → term_instance next (term_instance first (variable v))
        ≡ term_instance both (variable v))
        → atom_instance next (atom_instance first a) ≡ atom_instance both a }
    ensures later { (old new : Values) (a : AtomTree)
        → AreGroundValues old
        → Extends old new
        → atom_instance new (atom_instance old a) ≡ atom_instance new a }
    ensures alike { (x y : Values) (a : AtomTree)
        → ((v : ℕ) → OccursIn v a → value_of x v ≡ value_of y v)
        → atom_instance x a ≡ atom_instance y a }
    ensures known { (values : Values) (a : AtomTree)
        → AreGroundValues values
        → HasValues values a
        → IsGroundAtom (atom_instance values a) }
{}

/// A pattern meets a ground atom with one choice of values, which every other choice that makes the
/// two equal has too; and then it is not so that it never meets.
pub fn matches_are_least()
    ensures one { (old new other : Values) (pattern target : AtomTree)
        → IsGroundAtom target
        → Meets old new pattern target
        → Meets old other pattern target
        → new ≡ other }
    ensures least { (old new values : Values) (pattern target : AtomTree)
        → IsGroundAtom target
        → Meets old new pattern target
        → Extends old values
        → atom_instance values pattern ≡ target
        → Extends new values }
    ensures not_both { (old new : Values) (pattern target : AtomTree)
        → Meets old new pattern target
        → ¬ (NeverMeets old pattern target) }
{}

/// Matching from left to right finds the values by which a pattern is a ground term, where there are
/// any.
pub fn matching_is_lawful()
    ensures { MatchingLaws }
{}

/// What setting a count, sums, differences and gathering do to the counts, the copies and the nodes of
/// a multiset, and that the counts say which multiset it is.
pub fn bags_are_lawful()
    ensures { BagLaws }
{}
