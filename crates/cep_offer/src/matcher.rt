ghost use Rattle.std.specs.Prelude.{◌≡◌, ◌↔◌, ℕ, ◌<◌, ◌≤◌, List, length, slice_get, Some, IfOk, IsTrue, true};
ghost use Rattle.cep_term.specs.Tree.{AtomTree};
ghost use Rattle.cep_term.specs.Multiset.{Multiset, count_of, IsContained};
ghost use Rattle.cep_rule.specs.declared.parts.Parts.{Parts};
ghost use Rattle.cep_rule.specs.declared.offer.Offer.{Offer};
ghost use Rattle.cep_rule.specs.Typing.{is_fact};
ghost use Rattle.cep_rule.specs.Limits.{IsHeight};
ghost use Rattle.cep_rule.specs.State.{IsState, Fits};
ghost use Rattle.cep_rule.specs.Matching.{offers_of, AreListed, state_after, RoseBy};
ghost use Rattle.cep_offer.specs.Leaving.{LeavesAlone};

use cep_base::Steps;
use cep_base::limits::MOST_OFFERS;
use cep_rule::{Offer, Program};
use cep_term::{AtomList, Bag};
use std::alloc::{AllocError, Global};
use std::sync::ledger::Ledger;

/// What finds the instances of rules that apply to a state, and goes with the state from step to
/// step. Ceptre's semantics says which these are; that they are kept in lists, one for each group,
/// and their order, are this profile's. A matcher keeps no program: that it is of one is a fact
/// about the two.
pub trait Matcher: Sized + Drop {
    /// The state whose offers are listed.
    ghost state_held: { Self → Multiset };

    /// The height within which backward premises are derived, from 1 to 512.
    ghost height_held: { Self → ℕ };

    /// The offers, one list for each group.
    ghost offers_held: { Self → List (List Offer) };

    /// The matcher is of the program. By the law `exact` its lists are then the offers of the
    /// program.
    ghost is_of: { Parts → Self → Type 0 };

    /// With this program, state and height, `begin` may tick so often.
    ghost may_begin: { Parts → Multiset → ℕ → ℕ → Type 0 };

    /// With this program, state before the edit, height, and atoms taken and added, `edit` may tick
    /// so often.
    ghost may_edit: { Parts → Multiset → ℕ → Multiset → List AtomTree → ℕ → Type 0 };

    /// A matcher of the program that holds this state, with a height from 1 to 512. The counter
    /// increases by what `may_begin` allows. Only out of memory is refused, after any ticks.
    fn begin<L: Ledger>(
        alloc: Global,
        program: &Program,
        state: &Bag,
        height: u32,
        steps: &mut Steps<L>,
    ) -> Result<Self, AllocError>
        requires height { IsHeight height }
        requires is_state { IsState program.now.signature state.now }
        requires fits { Fits state.now }
        ensures of_program { IfOk result (λ matcher. is_of program.now matcher) }
        ensures same_state { IfOk result (λ matcher. state_held matcher ≡ state.now) }
        ensures same_height { IfOk result (λ matcher. height_held matcher ≡ height) }
        ensures ticked { IfOk result
            (λ matcher. RoseBy (may_begin program.now state.now height) steps.old steps.new) }
        ensures never_falls { steps.old ≤ steps.new };

    /// The matcher after these atoms, none of which is a fact, are taken from its state and those are
    /// added, in this order. A fact that is there changes nothing.
    /// The counter increases by what `may_edit` allows. Only out of memory is refused, after any
    /// ticks, and then the matcher is gone.
    fn edit<L: Ledger>(
        self,
        alloc: Global,
        program: &Program,
        taken: &Bag,
        added: &AtomList,
        steps: &mut Steps<L>,
    ) -> Result<Self, AllocError>
        requires of_program { is_of program.now self }
        requires contained { IsContained taken.now (state_held self) }
        requires no_facts { (a : AtomTree)
            → is_fact program.now.signature a ≡ true → count_of taken.now a ≡ 0 }
        requires is_state { IsState program.now.signature
            (state_after program.now.signature (state_held self) taken.now added.now) }
        requires fits { Fits (state_after program.now.signature
            (state_held self) taken.now added.now) }
        ensures of_program { IfOk result (λ matcher. is_of program.now matcher) }
        ensures new_state { IfOk result (λ matcher. state_held matcher
            ≡ state_after program.now.signature (state_held self) taken.now added.now) }
        ensures same_height { IfOk result (λ matcher. height_held matcher ≡ height_held self) }
        ensures ticked { IfOk result (λ matcher. RoseBy
            (may_edit program.now (state_held self) (height_held self) taken.now added.now)
            steps.old steps.new) }
        ensures never_falls { steps.old ≤ steps.new };

    /// How many offers the group has. It takes no memory.
    fn count(&self, group: u32) -> usize
        requires { group < length (offers_held self.now) }
        ensures { result ≡ length (offers_of (offers_held self.now) group) };

    /// The offer of the group at this place, counted from 0. It takes no memory.
    fn offer(&self, group: u32, i: usize) -> &Offer
        requires listed { group < length (offers_held self.now) }
        requires within { i < length (offers_of (offers_held self.now) group) }
        ensures { slice_get (offers_of (offers_held self.now) group) i ≡ Some result.now };

    /// Whether the group has no more offers than a turn may have. It takes no memory.
    fn len_ok(&self, group: u32) -> bool
        requires { group < length (offers_held self.now) }
        ensures { IsTrue result ↔ (length (offers_of (offers_held self.now) group) ≤ MOST_OFFERS) }
    {
        self.count(group) <= MOST_OFFERS
    }

    /// What is kept costs nothing: an edit may tick as often where it takes atoms too and adds them
    /// again as where it leaves them alone. The function computes nothing.
    fn kept_premises_cost_nothing()
        ensures { (program : Parts) (state : Multiset) (height : ℕ) (used : Multiset)
            (made : List AtomTree) (taken : Multiset) (added : List AtomTree) (ticks : ℕ)
            → LeavesAlone program.signature state used made taken added
            → may_edit program state height used made ticks
            → may_edit program state height taken added ticks };

    /// The height of a matcher of a program is one.
    ghost low: { (program : Parts) (matcher : Self)
        → is_of program matcher
        → IsHeight (height_held matcher) };

    /// The lists of a matcher of a program are its offers in the state, within the height.
    ghost exact: { (program : Parts) (matcher : Self)
        → is_of program matcher
        → AreListed program (height_held matcher) (state_held matcher) (offers_held matcher) };
}
