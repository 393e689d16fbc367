ghost use Rattle.std.specs.Prelude.{◌≡◌, ◌<◌, IfOk, OnOk};
ghost use Rattle.std.specs.List.{AllByRecursion};
ghost use Rattle.cep_base.specs.declared.limits.TheConstants.{MOST_STAGES};
ghost use Rattle.cep_term.specs.Tree.{IsGroundAtom};
ghost use Rattle.cep_term.specs.Multiset.{IsContained};
ghost use Rattle.cep_rule.specs.State.{Fits};
ghost use Rattle.cep_rule.specs.Steps.{start_spot};
ghost use Rattle.cep_step.specs.Spots.{IsSpotOf};
ghost use Rattle.cep_step.specs.Changes.{CanStep, CanChange, IsWeighed, changed, edited, gains_of};

use crate::change::Change;
use crate::counting::nodes_in_state;
use crate::weighing::{Weighed, weigh};
use cep_rule::{Program, Rule, Terms};
use cep_term::Bag;
use cep_term::laws::bags_are_lawful;
use std::alloc::{AllocError, Global};
use std::marker::Model;

/// Where the machine of a program stands: a stage, by its number, and a state. Both are Ceptre's.
/// The state is edited in place, and its nodes are counted along, so that a step costs nothing that
/// grows with the state. It fits: the limits are this profile's.
#[derive(Drop)]
pub struct Spot {
    stage: u32,
    state: Bag,
    nodes: u64,
}

impl Model for Spot {
    ghost use Rattle.cep_rule.specs.Steps.{Spot as Place};
    ghost use Rattle.cep_step.specs.Spots.{spot_code, IsKept};

    ghost Value = { Place };

    ghost coded = { spot_code };

    ghost view = { λ spot. record { stage = spot.stage; state = spot.state } };

    ghost invariant = { λ spot. IsKept spot.stage spot.state spot.nodes };
}

impl Spot {
    /// Where every run of the program begins. Only out of memory is refused.
    pub fn start(alloc: Global, program: &Program) -> Result<Spot, AllocError>
        ensures start { IfOk result (λ spot. spot ≡ start_spot program.now) }
        ensures of_program { IfOk result (IsSpotOf program.now) }
    {
        let parts = program.parts();
        Ok(Spot {
            stage: parts.start_stage,
            state: parts.start.copy(alloc)?,
            nodes: nodes_in_state(&parts.start),
        })
    }

    /// The stage, by its number.
    pub fn stage(&self) -> u32
        ensures stage { result ≡ self.now.stage }
        ensures low { result < MOST_STAGES }
    {
        self.stage
    }

    /// The state.
    pub fn state(&self) -> &Bag
        ensures state { result.now ≡ self.now.state }
        ensures fits { Fits self.now.state }
    {
        &self.state
    }

    /// Weighs a step from here by the rule with these values. Only out of memory is refused.
    pub fn weigh(
        &self,
        alloc: Global,
        program: &Program,
        rule: &Rule,
        values: &Terms,
    ) -> Result<Weighed, AllocError>
        requires of_program { IsSpotOf program.now self.now }
        requires can { CanStep program.now rule.now values.now self.now.state }
        ensures { IfOk result (IsWeighed program.now rule.now values.now self.now) }
    {
        let parts = program.parts();
        weigh(
            alloc,
            parts,
            rule,
            values,
            self.stage,
            &self.state,
            self.nodes,
        )
    }

    /// Goes on by the change of a step from here, by editing the state in place. Only want of
    /// memory is refused, and then the spot is gone.
    pub fn go(self, change: &Change) -> Result<Spot, AllocError>
        requires { CanChange self change.now }
        ensures { IfOk result (λ spot. spot ≡ changed self change.now) }
    {
        let Spot { mut state, .. } = self;
        edit(&mut state, change)?;
        Ok(Spot {
            stage: change.stage,
            state,
            nodes: change.nodes,
        })
    }
}

// Takes what is taken, and adds what is gained. What is gained comes first, so that an atom that is
// taken and added keeps its place in the state.
fn edit(state: &mut Bag, change: &Change) -> Result<(), AllocError>
    requires fits { Fits state.old }
    requires there { IsContained change.now.taken state.old }
    requires ground { AllByRecursion IsGroundAtom (gains_of change.now) }
    requires after { Fits (edited state.old change.now) }
    ensures { OnOk result (state.new ≡ edited state.old change.now) }
{
    bags_are_lawful();
    // By these calls the proof learns that both are multisets of ground atoms.
    let _ = state.copies();
    let _ = change.taken.copies();
    state.add_all(change.gains())?;
    state.take_all(&change.taken);
    Ok(())
}
