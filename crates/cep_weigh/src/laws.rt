//! Laws of weights. Each function computes nothing, and its contract is the law.
ghost use Rattle.std.specs.Prelude.{◌≡◌, not, map, filter, List, ℕ, ◌+ℤ◌, ◌-ℤ◌};
ghost use Rattle.cep_term.specs.Tree.{Tree};
ghost use Rattle.cep_term.specs.Multiset.{Multiset};
ghost use Rattle.cep_rule.specs.declared.signature.Signature.{Signature};
ghost use Rattle.cep_rule.specs.declared.rule.Rule.{Rule};
ghost use Rattle.cep_rule.specs.declared.parts.Parts.{Parts};
ghost use Rattle.cep_rule.specs.Step.{Step};
ghost use Rattle.cep_rule.specs.Program.{IsProgram};
ghost use Rattle.cep_claim.specs.declared.weight.Claim.{Claim};
ghost use Rattle.cep_claim.specs.declared.weight.Claim.TheVariants.{Fall};
ghost use Rattle.cep_claim.specs.declared.weight.Part.{Part};
ghost use Rattle.cep_claim.specs.Factors.{AreNotNegative};
ghost use Rattle.cep_weigh.specs.Weights.{weight_of, left_sum, right_sum, Wants, KeepsTo, AllKeepTo, AreOfLinear, factors_of};
ghost use Rattle.cep_weigh.specs.WeightRuns.{HoldsOfRuns};
ghost use Rattle.cep_weigh.specs.Claims.{HasClaims, HasFault};
ghost use Rattle.cep_claim.specs.declared.weight.Weight.{Weight};
ghost use Rattle.cep_claim.specs.declared.fault.KeepFault.{KeepFault};

use cep_term::laws::bags_are_lawful;

/// A step changes the weight by the right sum less the left sum of its rule.
pub fn steps_change_weights()
    ensures { (signature : Signature) (parts : List Part) (rule : Rule)
        (values : List Tree) (old new : Multiset)
        → AreOfLinear signature parts
        → Step signature rule values old new
        → weight_of parts new ≡
        weight_of parts old +ℤ (right_sum parts rule -ℤ left_sum parts rule) }
{
    bags_are_lawful();
}

/// A claim to which each rule keeps holds of all runs; and no step by a rule that does not keep to
/// it does what the claim wants.
pub fn claims_hold_of_runs()
    ensures kept { (program : Parts) (claim : Claim) (parts : List Part)
        → AreOfLinear program.signature parts
        → (claim ≡ Fall → AreNotNegative parts)
        → AllKeepTo program claim parts
        → HoldsOfRuns program claim parts }
    ensures broken { (signature : Signature) (claim : Claim) (parts : List Part) (rule : Rule)
        (values : List Tree) (old new : Multiset)
        → AreOfLinear signature parts
        → ¬ KeepsTo claim parts rule
        → Step signature rule values old new
        → ¬ Wants claim (weight_of parts old) (weight_of parts new) }
{
    steps_change_weights();
}

/// The left sum adds the factors of the premises that are not kept, one after another, and the
/// right sum those of the right atoms.
pub fn sums_add_factors()
    ensures left { (parts : List Part) (rule : Rule)
        → left_sum parts rule ≡ factors_of parts
        (map (λ premise. premise.atom.pred) (filter (λ premise. not premise.kept) rule.premises)) }
    ensures right { (parts : List Part) (rule : Rule)
        → right_sum parts rule ≡ factors_of parts (map (λ a. a.pred) rule.right) }
{}

/// A file of claims says one list of claims or has one fault, and not both.
pub fn one_reading()
    ensures claims { (program : Parts) (bytes : List ℕ) (one other : List Weight)
        → IsProgram program
        → HasClaims program bytes one
        → HasClaims program bytes other
        → one ≡ other }
    ensures fault { (program : Parts) (bytes : List ℕ) (one other : KeepFault)
        → IsProgram program
        → HasFault program bytes one
        → HasFault program bytes other
        → one ≡ other }
    ensures either { (program : Parts) (bytes : List ℕ) (weights : List Weight) (fault : KeepFault)
        → IsProgram program
        → HasClaims program bytes weights
        → ¬ HasFault program bytes fault }
{}
