//! A law of orders. The function computes nothing, and its contract is the law.
ghost use Rattle.std.specs.Prelude.{◌≡◌, ℕ, List};
ghost use Rattle.cep_order.specs.Orders.{IsOrderBy};
ghost use Rattle.cep_order.specs.declared.step_cause.StepCause.{StepCause};

/// A seed gives one order.
pub fn one_order_for_a_seed()
    ensures { (seed : ℕ) (causes : List StepCause) (order other : List ℕ)
        → IsOrderBy seed causes order → IsOrderBy seed causes other → order ≡ other }
{}
