ghost use Rattle.std.specs.Prelude.{◌≡◌};
ghost use Rattle.cep_term.specs.Multiset.{nodes_in_all};
ghost use Rattle.cep_rule.specs.State.{Fits};

use cep_term::{Bag, nodes};

// How many nodes a state that fits has, each copy counted. It takes no memory.
pub(crate) fn nodes_in_state(state: &Bag) -> u64
    requires { Fits state.now }
    ensures { result ≡ nodes_in_all state.now }
{
    let mut sum = 0;
    for i in 0..state.len() {
        let (atom, copies) = state.entry(i);
        sum += copies as u64 * nodes(atom);
    }
    sum
}
