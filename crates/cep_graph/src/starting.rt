ghost use Rattle.std.specs.Prelude.{◌<◌, ◌++◌, List, length, replicate, IfOk, OnOk};
ghost use Rattle.cep_term.specs.Tree.{AtomTree};
ghost use Rattle.cep_cause.specs.Tokens.{listed_copies};
ghost use Rattle.cep_graph.specs.Queues.{IsIdOf, KeepsIds};
ghost use Rattle.cep_graph.specs.Traces.{AreOfStart};

use crate::tokens::Tokens;
use crate::trace::Trace;
use cep_base::List;
use cep_term::Bag;
use std::alloc::{AllocError, Global};

/// The tokens of a start state.
pub fn start_tokens(alloc: Global, start: &Bag) -> Result<Tokens, AllocError>
    ensures { IfOk result (AreOfStart (listed_copies start.now)) }
{
    let mut tokens = Tokens::new(alloc);
    for i in 0..start.len() {
        let (atom, copies) = start.entry(i);
        let id = tokens.id_of(atom)?;
        add_copies(alloc, &mut tokens, id, copies)?;
    }
    Ok(tokens)
}

// Adds so many tokens of an atom of the start state.
fn add_copies(alloc: Global, tokens: &mut Tokens, id: usize, copies: u32) -> Result<(), AllocError>
    requires { id < length tokens.old.atoms }
    ensures { OnOk result ((a : AtomTree) (atoms : List AtomTree)
        → IsIdOf tokens.old id a
        → AreOfStart atoms tokens.old
        → AreOfStart (atoms ++ replicate copies a) tokens.new) }
{
    for _copy in 0..copies {
        let users = List::new(alloc);
        tokens.add(id, Trace { maker: 0, users })?;
    }
    Ok(())
}
