//! Laws of what a text declares. Each function computes nothing, and its contract is the law.
ghost use Rattle.std.specs.Prelude.{ℕ, List, Contains};
ghost use Rattle.cep_parse.specs.declared.raw.RawAtom.{RawAtom};
ghost use Rattle.cep_parse.specs.Written.{IsAtomOf};
ghost use Rattle.cep_term.specs.Tree.{AtomTree, IsGroundAtom};
ghost use Rattle.cep_source.specs.Items.{Source, TraceItem, traces_of};
ghost use Rattle.cep_source.specs.Starts.{start_atoms};
ghost use Rattle.cep_source.specs.Uses.{atoms_written, state_atoms};
ghost use Rattle.cep_infer.specs.Heads.{IsAtomBy};
ghost use Rattle.cep_infer.specs.Resolved.{IsWellNamed};
ghost use Rattle.cep_infer.specs.Shapes.{IsSource, AreFilled};
ghost use Rattle.cep_infer.specs.States.{AreClosed};

use cep_parse::items_are_made_of_tokens;

/// In the raw file of a text's tokens each atom is made of them, and its nodes are its arguments.
pub fn atoms_are_made_of_tokens()
    ensures made { (source : Source) (is : IsSource source) (atom : RawAtom)
        → Contains (atoms_written source) atom
        → IsAtomOf is.tokens atom }
    ensures filled { (source : Source) → IsSource source → AreFilled source }
{
    items_are_made_of_tokens();
}

/// The atoms of a trace's start state stand in contexts or in its braces; in a text without wrong
/// names no node of such an atom is a variable or a blank; and then it is ground.
pub fn start_atoms_are_ground()
    ensures written { (source : Source) (trace : TraceItem) (raw : RawAtom)
        → Contains (traces_of source) trace
        → Contains (start_atoms source trace.start) raw
        → Contains (state_atoms source) raw }
    ensures closed { (source : Source) (raw : RawAtom)
        → IsWellNamed source
        → Contains (state_atoms source) raw
        → AreClosed raw.nodes }
    ensures ground { (source : Source) (vars : List (List ℕ)) (blanks : ℕ) (raw : RawAtom)
        (atom : AtomTree)
        → IsAtomBy source vars blanks raw atom
        → AreClosed raw.nodes
        → IsGroundAtom atom }
{}
