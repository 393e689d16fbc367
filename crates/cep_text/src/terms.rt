ghost use Rattle.std.specs.Prelude.{◌≡◌, ◌++◌, OnOk, OnErr};
ghost use Rattle.cep_term.specs.Tree.{atom_of, tree_of, trees_of};
ghost use Rattle.cep_text.specs.Texts.{term_text, args_text, atom_text, IsGroundTerm, IsTypedGround, HasNames, HaveNames};
ghost use Rattle.cep_text.specs.Writing.{IsBegun};

use cep_base::Text;
use cep_rule::{Program, Signature};
use cep_term::{Args, Atom, Term};
use std::alloc::AllocError;

/// Adds the text of a ground term, as it stands as an argument. After out of memory a prefix of it
/// was added.
pub fn put_term(program: &Program, term: &Term, out: &mut Text) -> Result<(), AllocError>
    requires { IsGroundTerm program.now.signature (tree_of term.now) }
    ensures ok { OnOk result (out.new
        ≡ out.old ++ term_text program.now.signature (tree_of term.now)) }
    ensures err { OnErr result (IsBegun out.old
        (term_text program.now.signature (tree_of term.now)) out.new) }
{
    put_value(&program.parts().signature, term, out)
}

/// Adds the text of a ground atom. After out of memory a prefix of it was added.
pub fn put_atom(program: &Program, atom: &Atom, out: &mut Text) -> Result<(), AllocError>
    requires { IsTypedGround program.now.signature (atom_of atom.now) }
    ensures ok { OnOk result (out.new
        ≡ out.old ++ atom_text program.now.signature (atom_of atom.now)) }
    ensures err { OnErr result (IsBegun out.old
        (atom_text program.now.signature (atom_of atom.now)) out.new) }
{
    let signature = &program.parts().signature;
    out.append(signature.preds.get(atom.pred as usize).name.bytes())?;
    put_args(signature, &atom.args, out)
}

// Adds the text of a term whose constructors are declared.
#[cycle(put)]
pub(crate) fn put_value(
    signature: &Signature,
    term: &Term,
    out: &mut Text,
) -> Result<(), AllocError>
    requires { HasNames signature.now.cons (tree_of term.now) }
    ensures ok { OnOk result (out.new ≡ out.old ++ term_text signature.now (tree_of term.now)) }
    ensures err { OnErr result (IsBegun out.old
        (term_text signature.now (tree_of term.now)) out.new) }
{
    match term {
        Term::Var(_) => Ok(()),
        Term::App(c, args) => {
            let name = signature.cons.get(*c as usize).name.bytes();
            match args {
                Args::Nil => out.append(name),
                Args::Cons(_) => {
                    out.append(b"(")?;
                    out.append(name)?;
                    put_args(signature, args, out)?;
                    out.append(b")")
                }
            }
        }
    }
}

// Adds one space and the text of the argument, for each argument.
#[cycle(put)]
fn put_args(signature: &Signature, args: &Args, out: &mut Text) -> Result<(), AllocError>
    requires { HaveNames signature.now.cons (trees_of args.now) }
    ensures ok { OnOk result (out.new ≡ out.old ++ args_text signature.now (trees_of args.now)) }
    ensures err { OnErr result (IsBegun out.old
        (args_text signature.now (trees_of args.now)) out.new) }
{
    match args {
        Args::Nil => Ok(()),
        Args::Cons(cell) => {
            out.append(b" ")?;
            put_value(signature, &cell.first, out)?;
            put_args(signature, &cell.rest, out)
        }
    }
}
