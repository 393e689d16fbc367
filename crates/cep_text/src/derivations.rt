ghost use Rattle.std.specs.Prelude.{◌≡◌, ◌++◌, OnOk, OnErr};
ghost use Rattle.cep_rule.specs.Derivations.{proof_of, proofs_of};
ghost use Rattle.cep_rule.specs.Shapes.{IsNodeOf, IsProofOf, AreProofsOf};
ghost use Rattle.cep_text.specs.Texts.{begin_text, begin_of, proof_text, proofs_text};
ghost use Rattle.cep_text.specs.Writing.{IsBegun};

use crate::offers::put_values;
use cep_base::Text;
use cep_rule::{Derivation, Derivations, Program, Terms};
use std::alloc::AllocError;

/// Adds the text of a derivation. After out of memory a prefix of it was added.
#[cycle(derivation)]
pub fn put_proof(program: &Program, d: &Derivation, out: &mut Text) -> Result<(), AllocError>
    requires { IsProofOf program.now (proof_of d.now) }
    ensures ok { OnOk result (out.new ≡ out.old ++ proof_text program.now (proof_of d.now)) }
    ensures err { OnErr result (IsBegun out.old (proof_text program.now (proof_of d.now)) out.new) }
{
    begin_proof(program, d, out)?;
    match d {
        Derivation::Node(_, _, subs) => {
            put_proofs(program, subs, out)?;
            out.append(b"]")
        }
    }
}

// Adds one space and the text of the derivation, for each derivation.
#[cycle(derivation)]
fn put_proofs(program: &Program, subs: &Derivations, out: &mut Text) -> Result<(), AllocError>
    requires { AreProofsOf program.now (proofs_of subs.now) }
    ensures ok { OnOk result (out.new ≡ out.old ++ proofs_text program.now (proofs_of subs.now)) }
    ensures err { OnErr result (IsBegun out.old
        (proofs_text program.now (proofs_of subs.now)) out.new) }
{
    match subs {
        Derivations::Nil => Ok(()),
        Derivations::Cons(d, rest) => {
            out.append(b" ")?;
            put_proof(program, d, out)?;
            put_proofs(program, rest, out)
        }
    }
}

// Adds what stands before the derivations of the goals.
fn begin_proof(program: &Program, d: &Derivation, out: &mut Text) -> Result<(), AllocError>
    requires { IsProofOf program.now (proof_of d.now) }
    ensures ok { OnOk result (out.new ≡ out.old ++ begin_of program.now (proof_of d.now)) }
    ensures err { OnErr result (IsBegun out.old (begin_of program.now (proof_of d.now)) out.new) }
{
    match d {
        Derivation::Node(number, values, _) => begin_node(program, *number, values, out),
    }
}

// Adds a bracket, the clause's number, and what each of its variables is given.
fn begin_node(
    program: &Program,
    number: u32,
    values: &Terms,
    out: &mut Text,
) -> Result<(), AllocError>
    requires { IsNodeOf program.now number values.now }
    ensures ok { OnOk result (out.new ≡ out.old ++ begin_text program.now number values.now) }
    ensures err { OnErr result (IsBegun out.old
        (begin_text program.now number values.now) out.new) }
{
    let parts = program.parts();
    let clause = parts.clauses.get(number as usize);
    out.append(b"[")?;
    out.number(u64::from(number) + 1)?;
    put_values(&parts.signature, &clause.vars, values, out)
}
