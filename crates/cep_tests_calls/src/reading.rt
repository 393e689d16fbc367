// A program, and texts of it that are read, each by a vocabulary that is made for it alone.
ghost use Rattle.std.specs.Prelude.{IfOk, IfSome};
ghost use Rattle.cep_term.specs.Tree.{atom_of, tree_of};
ghost use Rattle.cep_text.specs.Reads.{IsTermText, IsAtomText};

use cep_ground::accept;
use cep_rule::Program;
use cep_term::{Atom, Term};
use cep_text::Vocabulary;
use std::alloc::{AllocError, Global};
use std::test::Fail;

// The program of natural numbers, with two clauses and a rule.
pub fn numbers(alloc: Global) -> Result<Program, Fail> {
    let text = "nat : type. z : nat. s nat : nat.
plus nat nat nat : bwd. num nat : pred.
plus z N N. plus (s M) N (s P) <- plus M N P.
stage main = { r : num N -o num N. }
#interactive main.
#trace _ main {}.
";
    Ok(accept(alloc, text.as_bytes())?.map_err(|_| "refused")?)
}

// The term of this type that the bytes are the text of.
pub fn read_term(
    alloc: Global,
    program: &Program,
    sort: u32,
    bytes: &[u8],
) -> Result<Option<Term>, AllocError>
    ensures { IfOk result (λ read.
        IfSome read (λ t. IsTermText program.now sort bytes.now (tree_of t))) }
{
    let vocabulary = Vocabulary::of(alloc, program)?;
    let read = cep_text::read_term(alloc, &vocabulary, sort, bytes);
    drop(vocabulary);
    read
}

// The atom that the bytes are the text of.
pub fn read_atom(alloc: Global, program: &Program, bytes: &[u8]) -> Result<Option<Atom>, AllocError>
    ensures { IfOk result (λ read.
        IfSome read (λ a. IsAtomText program.now bytes.now (atom_of a))) }
{
    let vocabulary = Vocabulary::of(alloc, program)?;
    let read = cep_text::read_atom(alloc, &vocabulary, bytes);
    drop(vocabulary);
    read
}
