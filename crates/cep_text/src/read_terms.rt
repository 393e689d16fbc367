ghost use Rattle.std.specs.Prelude.{◌≡◌, IfOk, IfSome, IfNone};
ghost use Rattle.cep_term.specs.Tree.{Tree, AtomTree, atom_of, tree_of};
ghost use Rattle.cep_rule.specs.Program.{IsProgram};
ghost use Rattle.cep_text.specs.Reads.{IsTermText, IsAtomText};
ghost use Rattle.cep_text.specs.Reading.{Gives, pred_at, term_read, atom_read};

use crate::stop::Stop;
use crate::values::{arguments, left_after_all, small_value};
use crate::vocabulary::Vocabulary;
use crate::words::name_len;
use cep_base::limits::{MOST_DEPTH, MOST_NODES};
use cep_rule::Kinds;
use cep_term::{Atom, Term};
use std::alloc::{AllocError, Global};

/// The term of this type that the bytes are the text of, as it stands as an argument, or `None`
/// if and only if they are the text of none. It is ground and well typed, with at most 65,536 nodes
/// and 512 levels; the type may be any number. The form and the sizes are this profile's. Only want
/// of memory is refused.
pub fn read_term(
    alloc: Global,
    vocabulary: &Vocabulary,
    sort: u32,
    bytes: &[u8],
) -> Result<Option<Term>, AllocError>
    ensures some { IfOk result (λ read.
        IfSome read (λ t. IsTermText vocabulary.now sort bytes.now (tree_of t))) }
    ensures none { IfOk result (λ read.
        IfNone read ((t : Tree) → ¬ (IsTermText vocabulary.now sort bytes.now t))) }
{
    if sort as usize >= vocabulary.parts().signature.sorts.len() {
        return Ok(None);
    }
    match whole_term(alloc, vocabulary, sort, bytes) {
        Ok(t) => Ok(Some(t)),
        Err(Stop::Unread) => Ok(None),
        Err(Stop::Memory(error)) => Err(error),
    }
}

// All of the bytes as a term of the type.
#[tactic(auto, unfolding(crate::specs::Reading::term_read))]
fn whole_term(alloc: Global, vocabulary: &Vocabulary, sort: u32, bytes: &[u8]) -> Result<Term, Stop>
    ensures { Gives tree_of result (term_read vocabulary.now.signature.cons sort bytes.now) }
{
    let (t, rest) = small_value(alloc, vocabulary, sort, bytes)?;
    if !rest.is_empty() {
        return Err(Stop::Unread);
    }
    Ok(t)
}

/// The atom that the bytes are the text of, or `None` if and only if they are the text of none. It is
/// ground, well typed and fit, and its predicate may be of any kind. The form and the sizes are this
/// profile's. Only out of memory is refused.
pub fn read_atom(
    alloc: Global,
    vocabulary: &Vocabulary,
    bytes: &[u8],
) -> Result<Option<Atom>, AllocError>
    ensures some { IfOk result (λ read.
        IfSome read (λ a. IsAtomText vocabulary.now bytes.now (atom_of a))) }
    ensures none { IfOk result (λ read.
        IfNone read ((a : AtomTree) → ¬ (IsAtomText vocabulary.now bytes.now a))) }
{
    match whole_atom(alloc, vocabulary, bytes) {
        Ok(a) => Ok(Some(a)),
        Err(Stop::Unread) => Ok(None),
        Err(Stop::Memory(error)) => Err(error),
    }
}

// All of the bytes as an atom.
#[tactic(auto, unfolding(crate::specs::Reading::atom_read))]
fn whole_atom(alloc: Global, vocabulary: &Vocabulary, bytes: &[u8]) -> Result<Atom, Stop>
    ensures read { Gives atom_of result (atom_read vocabulary.now.signature bytes.now) }
    ensures kept { IsProgram vocabulary.now }
{
    let (pred, kinds, rest) = pred(vocabulary, bytes)?;
    let (args, rest) = arguments(alloc, vocabulary, MOST_DEPTH as u32 - 1, kinds, 0, rest)?;
    if !rest.is_empty() {
        return Err(Stop::Unread);
    }
    match left_after_all(&args, MOST_NODES - 1) {
        Some(_) => Ok(Atom { pred, args }),
        None => Err(Stop::Unread),
    }
}

// A predicate at the front: its number, and the types of its arguments.
#[tactic(auto, unfolding(crate::specs::Reading::pred_at))]
fn pred<'p, 'a>(
    vocabulary: &Vocabulary<'p>,
    bytes: &'a [u8],
) -> Result<(u32, &'p Kinds, &'a [u8]), Stop>
    ensures read { Gives (λ x. ((x.0, x.1.now), x.2.now)) result
        (pred_at vocabulary.now.signature.preds bytes.now) }
    ensures kept { IsProgram vocabulary.now }
{
    let preds = &vocabulary.parts().signature.preds;
    let (name, rest) = bytes.split_at(name_len(bytes));
    match vocabulary.predicate(name) {
        Some(number) => Ok((number as u32, &preds.get(number).args, rest)),
        None => Err(Stop::Unread),
    }
}
