ghost use Rattle.std.specs.Prelude.{◌≡◌, ◌≤◌, ◌<◌, length, IfOk, IfSome, IfNone};
ghost use Rattle.cep_rule.specs.Patterns.{clause_of};
ghost use Rattle.cep_rule.specs.Derivations.{ProofTree, proof_of, proofs_of};
ghost use Rattle.cep_rule.specs.Program.{IsProgram};
ghost use Rattle.cep_text.specs.Reads.{IsProofText};
ghost use Rattle.cep_text.specs.Reading.{Gives, clause_at, begin_at, proofs_at, node_at, proof_at, proof_read, small_at};

use crate::read_offers::givens;
use crate::stop::Stop;
use crate::vocabulary::Vocabulary;
use crate::words::{literal, name_len, numbered};
use cep_base::limits::MOST_HEIGHT;
use cep_rule::{Clause, Derivation, Derivations, Terms};
use std::alloc::{AllocError, Global};

/// The derivation that the bytes are the text of, or `None` if and only if they are the text of none.
/// Each node has a clause of the program, one ground, well-typed term for each of its variables,
/// each with at most 65,536 nodes and 512 levels, and one derivation for each of its goals, which
/// may be by a clause of another predicate. At most 512 brackets are open at once. The form and the
/// sizes are this profile's. Only out of memory is refused.
pub fn read_proof(
    alloc: Global,
    vocabulary: &Vocabulary,
    bytes: &[u8],
) -> Result<Option<Derivation>, AllocError>
    ensures some { IfOk result (λ read.
        IfSome read (λ d. IsProofText vocabulary.now bytes.now (proof_of d))) }
    ensures none { IfOk result (λ read.
        IfNone read ((proof : ProofTree) → ¬ (IsProofText vocabulary.now bytes.now proof))) }
{
    match whole_proof(alloc, vocabulary, bytes) {
        Ok(d) => Ok(Some(d)),
        Err(Stop::Unread) => Ok(None),
        Err(Stop::Memory(error)) => Err(error),
    }
}

// All of the bytes as a derivation.
#[tactic(auto, unfolding(crate::specs::Reading::proof_read))]
fn whole_proof(alloc: Global, vocabulary: &Vocabulary, bytes: &[u8]) -> Result<Derivation, Stop>
    ensures read { Gives proof_of result
        (proof_read vocabulary.now (small_at vocabulary.now.signature.cons) MOST_HEIGHT bytes.now) }
    ensures kept { IsProgram vocabulary.now }
{
    // What each program keeps is known from here on.
    vocabulary.parts();
    let (d, rest) = proof(alloc, vocabulary, MOST_HEIGHT, bytes)?;
    if !rest.is_empty() {
        return Err(Stop::Unread);
    }
    Ok(d)
}

// A derivation at the front that is at most so high.
#[cycle(proof)]
fn proof<'a>(
    alloc: Global,
    vocabulary: &Vocabulary,
    height: u32,
    bytes: &'a [u8],
) -> Result<(Derivation, &'a [u8]), Stop>
    ensures read { Gives (λ x. (proof_of x.0, x.1.now)) result
        (proof_at vocabulary.now (small_at vocabulary.now.signature.cons) height bytes.now) }
    ensures shorter { IfOk result (λ x. length x.1.now ≤ length bytes.now) }
{
    if height == 0 {
        return Err(Stop::Unread);
    }
    node(alloc, vocabulary, height - 1, bytes)
}

// A derivation at the front, whose goals' derivations are at most so high.
#[cycle(proof)]
#[tactic(auto, unfolding(crate::specs::Reading::node_at))]
fn node<'a>(
    alloc: Global,
    vocabulary: &Vocabulary,
    height: u32,
    bytes: &'a [u8],
) -> Result<(Derivation, &'a [u8]), Stop>
    ensures read { Gives (λ x. (proof_of x.0, x.1.now)) result
        (node_at vocabulary.now (small_at vocabulary.now.signature.cons)
        (proof_at vocabulary.now (small_at vocabulary.now.signature.cons) height) bytes.now) }
    ensures shorter { IfOk result (λ x. length x.1.now ≤ length bytes.now) }
{
    let (number, values, goals, rest) = begin(alloc, vocabulary, bytes)?;
    let (subs, rest) = proofs(alloc, vocabulary, height, goals, rest)?;
    let rest = literal(b"]", rest)?;
    let subs = Box::new(alloc, subs)?;
    Ok((Derivation::Node(number, values, subs), rest))
}

// Derivations of so many goals, each at most so high.
#[cycle(proof)]
fn proofs<'a>(
    alloc: Global,
    vocabulary: &Vocabulary,
    height: u32,
    goals: usize,
    bytes: &'a [u8],
) -> Result<(Derivations, &'a [u8]), Stop>
    ensures read { Gives (λ x. (proofs_of x.0, x.1.now)) result
        (proofs_at (proof_at vocabulary.now (small_at vocabulary.now.signature.cons) height) goals
        bytes.now) }
    ensures shorter { IfOk result (λ x. length x.1.now ≤ length bytes.now) }
{
    if goals == 0 {
        return Ok((Derivations::Nil, bytes));
    }
    let rest = literal(b" ", bytes)?;
    let (first, rest) = proof(alloc, vocabulary, height, rest)?;
    let (others, rest) = proofs(alloc, vocabulary, height, goals - 1, rest)?;
    Ok((Derivations::Cons(first, Box::new(alloc, others)?), rest))
}

// How a derivation begins: its clause, the values, and how many goals follow.
#[tactic(auto, unfolding(crate::specs::Reading::begin_at))]
fn begin<'a>(
    alloc: Global,
    vocabulary: &Vocabulary,
    bytes: &'a [u8],
) -> Result<(u32, Terms, usize, &'a [u8]), Stop>
    ensures read { Gives (λ x. ((x.0, x.1, x.2), x.3.now)) result
        (begin_at vocabulary.now (small_at vocabulary.now.signature.cons) bytes.now) }
    ensures shorter { IfOk result (λ x. length x.3.now < length bytes.now) }
{
    let rest = literal(b"[", bytes)?;
    let (number, clause, rest) = clause(vocabulary, rest)?;
    let (values, rest) = givens(alloc, vocabulary, &clause.vars, &clause.kinds, rest)?;
    Ok((number, values, clause.goals.len(), rest))
}

// A clause at the front by its number, counted from 1: its place, counted from 0, and the clause.
#[tactic(auto, unfolding(crate::specs::Reading::clause_at))]
fn clause<'p, 'a>(
    vocabulary: &Vocabulary<'p>,
    bytes: &'a [u8],
) -> Result<(u32, &'p Clause, &'a [u8]), Stop>
    ensures read { Gives (λ x. ((x.0, clause_of x.1.now), x.2.now)) result
        (clause_at vocabulary.now.clauses bytes.now) }
    ensures as_many { IfOk result (λ x. length x.1.now.kinds ≡ length x.1.now.vars) }
    ensures shorter { IfOk result (λ x. length x.2.now ≤ length bytes.now) }
{
    let clauses = &vocabulary.parts().clauses;
    let (word, rest) = bytes.split_at(name_len(bytes));
    match numbered(word, clauses.len()) {
        Some(number) => Ok((number as u32, clauses.get(number), rest)),
        None => Err(Stop::Unread),
    }
}
