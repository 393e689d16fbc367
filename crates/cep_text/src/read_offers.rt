ghost use Rattle.std.specs.Prelude.{◌≡◌, ◌≤◌, ◌<◌, [], length, IfOk, IfSome, IfNone};
ghost use Rattle.cep_term.specs.Tree.{tree_of};
ghost use Rattle.cep_rule.specs.declared.offer.Offer.{Offer};
ghost use Rattle.cep_rule.specs.Program.{IsProgram};
ghost use Rattle.cep_text.specs.Reads.{IsOfferText};
ghost use Rattle.cep_text.specs.Reading.{Gives, given_at, givens_at, rule_at, offer_read, small_at};

use crate::stop::Stop;
use crate::values::small_value;
use crate::vocabulary::Vocabulary;
use crate::words::{literal, name_len};
use cep_base::Name;
use cep_rule::{Kinds, Names, Offer, Rule, Terms};
use cep_term::Term;
use std::alloc::{AllocError, Global};

/// The offer that the bytes are the text of, or `None` if and only if they are the text of none: a
/// rule of the program, with one ground, well-typed term for each of its variables, each with at
/// most 65,536 nodes and 512 levels. The form and the sizes are this profile's. Only out of memory
/// is refused.
pub fn read_offer(
    alloc: Global,
    vocabulary: &Vocabulary,
    bytes: &[u8],
) -> Result<Option<Offer>, AllocError>
    ensures some { IfOk result (λ read.
        IfSome read (λ offer. IsOfferText vocabulary.now bytes.now offer)) }
    ensures none { IfOk result (λ read.
        IfNone read ((offer : Offer) → ¬ (IsOfferText vocabulary.now bytes.now offer))) }
{
    match whole_offer(alloc, vocabulary, bytes) {
        Ok(offer) => Ok(Some(offer)),
        Err(Stop::Unread) => Ok(None),
        Err(Stop::Memory(error)) => Err(error),
    }
}

// All of the bytes as an offer.
#[tactic(auto, unfolding(crate::specs::Reading::offer_read))]
fn whole_offer(alloc: Global, vocabulary: &Vocabulary, bytes: &[u8]) -> Result<Offer, Stop>
    ensures read { Gives (λ offer. offer) result
        (offer_read vocabulary.now (small_at vocabulary.now.signature.cons) bytes.now) }
    ensures kept { IsProgram vocabulary.now }
{
    let (number, rule, rest) = rule(vocabulary, bytes)?;
    let (values, rest) = givens(alloc, vocabulary, &rule.vars, &rule.kinds, rest)?;
    if !rest.is_empty() {
        return Err(Stop::Unread);
    }
    Ok(Offer {
        rule: number,
        values,
    })
}

// A rule at the front, and its number.
#[tactic(auto, unfolding(crate::specs::Reading::rule_at))]
fn rule<'p, 'a>(
    vocabulary: &Vocabulary<'p>,
    bytes: &'a [u8],
) -> Result<(u32, &'p Rule, &'a [u8]), Stop>
    ensures read { Gives (λ x. ((x.0, x.1.now), x.2.now)) result
        (rule_at vocabulary.now.rules bytes.now) }
    ensures as_many { IfOk result (λ x. length x.1.now.kinds ≡ length x.1.now.vars) }
    ensures kept { IsProgram vocabulary.now }
{
    let rules = &vocabulary.parts().rules;
    let (name, rest) = bytes.split_at(name_len(bytes));
    match vocabulary.rule(name) {
        Some(number) => Ok((number as u32, rules.get(number), rest)),
        None => Err(Stop::Unread),
    }
}

// What the variables of these names and types are given, in order.
pub(crate) fn givens<'a>(
    alloc: Global,
    vocabulary: &Vocabulary,
    vars: &Names,
    kinds: &Kinds,
    bytes: &'a [u8],
) -> Result<(Terms, &'a [u8]), Stop>
    requires { length kinds.now ≡ length vars.now }
    ensures read { Gives (λ x. (x.0, x.1.now)) result
        (givens_at (small_at vocabulary.now.signature.cons) vars.now kinds.now [] bytes.now) }
    ensures shorter { IfOk result (λ x. length x.1.now ≤ length bytes.now) }
{
    let mut values = Terms::new(alloc);
    let mut rest = bytes;
    for i in 0..vars.len() {
        let (value, behind) = given(alloc, vocabulary, vars.get(i), *kinds.get(i), rest)?;
        values.push(value)?;
        rest = behind;
    }
    Ok((values, rest))
}

// What one variable is given.
#[tactic(auto, unfolding(crate::specs::Reading::given_at))]
fn given<'a>(
    alloc: Global,
    vocabulary: &Vocabulary,
    name: &Name,
    kind: u32,
    bytes: &'a [u8],
) -> Result<(Term, &'a [u8]), Stop>
    ensures read { Gives (λ x. (tree_of x.0, x.1.now)) result
        (given_at (small_at vocabulary.now.signature.cons kind) name.now bytes.now) }
    ensures shorter { IfOk result (λ x. length x.1.now ≤ length bytes.now) }
{
    let rest = literal(b" ", bytes)?;
    let rest = literal(name.bytes(), rest)?;
    let rest = literal(b"=", rest)?;
    small_value(alloc, vocabulary, kind, rest)
}
