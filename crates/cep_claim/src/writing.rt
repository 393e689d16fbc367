// Which claim a line is written as.
ghost use Rattle.std.specs.Prelude.{◌≡◌, ◌≢◌, List, ℕ, ◌∷◌, map, true, IfOk, IfSome, IfNone, IsTrue, ◌↔◌};
ghost use Rattle.std.specs.List.{AllByRecursion};
ghost use Rattle.std.specs.Fmt.{signed_decimal};
ghost use Rattle.cep_claim.specs.declared.written.NamedPart.{NamedPart};
ghost use Rattle.cep_claim.specs.declared.written.Written.{Written};
ghost use Rattle.cep_claim.specs.Written.{mark_of, IsNamedPart, IsWritable, IsWrittenAs, parts_words, claim_words};

use crate::words::{claim_word, factor_word, is_name, words_of};
use crate::written::{NamedPart, NamedParts, Written};
use cep_base::Name;
use std::alloc::{AllocError, Global};

/// The claim that the line is written as, and `None` if and only if it is written as none. Only out
/// of memory is refused.
pub fn written_as(alloc: Global, line: &[u8]) -> Result<Option<Written>, AllocError>
    ensures some { IfOk result (λ read. IfSome read (IsWrittenAs line.now)) }
    ensures none { IfOk result
        (λ read. IfNone read ((written : Written) → ¬ IsWrittenAs line.now written)) }
{
    let words = words_of(alloc, line)?;
    match words.as_slice() {
        [claim, name, parts @ ..] => claim_of(alloc, claim, name, parts),
        _ => Ok(None),
    }
}

// The claim whose words these are.
fn claim_of(
    alloc: Global,
    claim: &[u8],
    name: &[u8],
    words: &[&[u8]],
) -> Result<Option<Written>, AllocError>
    ensures some { let all = claim.now ∷ name.now ∷ map (λ word. word.now) words.now in
        IfOk result (λ read. IfSome read
        (λ written. IsWritable written × (all ≡ claim_words written))) }
    ensures none { let all = claim.now ∷ name.now ∷ map (λ word. word.now) words.now in
        IfOk result (λ read. IfNone read
        ((written : Written) → IsWritable written → all ≢ claim_words written)) }
{
    let Some(claim) = claim_word(claim) else {
        return Ok(None);
    };
    if words.is_empty() {
        return Ok(None);
    }
    if !is_name(name) {
        return Ok(None);
    }
    match parts_of(alloc, words)? {
        Some(parts) => {
            let name = Name::new(alloc, name)?;
            Ok(Some(Written { claim, name, parts }))
        }
        None => Ok(None),
    }
}

// The parts of the sum whose words these are.
fn parts_of(alloc: Global, words: &[&[u8]]) -> Result<Option<NamedParts>, AllocError>
    ensures some { let all = map (λ word. word.now) words.now in
        IfOk result (λ read. IfSome read
        (λ parts. AllByRecursion IsNamedPart parts × (all ≡ parts_words true parts))) }
    ensures none { let all = map (λ word. word.now) words.now in
        IfOk result (λ read. IfNone read ((parts : List NamedPart)
        → AllByRecursion IsNamedPart parts → all ≢ parts_words true parts)) }
{
    let mut parts = NamedParts::new(alloc);
    let mut rest = words;
    while let [mark, factor, name, behind @ ..] = rest {
        if !is_mark(parts.is_empty(), mark) {
            return Ok(None);
        }
        match part_of(alloc, factor, name)? {
            Some(part) => parts.push(part)?,
            None => return Ok(None),
        }
        rest = behind;
    }
    if rest.is_empty() {
        Ok(Some(parts))
    } else {
        Ok(None)
    }
}

// Whether the word is the mark before a part, which may be the first.
fn is_mark(first: bool, word: &[u8]) -> bool
    ensures { IsTrue result ↔ (word.now ≡ mark_of first) }
{
    match word {
        b"=" => first,
        b"+" => !first,
        _ => false,
    }
}

// The part that the two words are.
fn part_of(alloc: Global, factor: &[u8], name: &[u8]) -> Result<Option<NamedPart>, AllocError>
    ensures some { IfOk result (λ read. IfSome read (λ part. IsNamedPart part
        × (factor.now ≡ signed_decimal part.factor) × (name.now ≡ part.name))) }
    ensures none { IfOk result (λ read. IfNone read ((part : NamedPart) → IsNamedPart part
        → factor.now ≡ signed_decimal part.factor → name.now ≢ part.name)) }
{
    match factor_word(factor) {
        Some(factor) => {
            if !is_name(name) {
                return Ok(None);
            }
            let name = Name::new(alloc, name)?;
            Ok(Some(NamedPart { factor, name }))
        }
        None => Ok(None),
    }
}
