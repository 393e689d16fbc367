// What a line by itself says: one function for each kind of line.
ghost use Rattle.std.specs.Prelude.{◌≡◌, ◌≢◌, ◌↔◌, ℕ, ◌++◌, codes, decimal, MatchOption, IfOk, IfSome, IfNone, IsTrue, List, ◌≤◌, Contains};
ghost use Rattle.cep_term.specs.Tree.{AtomTree};
ghost use Rattle.cep_rule.specs.declared.rule.Rule.{Rule};
ghost use Rattle.cep_rule.specs.declared.offer.Offer.{Offer};
ghost use Rattle.cep_rule.specs.Limits.{IsHeight};
ghost use Rattle.cep_rule.specs.Derivations.{ProofTree, proof_of};
ghost use Rattle.cep_lines.specs.declared.end_word.EndWord.{EndWord};
ghost use Rattle.cep_lines.specs.Lines.{ending_word, version_text, height_text, state_text};
ghost use Rattle.cep_lines.specs.declared.version.Version.{Version};
ghost use Rattle.cep_log.specs.Listed.{have_of};
ghost use Rattle.cep_log.specs.Transcript.{IsPassedOver, IsHaveLine, IsStageLine, IsStepLine, IsByLine, IsEndLine, NamesNoRule};

use crate::words::{cut_word, plain, strip};
use cep_base::limits::{MOST_COPIES, MOST_HEIGHT};
use cep_lines::{EndWord, Version};
use cep_log::Have;
use cep_rule::{Derivation, Offer};
use cep_text::{Vocabulary, read_atom, read_offer, read_proof};
use itoa::Buffer;
use std::alloc::{AllocError, Global};

// Whether the line is passed over.
pub(crate) fn is_passed_over(line: &[u8]) -> bool
    ensures { IsTrue result ↔ IsPassedOver line.now }
{
    line.first() == Some(&b'?')
}

// The version that the line says.
pub(crate) fn version_line(line: &[u8]) -> Option<Version>
    ensures { MatchOption result ((version : Version)
        → line.now ≢ version_text version) (λ version. line.now ≡ version_text version) }
{
    match line {
        b"ceptre 1" => Some(Version::One),
        b"ceptre 2" => Some(Version::Two),
        _ => None,
    }
}

// The height that the line says.
pub(crate) fn height_line(line: &[u8]) -> Option<u32>
    ensures { MatchOption result
        ((height : ℕ) → IsHeight height → line.now ≢ height_text height)
        (λ height. IsHeight height × (line.now ≡ height_text height)) }
{
    let height = plain(strip(b"height ", line)?)?;
    if height >= 1 && height <= MOST_HEIGHT {
        Some(height)
    } else {
        None
    }
}

// The stage that the line names.
pub(crate) fn stage_line(vocabulary: &Vocabulary, line: &[u8]) -> Option<u32>
    ensures { MatchOption result ((stage : ℕ)
        → ¬ (IsStageLine vocabulary.now line.now stage)) (IsStageLine vocabulary.now line.now) }
{
    vocabulary.stage(strip(b"stage ", line)?)
}

// The entry of a listing that the line says.
pub(crate) fn have_line(
    alloc: Global,
    vocabulary: &Vocabulary,
    line: &[u8],
) -> Result<Option<Have>, AllocError>
    ensures some { IfOk result (λ read.
        IfSome read (λ have. IsHaveLine vocabulary.now line.now (have_of have))) }
    ensures none { IfOk result (λ read.
        IfNone read ((entry : AtomTree × ℕ) → ¬ (IsHaveLine vocabulary.now line.now entry))) }
{
    let Some((count, text)) = counted(line) else {
        return Ok(None);
    };
    match read_atom(alloc, vocabulary, text)? {
        Some(atom) => Ok(Some(Have { count, atom })),
        None => Ok(None),
    }
}

// The count that a line of a listing says, and the text after it.
fn counted(line: &[u8]) -> Option<(u32, &[u8])>
    ensures { MatchOption result
        ((count : ℕ) (text : List ℕ) → 1 ≤ count → count ≤ MOST_COPIES
        → line.now ≢ codes "have " ++ (decimal count ++ (codes " " ++ text)))
        (λ x. (1 ≤ x.0) × (x.0 ≤ MOST_COPIES)
        × (line.now ≡ codes "have " ++ (decimal x.0 ++ (codes " " ++ x.1.now)))) }
{
    let (word, rest) = cut_word(strip(b"have ", line)?);
    let text = strip(b" ", rest)?;
    let count = plain(word)?;
    if count >= 1 && u64::from(count) <= MOST_COPIES {
        Some((count, text))
    } else {
        None
    }
}

// The offer of the step that the line says.
pub(crate) fn step_line(
    alloc: Global,
    vocabulary: &Vocabulary,
    line: &[u8],
) -> Result<Option<Offer>, AllocError>
    ensures some { IfOk result (λ read. IfSome read (IsStepLine vocabulary.now line.now)) }
    ensures none { IfOk result (λ read.
        IfNone read ((offer : Offer) → ¬ (IsStepLine vocabulary.now line.now offer))) }
{
    match strip(b"step ", line) {
        Some(text) => read_offer(alloc, vocabulary, text),
        None => Ok(None),
    }
}

// The derivation that the line says.
pub(crate) fn by_line(
    alloc: Global,
    vocabulary: &Vocabulary,
    line: &[u8],
) -> Result<Option<Derivation>, AllocError>
    ensures some { IfOk result (λ read.
        IfSome read (λ proof. IsByLine vocabulary.now line.now (proof_of proof))) }
    ensures none { IfOk result (λ read.
        IfNone read ((proof : ProofTree) → ¬ (IsByLine vocabulary.now line.now proof))) }
{
    match strip(b"by ", line) {
        Some(text) => read_proof(alloc, vocabulary, text),
        None => Ok(None),
    }
}

// Whether the line stands before the listing of the state after the step of this number.
pub(crate) fn is_state_line(line: &[u8], number: u32) -> bool
    ensures { IsTrue result ↔ (line.now ≡ state_text number) }
{
    let mut buffer = Buffer::new();
    match strip(b"state ", line) {
        Some(word) => word == buffer.format(number).as_bytes(),
        None => false,
    }
}

// The word of the end that the line says.
pub(crate) fn end_line(line: &[u8]) -> Option<EndWord>
    ensures { MatchOption result ((word : EndWord)
        → ¬ (IsEndLine line.now word)) (IsEndLine line.now) }
{
    end_word(strip(b"end ", line)?)
}

// The end word of this text.
fn end_word(text: &[u8]) -> Option<EndWord>
    ensures { MatchOption result ((word : EndWord)
        → text.now ≢ ending_word word) (λ word. text.now ≡ ending_word word) }
{
    match text {
        b"quiet" => Some(EndWord::Quiet),
        b"input" => Some(EndWord::Input),
        b"turns" => Some(EndWord::Turns),
        b"offers" => Some(EndWord::Offers),
        b"typed" => Some(EndWord::Typed),
        b"atom" => Some(EndWord::Atom),
        b"state" => Some(EndWord::State),
        _ => None,
    }
}

// Whether the line begins like a step, of a rule that the program has not got.
pub(crate) fn names_no_rule(vocabulary: &Vocabulary, line: &[u8]) -> bool
    ensures { IsTrue result ↔ NamesNoRule vocabulary.now line.now }
{
    match strip(b"step ", line) {
        Some(text) => !is_rule(vocabulary, cut_word(text).0),
        None => false,
    }
}

// Whether some rule has the name.
fn is_rule(vocabulary: &Vocabulary, name: &[u8]) -> bool
    ensures { IsTrue result ↔ ((rule : Rule) × Contains vocabulary.now.rules rule
        × (rule.name ≡ name.now)) }
{
    vocabulary
        .parts()
        .rules
        .iter()
        .any(|rule| rule.name.bytes() == name)
}
