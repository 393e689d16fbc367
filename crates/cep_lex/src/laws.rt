//! Laws of tokens and faults. Each function computes nothing, and its contract is the law.
ghost use Rattle.std.specs.Prelude.{◌≡◌, ℕ, List, Result};
ghost use Rattle.cep_lex.specs.declared.fault.LexFault.{LexFault};
ghost use Rattle.cep_lex.specs.declared.token.Token.{Token};
ghost use Rattle.cep_lex.specs.Cuts.{IsLexed};

/// A text has one list of tokens at most, or one first fault: what `lex` answers is a function of
/// the text, but for running out of memory.
pub fn lexed_once()
    ensures { (text : List ℕ) (one other : Result (List Token) LexFault)
        → IsLexed text one
        → IsLexed text other
        → one ≡ other }
{}

/// Each text has tokens, or a first fault.
pub fn every_text_is_lexed()
    ensures { (text : List ℕ) → (answer : Result (List Token) LexFault) × IsLexed text answer }
{}
