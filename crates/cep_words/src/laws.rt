//! A law of the words of the command. The function computes nothing, and its contract is the law.
ghost use Rattle.std.specs.Prelude.{◌≡◌, ℕ, List};
ghost use Rattle.cep_words.specs.Words.{Request, AskFor};

/// Words ask for one thing at most.
pub fn one_request()
    ensures { (words : List (List ℕ)) (one other : Request) → AskFor words one → AskFor words other
        → one ≡ other }
{}
