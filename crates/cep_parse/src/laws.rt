// What holds of the grammar, as the definitions say what it is.
ghost use Rattle.std.specs.Prelude.{◌≡◌, ℕ, ◌≤◌, List, Result, length};
ghost use Rattle.std.specs.List.{AllByRecursion};
ghost use Rattle.cep_lex.specs.declared.token.Token.{Token};
ghost use Rattle.cep_parse.specs.declared.fault.ParseFault.{ParseFault};
ghost use Rattle.cep_parse.specs.declared.raw.RawItem.{RawItem};
ghost use Rattle.cep_parse.specs.declared.symbol.Symbol.{Symbol};
ghost use Rattle.cep_parse.specs.Symbols.{symbols_of};
ghost use Rattle.cep_parse.specs.Grammar.{File};
ghost use Rattle.cep_parse.specs.Files.{IsParsed};
ghost use Rattle.cep_parse.specs.Written.{IsItemOf};

/// Symbols are one raw file at most, so what `parse` accepts is a function of the text.
pub fn one_raw_file()
    ensures { (symbols : List Symbol) (one other : List RawItem)
        → File symbols one
        → File symbols other
        → one ≡ other }
{}

/// The items of a raw file are made of its tokens: names stand at names, variables at variables,
/// blanks at `_`, `qui` at `qui`, and the number of a trace at a number; rules and traces are where
/// one of the tokens begins; and the nodes of each atom are its arguments. There are no more items
/// than tokens.
pub fn items_are_made_of_tokens()
    ensures made { (text : List ℕ) (tokens : List Token) (file : List RawItem)
        → File (symbols_of text tokens) file
        → AllByRecursion (IsItemOf tokens) file }
    ensures few { (text : List ℕ) (tokens : List Token) (file : List RawItem)
        → File (symbols_of text tokens) file
        → length file ≤ length tokens }
{}

/// The tokens of a text have one raw file or one first fault, so what `parse` answers is a function
/// of the text, but for running out of memory.
pub fn parsed_once()
    ensures { (text : List ℕ) (tokens : List Token) (one other : Result (List RawItem) ParseFault)
        → IsParsed text tokens one
        → IsParsed text tokens other
        → one ≡ other }
{
    one_raw_file();
}

/// The tokens of each text have a raw file, or a first fault.
pub fn all_tokens_are_parsed()
    ensures { (text : List ℕ) (tokens : List Token)
        → (answer : Result (List RawItem) ParseFault) × IsParsed text tokens answer }
{}
