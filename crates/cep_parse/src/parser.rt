ghost use Rattle.std.specs.Prelude.{◌≡◌, ◌≤◌, length, IfOk, MatchBool};
ghost use Rattle.std.specs.Option.{option_map};
ghost use Rattle.cep_lex.specs.Cuts.{AreTokens};
ghost use Rattle.cep_parse.specs.Files.{IsParsed, open_behind};
ghost use Rattle.cep_parse.specs.Machine.{is_within, moved, state_behind, step};

use crate::fault::ParseFault;
use crate::raw::RawFile;
use crate::state::{Next, Plain, State};
use crate::steps::step;
use crate::symbol::{Symbol, Word, symbol_of};
use cep_base::limits::{MOST_OPEN, MOST_TEXT};
use cep_lex::Tokens;
use std::alloc::{AllocError, Global};

// The state after a whole item.
fn state_behind(may_dot: bool) -> State
    ensures { result ≡ state_behind may_dot }
{
    if may_dot {
        State::Plain(Plain::Ended)
    } else {
        State::Plain(Plain::Top)
    }
}

// The state after a symbol, with the item that ends there. None where no file goes on so.
fn advance(
    alloc: Global,
    items: &mut RawFile,
    state: State,
    symbol: Symbol,
) -> Result<Option<State>, AllocError>
    ensures { IfOk result (λ next. moved items.old (step state symbol.word symbol.at)
        ≡ option_map (λ s. record { items = items.new; state = s }) next) }
{
    match step(alloc, state, symbol)? {
        Next::Go(next) => Ok(Some(next)),
        Next::Item { item, may_dot } => {
            items.push(item)?;
            Ok(Some(state_behind(may_dot)))
        }
        Next::Stop => Ok(None),
    }
}

// Whether a parenthesis is one too many.
fn is_too_deep(word: Word, depth: u32) -> bool
    requires { depth ≤ MOST_OPEN }
    ensures { MatchBool result ((word ≡ Word.Open)
        × (depth ≡ MOST_OPEN)) (open_behind word depth ≤ MOST_OPEN) }
{
    match word {
        Word::Open => depth == MOST_OPEN,
        _ => false,
    }
}

// How many parentheses are open after a word.
fn open_behind(word: Word, depth: u32) -> u32
    requires { open_behind word depth ≤ MOST_OPEN }
    ensures { result ≡ open_behind word depth }
{
    match word {
        Word::Open => depth + 1,
        Word::Close => depth.saturating_sub(1),
        _ => depth,
    }
}

// Whether the state is within an item.
fn is_within(state: &State) -> bool
    ensures { result ≡ is_within state.now }
{
    !matches!(state, State::Plain(Plain::Top | Plain::Ended))
}

/// The raw file that the tokens of a text are, or the first fault among them: a token with which
/// no file goes on (`Unexpected`), or one open parenthesis too many (`Nested`). The grammar is
/// this profile's.
pub fn parse(
    alloc: Global,
    text: &[u8],
    tokens: &Tokens,
) -> Result<Result<RawFile, ParseFault>, AllocError>
    requires short { length text.now ≤ MOST_TEXT }
    requires tokens { AreTokens text.now tokens.now }
    ensures { IfOk result (λ answer. IsParsed text.now tokens.now answer) }
{
    let mut items = RawFile::new(alloc);
    let mut state = State::Plain(Plain::Top);
    let mut depth = 0;
    for token in tokens.as_slice() {
        let symbol = symbol_of(text, token);
        match advance(alloc, &mut items, state, symbol)? {
            Some(next) => state = next,
            None => return Ok(Err(ParseFault::Unexpected { at: token.from })),
        }
        if is_too_deep(symbol.word, depth) {
            // By a call, so that this proof does not take the state apart.
            drop(state);
            return Ok(Err(ParseFault::Nested { at: token.from }));
        }
        depth = open_behind(symbol.word, depth);
    }
    let within = is_within(&state);
    drop(state);
    if within {
        return Ok(Err(ParseFault::Unexpected {
            at: text.len() as u32,
        }));
    }
    Ok(Ok(items))
}
