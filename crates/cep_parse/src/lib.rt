//! The raw file of a program's tokens: what its items say, before any name is looked up.
#![tactic(auto)]

mod atoms;
mod begins;
mod fault;
mod laws;
mod levels;
mod parser;
mod raw;
mod rules;
mod state;
mod steps;
mod symbol;

pub use fault::ParseFault;
pub use laws::{all_tokens_are_parsed, items_are_made_of_tokens, one_raw_file, parsed_once};
pub use parser::parse;
pub use raw::{
    RawAtom, RawAtoms, RawElem, RawFile, RawItem, RawKind, RawNode, RawNodes, RawRule, RawRules,
    RawSide, RawStart, Span, Spans,
};
