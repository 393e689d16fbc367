// An atom, symbol by symbol.
ghost use Rattle.std.specs.Prelude.{◌≡◌, ◌+◌, ◌++◌, ◌∷◌, IfOk, OnOk};
ghost use Rattle.cep_parse.specs.Grammar.{node};
ghost use Rattle.cep_parse.specs.Machine.Grown.{Going};
ghost use Rattle.cep_parse.specs.Machine.{atom_begun, atom_of_names, child_in, grow, grow_args, grow_empty, grow_flat, grow_term, grow_whole, grown_to, headed, in_level, leaf, set_args, whole_atom};

use crate::levels::{Level, Levels};
use crate::raw::{RawAtom, RawKind, RawNode, RawNodes, Span};
use crate::state::{AtomSoFar, Growth};
use crate::symbol::{Symbol, Word};
use std::alloc::{AllocError, Global};

/// A name, after which no argument was read.
pub(crate) fn atom_begun(alloc: Global, name: Span) -> AtomSoFar
    ensures { result ≡ atom_begun name }
{
    AtomSoFar {
        name,
        args: 0,
        nodes: RawNodes::new(alloc),
        levels: Levels::new(alloc),
    }
}

// A count with one more. One that does not fit is out of memory: no text is so long.
fn one_more(args: u32) -> Result<u32, AllocError>
    ensures { IfOk result (λ more. more ≡ args + 1) }
{
    match args.checked_add(1) {
        Some(more) => Ok(more),
        None => Err(AllocError),
    }
}

// The node gets so many arguments.
fn set_args(nodes: &mut RawNodes, index: usize, args: u32)
    ensures { nodes.new ≡ set_args nodes.old index args }
{
    if index < nodes.len() {
        let node = *nodes.get(index);
        nodes.set(index, RawNode { args, ..node });
    }
}

// A term ended in what is open.
fn end_term(atom: &mut AtomSoFar) -> Result<Growth, AllocError>
    ensures { IfOk result (λ growth. grown_to growth atom.new
        ≡ Going (child_in atom.old.levels atom.old)) }
{
    match atom.levels.pop() {
        None => {
            atom.args = one_more(atom.args)?;
            Ok(Growth::Going)
        }
        Some(Level::Node { index, args }) => {
            let args = one_more(args)?;
            open(atom, Level::Node { index, args })
        }
        Some(_) => open(atom, Level::Whole),
    }
}

// The atom gets a term of one node.
fn add_leaf(atom: &mut AtomSoFar, kind: RawKind, at: Span) -> Result<Growth, AllocError>
    ensures { IfOk result (λ growth. grown_to growth atom.new ≡ Going (leaf atom.old kind at)) }
{
    atom.nodes.push(RawNode { at, kind, args: 0 })?;
    end_term(atom)
}

// The atom gets one more open parenthesis.
fn open(atom: &mut AtomSoFar, level: Level) -> Result<Growth, AllocError>
    ensures { IfOk result (λ growth. grown_to growth atom.new ≡ Going (in_level level atom.old)) }
{
    atom.levels.push(level)?;
    Ok(Growth::Going)
}

// What a symbol does where a term may begin.
fn grow_term(atom: &mut AtomSoFar, symbol: Symbol) -> Result<Growth, AllocError>
    ensures { IfOk result (λ growth. grown_to growth atom.new
        ≡ grow_term atom.old symbol.word symbol.at) }
{
    match symbol.word {
        Word::Name => add_leaf(atom, RawKind::App, symbol.at),
        Word::Variable => add_leaf(atom, RawKind::Var, symbol.at),
        Word::Blank => add_leaf(atom, RawKind::Blank, symbol.at),
        Word::Open => open(atom, Level::Empty),
        _ => Ok(Growth::Broken),
    }
}

// What a symbol does where no parenthesis is open.
fn grow_flat(atom: &mut AtomSoFar, symbol: Symbol) -> Result<Growth, AllocError>
    ensures { IfOk result (λ growth. grown_to growth atom.new
        ≡ grow_flat atom.old symbol.word symbol.at) }
{
    match symbol.word {
        Word::Name | Word::Variable | Word::Blank | Word::Open => grow_term(atom, symbol),
        _ => Ok(Growth::Ended),
    }
}

// What a symbol does where arguments of a constructor are read.
fn grow_args(
    atom: &mut AtomSoFar,
    index: usize,
    args: u32,
    symbol: Symbol,
) -> Result<Growth, AllocError>
    ensures { IfOk result (λ growth. grown_to growth atom.new
        ≡ grow_args (in_level (Level.Node index args) atom.old) atom.old.levels index args
        symbol.word symbol.at) }
{
    match symbol.word {
        Word::Close => {
            set_args(&mut atom.nodes, index, args);
            end_term(atom)
        }
        _ => {
            open(atom, Level::Node { index, args })?;
            grow_term(atom, symbol)
        }
    }
}

// The atom gets a constructor after an open parenthesis.
fn add_head(atom: &mut AtomSoFar, at: Span) -> Result<Growth, AllocError>
    ensures { IfOk result (λ growth. grown_to growth atom.new
        ≡ Going (headed atom.old atom.old.levels at)) }
{
    let index = atom.nodes.len();
    atom.nodes.push(RawNode {
        at,
        kind: RawKind::App,
        args: 0,
    })?;
    open(atom, Level::Node { index, args: 0 })
}

// What a symbol does where a term is to come.
fn grow_empty(atom: &mut AtomSoFar, symbol: Symbol) -> Result<Growth, AllocError>
    ensures { IfOk result (λ growth. grown_to growth atom.new
        ≡ grow_empty (in_level Level.Empty atom.old) atom.old.levels symbol.word symbol.at) }
{
    match symbol.word {
        Word::Name => add_head(atom, symbol.at),
        _ => {
            open(atom, Level::Empty)?;
            grow_term(atom, symbol)
        }
    }
}

// What a symbol does where a whole term was read.
fn grow_whole(atom: &mut AtomSoFar, symbol: Symbol) -> Result<Growth, AllocError>
    ensures { IfOk result (λ growth. grown_to growth atom.new
        ≡ grow_whole atom.old atom.old.levels symbol.word symbol.at) }
{
    match symbol.word {
        Word::Close => end_term(atom),
        _ => Ok(Growth::Broken),
    }
}

/// What a symbol does to an atom.
pub(crate) fn grow(atom: &mut AtomSoFar, symbol: Symbol) -> Result<Growth, AllocError>
    ensures { IfOk result (λ growth. grown_to growth atom.new
        ≡ grow atom.old symbol.word symbol.at) }
{
    match atom.levels.pop() {
        None => grow_flat(atom, symbol),
        Some(Level::Node { index, args }) => grow_args(atom, index, args, symbol),
        Some(Level::Empty) => grow_empty(atom, symbol),
        Some(Level::Whole) => grow_whole(atom, symbol),
    }
}

/// The atom that was read, where no parenthesis is open.
pub(crate) fn whole_atom(atom: AtomSoFar) -> RawAtom
    ensures { result ≡ whole_atom atom }
{
    RawAtom {
        name: atom.name,
        args: atom.args,
        nodes: atom.nodes,
    }
}

/// The atom, of which a name alone was read, gets names as its arguments.
pub(crate) fn add_names(atom: &mut AtomSoFar, names: &[Span]) -> Result<(), AllocError>
    requires { atom.old ≡ atom_begun atom.old.name }
    ensures { OnOk result (atom.new ≡ atom_of_names atom.old.name names.now) }
{
    for name in names {
        add_leaf(atom, RawKind::App, *name)?;
    }
    Ok(())
}
