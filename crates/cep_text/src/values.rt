ghost use Rattle.std.specs.Prelude.{◌≡◌, ◌≤◌, ◌<◌, ◌-◌, length, drop, IfOk, SomeIff};
ghost use Rattle.cep_term.specs.Tree.{tree_of, trees_of, term_nodes, argument_nodes};
ghost use Rattle.cep_text.specs.Reading.{Gives, con_at, bare_at, argument_at, arguments_at, inside_at, enclosed_at, value_at, small_at};

use crate::stop::Stop;
use crate::vocabulary::Vocabulary;
use crate::words::{literal, name_len, strip};
use cep_base::limits::{MOST_DEPTH, MOST_NODES};
use cep_rule::Kinds;
use cep_term::{Args, Term};
use std::alloc::Global;

// A constructor of the type at the front: its number, and the types of its arguments.
#[tactic(auto, unfolding(crate::specs::Reading::con_at))]
fn con<'p, 'a>(
    vocabulary: &Vocabulary<'p>,
    sort: u32,
    bytes: &'a [u8],
) -> Result<(u32, &'p Kinds, &'a [u8]), Stop>
    ensures read { Gives (λ x. ((x.0, x.1.now), x.2.now)) result
        (con_at vocabulary.now.signature.cons sort bytes.now) }
    ensures shorter { IfOk result (λ x. length x.2.now ≤ length bytes.now) }
{
    let cons = &vocabulary.parts().signature.cons;
    let (name, rest) = bytes.split_at(name_len(bytes));
    let Some(number) = vocabulary.constructor(name) else {
        return Err(Stop::Unread);
    };
    let con = cons.get(number);
    if con.sort != sort {
        return Err(Stop::Unread);
    }
    Ok((number as u32, &con.args, rest))
}

// A constructor without arguments at the front.
#[tactic(auto, unfolding(crate::specs::Reading::bare_at))]
fn bare<'a>(vocabulary: &Vocabulary, sort: u32, bytes: &'a [u8]) -> Result<(Term, &'a [u8]), Stop>
    ensures read { Gives (λ x. (tree_of x.0, x.1.now)) result
        (bare_at vocabulary.now.signature.cons sort bytes.now) }
    ensures shorter { IfOk result (λ x. length x.1.now ≤ length bytes.now) }
{
    let (number, kinds, rest) = con(vocabulary, sort, bytes)?;
    if kinds.len() != 0 {
        return Err(Stop::Unread);
    }
    Ok((Term::App(number, Args::Nil), rest))
}

// A term of the type, of at most so many levels, at the front.
#[cycle(value)]
pub(crate) fn value<'a>(
    alloc: Global,
    vocabulary: &Vocabulary,
    depth: u32,
    sort: u32,
    bytes: &'a [u8],
) -> Result<(Term, &'a [u8]), Stop>
    ensures read { Gives (λ x. (tree_of x.0, x.1.now)) result
        (value_at vocabulary.now.signature.cons depth sort bytes.now) }
    ensures shorter { IfOk result (λ x. length x.1.now ≤ length bytes.now) }
{
    if depth == 0 {
        return Err(Stop::Unread);
    }
    match strip(b"(", bytes) {
        Some(inside) => enclosed(alloc, vocabulary, depth - 1, sort, inside),
        None => bare(vocabulary, sort, bytes),
    }
}

// A constructor with arguments, after its parenthesis.
#[cycle(value)]
#[tactic(auto, unfolding(crate::specs::Reading::enclosed_at))]
fn enclosed<'a>(
    alloc: Global,
    vocabulary: &Vocabulary,
    depth: u32,
    sort: u32,
    bytes: &'a [u8],
) -> Result<(Term, &'a [u8]), Stop>
    ensures read { Gives (λ x. (tree_of x.0, x.1.now)) result
        (enclosed_at (value_at vocabulary.now.signature.cons depth) vocabulary.now.signature.cons
        sort bytes.now) }
    ensures shorter { IfOk result (λ x. length x.1.now ≤ length bytes.now) }
{
    let (number, kinds, rest) = con(vocabulary, sort, bytes)?;
    let (args, rest) = inside(alloc, vocabulary, depth, kinds, rest)?;
    Ok((Term::App(number, args), rest))
}

// Some arguments, and the parenthesis that ends them.
#[cycle(value)]
#[tactic(auto, unfolding(crate::specs::Reading::inside_at))]
fn inside<'a>(
    alloc: Global,
    vocabulary: &Vocabulary,
    depth: u32,
    kinds: &Kinds,
    bytes: &'a [u8],
) -> Result<(Args, &'a [u8]), Stop>
    ensures read { Gives (λ x. (trees_of x.0, x.1.now)) result
        (inside_at (value_at vocabulary.now.signature.cons depth) kinds.now bytes.now) }
    ensures shorter { IfOk result (λ x. length x.1.now ≤ length bytes.now) }
{
    if kinds.len() == 0 {
        return Err(Stop::Unread);
    }
    let (args, rest) = arguments(alloc, vocabulary, depth, kinds, 0, bytes)?;
    Ok((args, literal(b")", rest)?))
}

// The arguments from one place on.
#[cycle(value)]
pub(crate) fn arguments<'a>(
    alloc: Global,
    vocabulary: &Vocabulary,
    depth: u32,
    kinds: &Kinds,
    from: usize,
    bytes: &'a [u8],
) -> Result<(Args, &'a [u8]), Stop>
    requires { from ≤ length kinds.now }
    ensures read { Gives (λ x. (trees_of x.0, x.1.now)) result
        (arguments_at (value_at vocabulary.now.signature.cons depth)
        (drop from kinds.now) bytes.now) }
    ensures shorter { IfOk result (λ x. length x.1.now ≤ length bytes.now) }
{
    if from == kinds.len() {
        return Ok((Args::Nil, bytes));
    }
    let (first, rest) = argument(alloc, vocabulary, depth, *kinds.get(from), bytes)?;
    let (others, rest) = arguments(alloc, vocabulary, depth, kinds, from + 1, rest)?;
    Ok((Args::cons(alloc, first, others)?, rest))
}

// An argument after its space.
#[cycle(value)]
#[tactic(auto, unfolding(crate::specs::Reading::argument_at))]
fn argument<'a>(
    alloc: Global,
    vocabulary: &Vocabulary,
    depth: u32,
    sort: u32,
    bytes: &'a [u8],
) -> Result<(Term, &'a [u8]), Stop>
    ensures read { Gives (λ x. (tree_of x.0, x.1.now)) result
        (argument_at (value_at vocabulary.now.signature.cons depth sort) bytes.now) }
    ensures shorter { IfOk result (λ x. length x.1.now < length bytes.now) }
{
    let rest = literal(b" ", bytes)?;
    value(alloc, vocabulary, depth, sort, rest)
}

// A term of the type at the front, within the sizes of one.
#[tactic(auto, unfolding(crate::specs::Reading::small_at))]
pub(crate) fn small_value<'a>(
    alloc: Global,
    vocabulary: &Vocabulary,
    sort: u32,
    bytes: &'a [u8],
) -> Result<(Term, &'a [u8]), Stop>
    ensures read { Gives (λ x. (tree_of x.0, x.1.now)) result
        (small_at vocabulary.now.signature.cons sort bytes.now) }
    ensures shorter { IfOk result (λ x. length x.1.now ≤ length bytes.now) }
{
    let (t, rest) = value(alloc, vocabulary, MOST_DEPTH as u32, sort, bytes)?;
    match left_after(&t, MOST_NODES) {
        Some(_) => Ok((t, rest)),
        None => Err(Stop::Unread),
    }
}

// How many nodes are left after those of the term, if it has not more.
#[cycle(left)]
pub(crate) fn left_after(t: &Term, left: u64) -> Option<u64>
    ensures { SomeIff result (term_nodes (tree_of t.now) ≤ left)
        (left - term_nodes (tree_of t.now)) }
{
    match t {
        Term::Var(_) => left.checked_sub(1),
        Term::App(_, args) => left_after_all(args, left.checked_sub(1)?),
    }
}

// How many nodes are left after those of the arguments.
#[cycle(left)]
pub(crate) fn left_after_all(args: &Args, left: u64) -> Option<u64>
    ensures { SomeIff result (argument_nodes (trees_of args.now) ≤ left)
        (left - argument_nodes (trees_of args.now)) }
{
    match args {
        Args::Nil => Some(left),
        Args::Cons(cell) => left_after_all(&cell.rest, left_after(&cell.first, left)?),
    }
}
