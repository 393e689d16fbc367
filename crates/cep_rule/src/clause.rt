ghost use Rattle.std.specs.Prelude.{◌≡◌, ◌<◌, ◌≤◌, ℕ, [], ◌∷◌, ◌++◌, length, slice_get, Some, IfSome, IsSomeAnd, OnOk, OnErr};
ghost use Rattle.cep_term.specs.Tree.{trees_of};
ghost use Rattle.cep_rule.specs.Patterns.{clause_of};
ghost use Rattle.cep_rule.specs.Heads.{first_constructor, BeginsOtherwise};

use crate::signature::{Kinds, Names};
use cep_term::{Args, Atom, AtomList, Term};
use std::alloc::{AllocError, Global};
use std::collections::BTreeSet;
use std::marker::Model;

/// A clause of a backward predicate: as in Ceptre, its head holds where its goals do. Its variables
/// have names and types, and are numbered from 0 by first occurrence in the head and then the goals,
/// which is this profile's.
pub struct Clause {
    pub vars: Names,
    pub kinds: Kinds,
    pub head: Atom,
    pub goals: AtomList,
}

impl Drop for Clause {
    fn drop(self) {
        let Clause {
            vars,
            kinds,
            head,
            goals,
        } = self;
        drop(vars);
        drop(kinds);
        drop(head);
        drop(goals);
    }
}

/// A list of clauses, in which those are found whose heads begin in one way.
pub struct Clauses {
    clauses: Vec<Clause>,
    // the predicate of each head, the constructor of its first argument, and the clause's number
    heads: BTreeSet<(u32, Option<u32>, usize)>,
}

// Written out: what holds clauses drops them by one call.
impl Drop for Clauses {
    fn drop(self) {
        let Clauses { clauses, heads } = self;
        drop(clauses);
        drop(heads);
    }
}

impl Model for Clauses {
    ghost use Rattle.std.specs.Prelude.{List, map};
    ghost use Rattle.std.specs.Coded.{coded_list};
    ghost use Rattle.cep_rule.specs.Patterns.{ClauseTree, clause_code, clause_of};

    ghost Value = { List ClauseTree };

    ghost coded = { coded_list clause_code };

    ghost view = { λ list. map clause_of list.clauses.items };

    ghost use Rattle.cep_rule.specs.HeadSet.{HaveHeads};

    ghost invariant = { λ list. HaveHeads (map clause_of list.clauses.items) list.heads };
}

// The constructor of the first argument, if there is one that has a constructor.
fn first_of(args: &Args) -> Option<u32>
    ensures { result ≡ first_constructor (trees_of args.now) }
{
    match args {
        Args::Nil => None,
        Args::Cons(cell) => match &cell.first {
            Term::Var(_) => None,
            Term::App(c, _) => Some(*c),
        },
    }
}

impl Clauses {
    /// The list without clauses. It takes no memory.
    pub fn new(alloc: Global) -> Clauses
        ensures { result ≡ [] }
    {
        Clauses {
            clauses: Vec::new(alloc),
            heads: BTreeSet::new(alloc),
        }
    }

    /// How many clauses there are. It takes no memory.
    pub fn len(&self) -> usize
        ensures { result ≡ length self.now }
    {
        self.clauses.len()
    }

    /// The clause at this place, counted from 0. It takes no memory.
    pub fn get(&self, i: usize) -> &Clause
        requires { i < length self.now }
        ensures { slice_get self.now i ≡ Some (clause_of result.now) }
    {
        &self.clauses[i]
    }

    /// Adds a clause at the end. After out of memory the list is as before, and the clause is
    /// gone.
    pub fn push(&mut self, clause: Clause) -> Result<(), AllocError>
        ensures ok { OnOk result (self.new ≡ self.old ++ clause_of clause ∷ []) }
        ensures err { OnErr result (self.new ≡ self.old) }
    {
        let first = first_of(&clause.head.args);
        self.heads
            .insert((clause.head.pred, first, self.clauses.len()))?;
        self.clauses.push(clause)?;
        Ok(())
    }

    // The number of the first clause from this one on with this predicate and this constructor at
    // the head's first argument, if there is one.
    fn next_like(&self, pred: u32, first: Option<u32>, from: usize) -> Option<usize>
        ensures after { IfSome result (λ n. from ≤ n) }
        ensures skips { (n : ℕ) → from ≤ n → IfSome (slice_get self.now n) (λ clause.
            clause.head.pred ≡ pred
            → first_constructor clause.head.args ≡ first
            → IsSomeAnd result (λ next. next ≤ n)) }
    {
        let head = self.heads.range((pred, first, from)..).next()?;
        if head.0 == pred && head.1 == first {
            Some(head.2)
        } else {
            None
        }
    }

    /// A clause from this one on, before which all from this one on begin otherwise: they have
    /// another predicate, or another constructor at the head's first argument. If all do, it is a
    /// number that no clause has. It takes no memory.
    pub fn next_beginning(&self, pred: u32, con: u32, from: usize) -> usize
        ensures after { from ≤ result }
        ensures skips { (n : ℕ) → from ≤ n → n < result
            → IfSome (slice_get self.now n) (BeginsOtherwise pred con) }
    {
        let end = self.clauses.len();
        if from >= end {
            return from;
        }
        let open = self.next_like(pred, None, from).unwrap_or(end);
        let same = self.next_like(pred, Some(con), from).unwrap_or(end);
        open.min(same)
    }
}
