ghost use Rattle.std.specs.Prelude.{◌≡◌, ◌+◌, ◌<◌, ◌≤◌, ◌&&◌, length};
ghost use Rattle.cep_term.specs.Tree.{tree_of, trees_of, atom_of, IsInRange, AreInRange};
ghost use Rattle.cep_rule.specs.Groundness as groundness;
ghost use Rattle.cep_modes.specs.Places.{holds, either, positions_of, set_number, room, IsPlain, pair_place};

use cep_base::limits::MOST_VARIABLES;
use cep_term::{Args, Atom, Term};

// No variable is known.
pub(crate) fn unknown() -> [bool; MOST_VARIABLES]
    ensures { holds result ≡ groundness.nothing }
{
    [false; MOST_VARIABLES]
}

// Whether all variables of the term are known.
#[cycle(known)]
fn is_known(known: &[bool], t: &Term) -> bool
    requires { IsInRange (length known.now) (tree_of t.now) }
    ensures { result ≡ groundness.is_known (holds known.now) (tree_of t.now) }
{
    match t {
        Term::Var(v) => known[*v as usize],
        Term::App(_, args) => are_known(known, args),
    }
}

// Whether all variables of the arguments are known.
#[cycle(known)]
pub(crate) fn are_known(known: &[bool], args: &Args) -> bool
    requires { AreInRange (length known.now) (trees_of args.now) }
    ensures { result ≡ groundness.are_known (holds known.now) (trees_of args.now) }
{
    match args {
        Args::Nil => true,
        Args::Cons(cell) => is_known(known, &cell.first) && are_known(known, &cell.rest),
    }
}

// Makes all variables of the term known.
#[cycle(learning)]
fn learn(known: &mut [bool], t: &Term)
    requires { IsInRange (length known.old) (tree_of t.now) }
    ensures { holds known.new ≡ either (holds known.old) (groundness.occurs (tree_of t.now)) }
{
    match t {
        Term::Var(v) => known[*v as usize] = true,
        Term::App(_, args) => learn_all(known, args),
    }
}

// Makes all variables of the arguments known.
#[cycle(learning)]
pub(crate) fn learn_all(known: &mut [bool], args: &Args)
    requires { AreInRange (length known.old) (trees_of args.now) }
    ensures { holds known.new ≡ either (holds known.old)
        (groundness.occurs_among (trees_of args.now)) }
{
    match args {
        Args::Nil => {}
        Args::Cons(cell) => {
            learn(known, &cell.first);
            learn_all(known, &cell.rest);
        }
    }
}

// Makes all variables of the term known, where this says so.
fn learn_where(known: &mut [bool], is_so: bool, t: &Term)
    requires { IsInRange (length known.old) (tree_of t.now) }
    ensures { holds known.new ≡ either (holds known.old)
        (λ v. is_so && groundness.occurs (tree_of t.now) v) }
{
    if is_so {
        learn(known, t);
    }
}

// Makes the variables of the arguments at the positions that the number tells known.
pub(crate) fn learn_at(known: &mut [bool], positions: usize, args: &Args)
    requires { AreInRange (length known.old) (trees_of args.now) }
    ensures { holds known.new ≡ either (holds known.old)
        (groundness.known_at (positions_of positions) (trees_of args.now)) }
{
    match args {
        Args::Nil => {}
        Args::Cons(cell) => {
            learn_where(known, positions % 2 == 1, &cell.first);
            learn_at(known, positions / 2, &cell.rest);
        }
    }
}

// The number of the positions of the arguments that are known.
fn positions(known: &[bool], args: &Args) -> usize
    requires vars { AreInRange (length known.now) (trees_of args.now) }
    requires few { room (trees_of args.now) ≤ 256 }
    ensures number { result ≡ set_number (holds known.now) (trees_of args.now) }
    ensures small { result < room (trees_of args.now) }
{
    match args {
        Args::Nil => 0,
        Args::Cons(cell) => {
            let others = 2 * positions(known, &cell.rest);
            if is_known(known, &cell.first) {
                others + 1
            } else {
                others
            }
        }
    }
}

// The number of the pair that the goal calls.
pub(crate) fn place(known: &[bool], goal: &Atom) -> usize
    requires { IsPlain (length known.now) (atom_of goal.now) }
    ensures { result ≡ pair_place (holds known.now) (atom_of goal.now) }
{
    goal.pred as usize * 256 + positions(known, &goal.args) + 1
}
