ghost use Rattle.std.specs.Prelude.{◌≡◌, ◌<◌, length, replicate, slice_set, IfOk, IfSome, Some, None};
ghost use Rattle.std.specs.Option.{option_map};
ghost use Rattle.cep_term.specs.Tree.{atom_of, tree_of, trees_of, IsGround, IsGroundAtom};
ghost use Rattle.cep_term.specs.Values.{value_of, values_of, AreGroundValues, term_instance, argument_instances, atom_instance, HasValues};

use crate::copying::copy_term;
use crate::term::{Args, Atom, Term};
use std::alloc::{AllocError, Global};
use std::marker::Model;

/// The values of the variables of a rule or a clause: for each variable, by its number from 0, a
/// ground term or none. Ceptre's substitutions, as far as they are known.
pub struct Binding {
    pub(crate) values: Vec<Option<Term>>,
}

impl Drop for Binding {
    fn drop(self) {
        let Binding { values } = self;
        drop(values);
    }
}

impl Model for Binding {
    ghost use Rattle.std.specs.Coded.{coded_list, coded_option};
    ghost use Rattle.cep_term.specs.Codes.{tree_code};
    ghost use Rattle.cep_term.specs.Values.{Values, values_of, AreGroundValues};

    ghost Value = { Values };

    ghost coded = { coded_list (coded_option tree_code) };

    ghost view = { λ binding. values_of binding.values.items };

    ghost invariant = { λ binding. AreGroundValues (values_of binding.values.items) };
}

impl Binding {
    /// So many variables, numbered from 0, and none of them has a value.
    pub fn empty(alloc: Global, vars: u32) -> Result<Binding, AllocError>
        ensures { IfOk result (λ binding. binding ≡ replicate vars None) }
    {
        let mut values = Vec::new(alloc);
        for made in 0..vars {
            values.push(None)?;
        }
        Ok(Binding { values })
    }

    /// The variables with these values, each of which is ground. It takes no memory.
    pub fn of(values: Vec<Option<Term>>) -> Binding
        requires { AreGroundValues (values_of values.items) }
        ensures { result ≡ values_of values.items }
    {
        Binding { values }
    }

    /// The same values again. Only out of memory is refused.
    pub fn copy(&self, alloc: Global) -> Result<Binding, AllocError>
        ensures { IfOk result (λ binding. binding ≡ self.now) }
    {
        Ok(Binding {
            values: copy_values(alloc, &self.values)?,
        })
    }

    /// How many variables there are.
    pub fn len(&self) -> usize
        ensures value { result ≡ length self.now }
        ensures known { AreGroundValues self.now }
    {
        self.values.len()
    }

    /// The values as they are kept. It takes no memory.
    pub fn as_slice(&self) -> &[Option<Term>]
        ensures value { values_of result.now ≡ self.now }
        ensures known { AreGroundValues self.now }
    {
        self.values.as_slice()
    }

    /// The value of the variable, and `None` if and only if it has none. It takes no memory.
    pub fn get(&self, v: u32) -> Option<&Term>
        requires { v < length self.now }
        ensures value { option_map (λ t. tree_of t.now) result ≡ value_of self.now v }
        ensures known { IfSome result (λ t. IsGround (tree_of t.now)) }
    {
        self.values[v as usize].as_ref()
    }

    /// Gives the variable this value, and leaves the others. It takes no memory.
    pub fn set(&mut self, v: u32, t: Term)
        requires in_range { v < length self.old }
        requires known { IsGround (tree_of t) }
        ensures { self.new ≡ slice_set self.old v (Some (tree_of t)) }
    {
        self.values[v as usize] = Some(t);
    }
}

// The same values again.
fn copy_values(alloc: Global, values: &[Option<Term>]) -> Result<Vec<Option<Term>>, AllocError>
    ensures { IfOk result (λ copies. values_of copies.items ≡ values_of values.now) }
{
    let mut copies = Vec::new(alloc);
    for value in values {
        copies.push(copy_value(alloc, value)?)?;
    }
    Ok(copies)
}

// The same value again, if there is one.
fn copy_value(alloc: Global, value: &Option<Term>) -> Result<Option<Term>, AllocError>
    ensures { IfOk result (λ copy. option_map tree_of copy ≡ option_map tree_of value.now) }
{
    match value {
        Some(t) => Ok(Some(copy_term(alloc, t)?)),
        None => Ok(None),
    }
}

/// The pattern with each variable replaced by its value, as Ceptre's rules are instantiated. A
/// variable without a value stays. Only out of memory is refused.
pub fn apply(alloc: Global, pattern: &Atom, values: &Binding) -> Result<Atom, AllocError>
    ensures value { IfOk result (λ a. atom_of a ≡ atom_instance values.now (atom_of pattern.now)) }
    ensures known { HasValues values.now (atom_of pattern.now)
        → IfOk result (λ a. IsGroundAtom (atom_of a)) }
{
    Ok(Atom {
        pred: pattern.pred,
        args: args_under(alloc, &pattern.args, &values.values)?,
    })
}

// The term with each variable that has a value replaced by it.
#[cycle(under)]
fn term_under(alloc: Global, t: &Term, values: &[Option<Term>]) -> Result<Term, AllocError>
    ensures { IfOk result
        (λ other. tree_of other ≡ term_instance (values_of values.now) (tree_of t.now)) }
{
    match t {
        Term::Var(v) => match values.get(*v as usize) {
            Some(Some(value)) => copy_term(alloc, value),
            _ => Ok(Term::Var(*v)),
        },
        Term::App(c, args) => {
            let args = args_under(alloc, args, values)?;
            Ok(Term::App(*c, args))
        }
    }
}

// The arguments with each variable that has a value replaced by it.
#[cycle(under)]
fn args_under(alloc: Global, args: &Args, values: &[Option<Term>]) -> Result<Args, AllocError>
    ensures { IfOk result (λ others. trees_of others
        ≡ argument_instances (values_of values.now) (trees_of args.now)) }
{
    match args {
        Args::Nil => Ok(Args::Nil),
        Args::Cons(cell) => {
            let first = term_under(alloc, &cell.first, values)?;
            let rest = args_under(alloc, &cell.rest, values)?;
            Args::cons(alloc, first, rest)
        }
    }
}
