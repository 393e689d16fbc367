ghost use Rattle.std.specs.Prelude.{◌≡◌, ◌<◌, [], ◌∷◌, ◌++◌, length, slice_get, Some, OnOk, OnErr};
ghost use Rattle.cep_rule.specs.Patterns.{premise_of};

use crate::signature::{Kinds, Names};
use cep_base::{List, Name};
use cep_term::{Atom, AtomList};
use std::alloc::{AllocError, Global};
use std::marker::Model;

/// A premise of a rule that the state has to meet: an atom that is needed, and whether the rule keeps
/// it, as Ceptre's `$` says.
#[derive(Drop)]
pub struct Premise {
    pub atom: Atom,
    pub kept: bool,
}

/// A rule of Ceptre: it replaces its premises, but for those that it keeps, by the atoms on its
/// right, where its backward premises can be derived. A rule that leaves a stage at quiescence
/// names the next one. Its variables have names and types, and are numbered from 0 by first
/// occurrence on the left; that, and the numbers of groups, are this profile's.
pub struct Rule {
    pub name: Name,
    pub group: u32,
    pub vars: Names,
    pub kinds: Kinds,
    pub premises: Premises,
    pub backs: AtomList,
    pub right: AtomList,
    pub next: Option<u32>,
}

impl Drop for Rule {
    fn drop(self) {
        let Rule {
            name,
            group: _,
            vars,
            kinds,
            premises,
            backs,
            right,
            next: _,
        } = self;
        drop(name);
        drop(vars);
        drop(kinds);
        drop(premises);
        drop(backs);
        drop(right);
    }
}

/// A list of rules.
pub type Rules = List<Rule>;

/// A list of premises.
pub struct Premises {
    premises: Vec<Premise>,
}

impl Drop for Premises {
    fn drop(self) {
        let Premises { premises } = self;
        drop(premises);
    }
}

impl Model for Premises {
    ghost use Rattle.std.specs.Prelude.{List, map};
    ghost use Rattle.std.specs.Coded.{coded_list};
    ghost use Rattle.cep_rule.specs.Patterns.{PremiseTree, premise_code, premise_of};

    ghost Value = { List PremiseTree };

    ghost coded = { coded_list premise_code };

    ghost view = { λ list. map premise_of list.premises.items };
}

impl Premises {
    /// The list without premises. It takes no memory.
    pub fn new(alloc: Global) -> Premises
        ensures { result ≡ [] }
    {
        Premises {
            premises: Vec::new(alloc),
        }
    }

    /// How many premises there are. It takes no memory.
    pub fn len(&self) -> usize
        ensures { result ≡ length self.now }
    {
        self.premises.len()
    }

    /// The premise at this place, counted from 0. It takes no memory.
    pub fn get(&self, i: usize) -> &Premise
        requires { i < length self.now }
        ensures { slice_get self.now i ≡ Some (premise_of result.now) }
    {
        &self.premises[i]
    }

    /// Adds a premise at the end. After out of memory the list is as before, and the premise is
    /// gone.
    pub fn push(&mut self, premise: Premise) -> Result<(), AllocError>
        ensures ok { OnOk result (self.new ≡ self.old ++ premise_of premise ∷ []) }
        ensures err { OnErr result (self.new ≡ self.old) }
    {
        self.premises.push(premise)?;
        Ok(())
    }
}
