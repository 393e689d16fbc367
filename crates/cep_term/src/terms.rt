ghost use Rattle.std.specs.Prelude.{◌≡◌, ◌<◌, ◌↔◌, [], ◌∷◌, ◌++◌, length, map, slice_get, Some, OnOk, OnErr, IsTrue};
ghost use Rattle.cep_term.specs.Tree.{tree_of};

use crate::term::Term;
use std::alloc::{AllocError, Global};
use std::marker::Model;

/// A list of terms, as the values of the variables of a rule or a clause.
pub struct Terms {
    terms: Vec<Term>,
}

impl Drop for Terms {
    fn drop(self) {
        let Terms { terms } = self;
        drop(terms);
    }
}

impl Model for Terms {
    ghost use Rattle.std.specs.Prelude.{List, map};
    ghost use Rattle.std.specs.Coded.{coded_list};
    ghost use Rattle.cep_term.specs.Tree.{Tree, tree_of};
    ghost use Rattle.cep_term.specs.Codes.{tree_code};

    ghost Value = { List Tree };

    ghost coded = { coded_list tree_code };

    ghost view = { λ list. map tree_of list.terms.items };
}

impl Terms {
    /// The list without terms. It takes no memory.
    pub fn new(alloc: Global) -> Terms
        ensures { result ≡ [] }
    {
        Terms {
            terms: Vec::new(alloc),
        }
    }

    /// How many terms there are. It takes no memory.
    pub fn len(&self) -> usize
        ensures { result ≡ length self.now }
    {
        self.terms.len()
    }

    /// Whether there is no term. It takes no memory.
    pub fn is_empty(&self) -> bool
        ensures { IsTrue result ↔ (self.now ≡ []) }
    {
        self.terms.is_empty()
    }

    /// The term at this place, counted from 0. It takes no memory.
    pub fn get(&self, i: usize) -> &Term
        requires { i < length self.now }
        ensures { slice_get self.now i ≡ Some (tree_of result.now) }
    {
        &self.terms[i]
    }

    /// The terms as they are kept. It takes no memory.
    pub fn as_slice(&self) -> &[Term]
        ensures { map tree_of result.now ≡ self.now }
    {
        self.terms.as_slice()
    }

    /// Adds a term at the end. After out of memory the list is as before, and the term is gone.
    pub fn push(&mut self, term: Term) -> Result<(), AllocError>
        ensures ok { OnOk result (self.new ≡ self.old ++ tree_of term ∷ []) }
        ensures err { OnErr result (self.new ≡ self.old) }
    {
        self.terms.push(term)?;
        Ok(())
    }
}
