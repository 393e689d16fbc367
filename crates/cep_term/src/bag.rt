ghost use Rattle.std.specs.Prelude.{◌≡◌, ◌^◌, ◌+◌, ◌-◌, ◌<◌, ◌↔◌, IfOk, OnOk, OnErr, IsErr, IsTrue, Some, length, slice_get};
ghost use Rattle.std.specs.List.{AllByRecursion};
ghost use Rattle.std.specs.FinMap as finite;
ghost use Rattle.cep_term.specs.Tree.{atom_of, IsGroundAtom};
ghost use Rattle.cep_term.specs.Multiset.{count_of, with_count, with_one, without_one, gathered, sum_of, difference_of, copies_in, IsContained, IsBag, AddsFront};

use crate::atoms::AtomList;
use crate::blocks::Blocks;
use crate::entries::Missing;
use crate::term::Atom;
use std::alloc::{AllocError, Global};
use std::marker::Model;

/// A multiset of ground atoms, as Ceptre's states are. The entries stand in the order of their
/// atoms, so an atom is found by halving, and in blocks, so that what moves if one comes or goes
/// does not grow with the bag. That an atom has fewer than 2^32 copies, and all atoms fewer than
/// 2^64, is this profile's.
pub struct Bag {
    alloc: Global,
    blocks: Blocks,
    copies: u64,
}

// One call where a bag is dropped, in place of one for each field.
impl Drop for Bag {
    fn drop(self) {
        let Bag {
            alloc: _,
            blocks,
            copies: _,
        } = self;
        drop(blocks);
    }
}

impl Model for Bag {
    ghost use Rattle.std.specs.Coded.{coded_ℕ};
    ghost use Rattle.std.specs.FinMap as finite;
    ghost use Rattle.cep_term.specs.Codes.{atom_code};
    ghost use Rattle.cep_term.specs.Multiset.{Multiset};
    ghost use Rattle.cep_term.specs.Entries.{bag_of, AreBlocksOf};

    ghost Value = { Multiset };

    ghost coded = { finite.code atom_code coded_ℕ };

    ghost view = { λ bag. bag_of bag.blocks };

    ghost invariant = { λ bag. AreBlocksOf bag.blocks bag.copies };
}

impl Bag {
    /// The bag without atoms.
    pub fn new(alloc: Global) -> Bag
        ensures { result ≡ finite.empty }
    {
        Bag {
            alloc,
            blocks: Blocks::new(alloc),
            copies: 0,
        }
    }

    /// The multiset of a list of ground atoms. Only out of memory is refused.
    #[tactic(auto, using(crate::proofs::Multisets::added))]
    pub fn of(alloc: Global, atoms: AtomList) -> Result<Bag, AllocError>
        requires known { AllByRecursion IsGroundAtom atoms }
        requires few { length atoms < 2 ^ 32 }
        ensures { IfOk result (λ bag. bag ≡ gathered atoms) }
    {
        let mut bag = Bag::new(alloc);
        bag.each_is_kept();
        for atom in atoms.into_atoms() {
            bag.put(atom)?;
        }
        Ok(bag)
    }

    /// How many copies of the atom there are: 0 if it is not there. It takes no memory.
    #[tactic(auto, using(crate::proofs::BlockEdits::seen))]
    pub fn count(&self, a: &Atom) -> u32
        ensures { result ≡ count_of self.now (atom_of a.now) }
    {
        self.blocks.count(a)
    }

    /// Adds one copy of a ground atom. After out of memory the bag is as before.
    #[tactic(auto, using(crate::proofs::BlockEdits::seen))]
    pub fn add(&mut self, a: &Atom) -> Result<(), AllocError>
        requires known { IsGroundAtom (atom_of a.now) }
        requires few { count_of self.old (atom_of a.now) < 2 ^ 32 - 1 }
        requires few_in_all { copies_in self.old < 2 ^ 64 - 1 }
        ensures ok { OnOk result (self.new ≡ with_one self.old (atom_of a.now)) }
        ensures err { OnErr result (self.new ≡ self.old) }
    {
        self.blocks.add(self.alloc, a)?;
        self.copies += 1;
        Ok(())
    }

    // Adds one copy of a ground atom, which is kept where it is new.
    #[tactic(auto, using(crate::proofs::BlockEdits::seen))]
    fn put(&mut self, a: Atom) -> Result<(), AllocError>
        requires known { IsGroundAtom (atom_of a) }
        requires few { count_of self.old (atom_of a) < 2 ^ 32 - 1 }
        requires few_in_all { copies_in self.old < 2 ^ 64 - 1 }
        ensures ok { OnOk result (self.new ≡ with_one self.old (atom_of a)) }
        ensures err { OnErr result (self.new ≡ self.old) }
    {
        self.blocks.put(self.alloc, a)?;
        self.copies += 1;
        Ok(())
    }

    /// Adds a list of ground atoms, one after another. After out of memory a prefix of the list is
    /// added.
    #[tactic(auto, using(crate::proofs::Multisets::added))]
    pub fn add_all(&mut self, atoms: &AtomList) -> Result<(), AllocError>
        requires known { AllByRecursion IsGroundAtom atoms.now }
        requires few { copies_in self.old + length atoms.now < 2 ^ 32 }
        ensures ok { OnOk result (self.new ≡ sum_of self.old (gathered atoms.now)) }
        ensures err { OnErr result (AddsFront self.old self.new atoms.now) }
    {
        self.each_is_kept();
        for i in 0..atoms.len() {
            self.add(atoms.get(i))?;
        }
        Ok(())
    }

    /// Takes one copy of the atom. `Missing` comes if and only if there is none, and then nothing
    /// changes. It takes no memory.
    #[tactic(auto, using(crate::proofs::BlockEdits::seen))]
    pub fn take(&mut self, a: &Atom) -> Result<(), Missing>
        ensures missing { IsErr result ↔ (count_of self.old (atom_of a.now) ≡ 0) }
        ensures ok { OnOk result (self.new ≡ without_one self.old (atom_of a.now)) }
        ensures err { OnErr result (self.new ≡ self.old) }
    {
        match self.blocks.take(a) {
            Ok(()) => {
                self.copies -= 1;
                Ok(())
            }
            Err(missing) => Err(missing),
        }
    }

    /// Takes the copies that the other bag has, as far as they are there. It takes no memory.
    #[tactic(auto, using(crate::proofs::Multisets::taken))]
    pub fn take_all(&mut self, other: &Bag)
        ensures { self.new ≡ difference_of self.old other.now }
    {
        self.each_is_kept();
        for i in 0..other.len() {
            let (atom, copies) = other.entry(i);
            self.take_copies(atom, copies);
        }
    }

    // Takes so many copies of the atom, or all if there are fewer.
    #[tactic(auto, using(crate::proofs::Multisets::taken))]
    fn take_copies(&mut self, atom: &Atom, copies: u32)
        requires known { IsGroundAtom (atom_of atom.now) }
        requires kept { IsBag self.old }
        ensures { self.new ≡ with_count self.old
            (atom_of atom.now) (count_of self.old (atom_of atom.now) - copies) }
    {
        for _taken in 0..copies {
            let _ = self.take(atom);
        }
    }

    // Each atom of a bag is ground and has a copy. It computes nothing.
    #[tactic(auto, using(crate::proofs::BlockEdits::seen))]
    fn each_is_kept(&self)
        ensures { IsBag self.now }
    {
        let _ = &self.alloc;
    }

    /// Whether no count of the other bag is greater than that of this one. It takes no memory.
    pub fn contains(&self, other: &Bag) -> bool
        ensures { IsTrue result ↔ IsContained other.now self.now }
    {
        for i in 0..other.len() {
            let (atom, copies) = other.entry(i);
            if self.count(atom) < copies {
                return false;
            }
        }
        true
    }

    /// The number of copies of all atoms. It takes no memory.
    #[tactic(auto, using(crate::proofs::BlockEdits::seen))]
    pub fn copies(&self) -> u64
        ensures value { result ≡ copies_in self.now }
        ensures kept { IsBag self.now }
    {
        self.copies
    }

    /// A bag with the same counts. Only out of memory is refused.
    pub fn copy(&self, alloc: Global) -> Result<Bag, AllocError>
        ensures { IfOk result (λ bag. bag ≡ self.now) }
    {
        Ok(Bag {
            alloc,
            blocks: self.blocks.copy(alloc)?,
            copies: self.copies,
        })
    }

    /// The number of distinct atoms.
    #[tactic(auto, using(crate::proofs::BlockEdits::seen))]
    pub fn len(&self) -> usize
        ensures value { result ≡ finite.len self.now }
        ensures kept { IsBag self.now }
    {
        // there are no more entries than copies, so their number fits
        let _ = self.copies();
        self.blocks.len()
    }

    /// Whether there is no atom.
    #[tactic(auto, using(crate::proofs::BlockEdits::seen))]
    pub fn is_empty(&self) -> bool
        ensures { IsTrue result ↔ (self.now ≡ finite.empty) }
    {
        self.copies == 0
    }

    /// The i-th atom in the order of atoms, counted from 0, with the number of its copies.
    #[tactic(auto, using(crate::proofs::BlockEdits::seen))]
    pub fn entry(&self, i: usize) -> (&Atom, u32)
        requires { i < finite.len self.now }
        ensures { slice_get (finite.entries self.now) i ≡ Some (atom_of result.0.now, result.1) }
    {
        let entry = self.blocks.entry(i);
        (&entry.atom, entry.count)
    }
}
