// Blocks of entries. One after another they are the entries of a bag, and none is long, so what
// moves if an atom comes or goes does not grow with the bag. The first stands in the bag itself, so
// a small bag is one list.
ghost use Rattle.std.specs.Prelude.{◌≡◌, ◌-◌, ◌+◌, ◌^◌, ◌<◌, ◌↔◌, ◌++◌, [], length, slice_get, Some, IfOk, IfSome, OnOk, OnErr, IsErr};
ghost use Rattle.std.specs.List.{AllByRecursion};
ghost use Rattle.cep_term.specs.Tree.{atom_of};
ghost use Rattle.cep_term.specs.Multiset.{IsEntry};
ghost use Rattle.cep_term.specs.Entries.{entry_of, entries_of, IsRising, find_count, one_more_among, one_less_among};
ghost use Rattle.cep_term.specs.Entries.{entries_in, begins_by, HaveEntries, IsBlockFor};

use crate::comparing::order;
use crate::entries::{Entry, Missing, add_copy, copy_entries, count_among, put_copy, take_copy};
use crate::term::Atom;
use std::alloc::{AllocError, Global};

// How many entries a block has at most.
const FULL: usize = 512;

// None of the later blocks is empty.
#[derive(Drop)]
pub struct Blocks {
    first: Vec<Entry>,
    later: Vec<Vec<Entry>>,
}

impl Blocks {
    // No entries.
    pub fn new(alloc: Global) -> Blocks
        ensures none { entries_in result ≡ [] }
        ensures filled { HaveEntries result.later.items }
    {
        Blocks {
            first: Vec::new(alloc),
            later: Vec::new(alloc),
        }
    }

    // How many copies of the atom there are.
    #[tactic(auto, using(crate::proofs::BlockEdits::in_block))]
    pub fn count(&self, a: &Atom) -> u32
        requires filled { HaveEntries self.now.later.items }
        requires rising { IsRising (entries_in self.now) }
        ensures { result ≡ find_count (entries_in self.now) (atom_of a.now) }
    {
        match self.later_for(a) {
            None => count_among(&self.first, a),
            Some(at) => count_among(&self.later[at], a),
        }
    }

    // Adds one copy of the atom.
    #[tactic(auto, using(crate::proofs::BlockEdits::in_block))]
    pub fn add(&mut self, alloc: Global, a: &Atom) -> Result<(), AllocError>
        requires filled { HaveEntries self.old.later.items }
        requires rising { IsRising (entries_in self.old) }
        requires few { find_count (entries_in self.old) (atom_of a.now) < 2 ^ 32 - 1 }
        ensures ok { OnOk result (entries_in self.new
            ≡ one_more_among (entries_in self.old) (atom_of a.now)) }
        ensures err { OnErr result (entries_in self.new ≡ entries_in self.old) }
        ensures filled { HaveEntries self.new.later.items }
    {
        match self.roomy_block(a)? {
            None => add_copy(alloc, &mut self.first, a),
            Some(at) => add_copy(alloc, &mut self.later[at], a),
        }
    }

    // Adds one copy of the atom, which is kept where it is new.
    #[tactic(auto, using(crate::proofs::BlockEdits::in_block))]
    pub fn put(&mut self, alloc: Global, a: Atom) -> Result<(), AllocError>
        requires filled { HaveEntries self.old.later.items }
        requires rising { IsRising (entries_in self.old) }
        requires few { find_count (entries_in self.old) (atom_of a) < 2 ^ 32 - 1 }
        ensures ok { OnOk result (entries_in self.new
            ≡ one_more_among (entries_in self.old) (atom_of a)) }
        ensures err { OnErr result (entries_in self.new ≡ entries_in self.old) }
        ensures filled { HaveEntries self.new.later.items }
    {
        match self.roomy_block(&a)? {
            None => put_copy(alloc, &mut self.first, a),
            Some(at) => put_copy(alloc, &mut self.later[at], a),
        }
    }

    // Takes one copy of the atom, or answers `Missing` if there is none.
    #[tactic(auto, using(crate::proofs::BlockEdits::in_block))]
    pub fn take(&mut self, a: &Atom) -> Result<(), Missing>
        requires filled { HaveEntries self.old.later.items }
        requires rising { IsRising (entries_in self.old) }
        requires each { AllByRecursion IsEntry (entries_in self.old) }
        ensures missing { IsErr result ↔
            (find_count (entries_in self.old) (atom_of a.now) ≡ 0) }
        ensures ok { OnOk result (entries_in self.new
            ≡ one_less_among (entries_in self.old) (atom_of a.now)) }
        ensures err { OnErr result (entries_in self.new ≡ entries_in self.old) }
        ensures filled { HaveEntries self.new.later.items }
    {
        let Some(at) = self.later_for(a) else {
            return take_copy(&mut self.first, a);
        };
        take_copy(&mut self.later[at], a)?;
        if self.later[at].is_empty() {
            self.later.remove(at);
        }
        Ok(())
    }

    // How many entries there are.
    pub fn len(&self) -> usize
        requires { length (entries_in self.now) < 2 ^ 64 }
        ensures { result ≡ length (entries_in self.now) }
    {
        let mut len = self.first.len();
        for block in &self.later {
            len += block.len();
        }
        len
    }

    // The entry at a place among all, counted from 0.
    pub fn entry(&self, i: usize) -> &Entry
        requires { i < length (entries_in self.now) }
        ensures { slice_get (entries_in self.now) i ≡ Some (entry_of result.now) }
    {
        let Some(mut left) = i.checked_sub(self.first.len()) else {
            return &self.first[i];
        };
        for block in &self.later {
            if left < block.len() {
                return &block[left];
            }
            left -= block.len();
        }
        unreachable!()
    }

    // Blocks of the same entries.
    pub fn copy(&self, alloc: Global) -> Result<Blocks, AllocError>
        requires { HaveEntries self.now.later.items }
        ensures same { IfOk result (λ copy. entries_in copy ≡ entries_in self.now) }
        ensures filled { IfOk result (λ copy. HaveEntries copy.later.items) }
    {
        let first = copy_entries(alloc, &self.first)?;
        let mut later = Vec::new(alloc);
        for block in &self.later {
            later.push(copy_entries(alloc, block)?)?;
        }
        Ok(Blocks { first, later })
    }

    // Which later block has the atom's entry, or would have it; `None` is the first block.
    fn later_for(&self, a: &Atom) -> Option<usize>
        requires filled { HaveEntries self.now.later.items }
        requires rising { IsRising (entries_in self.now) }
        ensures { IsBlockFor self.now (atom_of a.now) result }
    {
        self.later
            .partition_point(|block| begins_by(block, a))
            .checked_sub(1)
    }

    // The same, after the block is divided if it is full. So it has room for another entry.
    #[tactic(auto, using(crate::proofs::BlockEdits::in_block))]
    fn roomy_block(&mut self, a: &Atom) -> Result<Option<usize>, AllocError>
        requires filled { HaveEntries self.old.later.items }
        requires rising { IsRising (entries_in self.old) }
        ensures found { IfOk result (IsBlockFor self.new (atom_of a.now)) }
        ensures same { entries_in self.new ≡ entries_in self.old }
        ensures filled { HaveEntries self.new.later.items }
    {
        match self.later_for(a) {
            None => {
                if self.first.len() < FULL {
                    return Ok(None);
                }
                self.divide_first()?;
                Ok(self.later_for(a))
            }
            Some(at) => {
                if self.later[at].len() < FULL {
                    return Ok(Some(at));
                }
                self.divide(at)?;
                Ok(self.later_for(a))
            }
        }
    }

    // Divides the first block in two.
    fn divide_first(&mut self) -> Result<(), AllocError>
        requires long { 1 < length self.old.first.items }
        requires filled { HaveEntries self.old.later.items }
        ensures same { entries_in self.new ≡ entries_in self.old }
        ensures filled { HaveEntries self.new.later.items }
    {
        self.later.reserve(1)?;
        let rest = split(&mut self.first, self.later.is_empty())?;
        self.later.insert(0, rest)?;
        Ok(())
    }

    // Divides a later block in two.
    #[tactic(auto, using(crate::proofs::BlockEdits::in_block))]
    fn divide(&mut self, at: usize) -> Result<(), AllocError>
        requires there { at < length self.old.later.items }
        requires long { IfSome (slice_get self.old.later.items at)
            (λ block. 1 < length block.items) }
        requires filled { HaveEntries self.old.later.items }
        ensures same { entries_in self.new ≡ entries_in self.old }
        ensures filled { HaveEntries self.new.later.items }
    {
        self.later.reserve(1)?;
        let last = at + 1 == self.later.len();
        let rest = split(&mut self.later[at], last)?;
        self.later.insert(at + 1, rest)?;
        Ok(())
    }
}

// Whether the first atom of the block is this one or a lesser one.
fn begins_by(block: &[Entry], a: &Atom) -> bool
    ensures { result ≡ begins_by (entries_of block.now) (atom_of a.now) }
{
    match block.first() {
        Some(entry) => order(&entry.atom, a).is_le(),
        None => false,
    }
}

// Takes the second part of a block out of it, of which neither is empty.
#[tactic(auto, using(crate::proofs::BlockEdits::parts))]
fn split(block: &mut Vec<Entry>, last: bool) -> Result<Vec<Entry>, AllocError>
    requires { 1 < length block.old.items }
    ensures parts { IfOk result (λ rest. entries_of block.old.items
        ≡ entries_of block.new.items ++ entries_of rest.items) }
    ensures first { 0 < length block.new.items }
    ensures rest { IfOk result (λ rest. 0 < length rest.items) }
    ensures err { OnErr result (block.new.items ≡ block.old.items) }
{
    block.split_off(share(block.len(), last))
}

// How many entries of a block that is divided stay in it. Of the last block most do, since atoms
// that come in order go to the end.
fn share(len: usize, last: bool) -> usize
    requires { 1 < len }
    ensures some { 0 < result }
    ensures not_all { result < len }
{
    if last { len - 1 } else { len / 2 }
}
