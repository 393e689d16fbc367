// One list of entries with increasing atoms.
ghost use Rattle.std.specs.Prelude.{◌≡◌, ◌-◌, ◌^◌, ◌<◌, ◌≤◌, ◌↔◌, length, IfOk, IfErr, OnOk, OnErr, IsErr, IsTrue};
ghost use Rattle.std.specs.List.{AllByRecursion, insert};
ghost use Rattle.cep_term.specs.Tree.{atom_of};
ghost use Rattle.cep_term.specs.Multiset.{IsEntry};
ghost use Rattle.cep_term.specs.Entries.{entries_of, IsRising, find_count, one_more_among, one_less_among};
ghost use Rattle.cep_term.specs.Entries.{IsAt, IsGapFor};

use crate::comparing::order;
use crate::copying::copy;
use crate::term::Atom;
use std::alloc::{AllocError, Global};
use std::cmp::Ordering;

/// The answer of `Bag::take` if the bag has no copy of the atom.
#[derive(Clone, Copy, PartialEq, Eq)]
pub struct Missing;

// An atom with the number of its copies. The atom is boxed, so that entries are small and an entry
// is put between others by moving few bytes.
#[derive(Drop)]
pub struct Entry {
    pub atom: Box<Atom>,
    pub count: u32,
}

// Where the atom's entry is, or where it would go.
pub fn place(entries: &[Entry], a: &Atom) -> Result<usize, usize>
    requires { IsRising (entries_of entries.now) }
    ensures found { IfOk result (IsAt (entries_of entries.now) (atom_of a.now)) }
    ensures absent { IfErr result (IsGapFor (entries_of entries.now) (atom_of a.now)) }
    ensures found_in_range { IfOk result (λ at. at < length entries.now) }
    ensures absent_in_range { IfErr result (λ at. at ≤ length entries.now) }
{
    let Some(last) = entries.last() else {
        return Err(0);
    };
    match order(&last.atom, a) {
        Ordering::Less => Err(entries.len()),
        Ordering::Equal => Ok(entries.len() - 1),
        Ordering::Greater => entries.binary_search_by(|entry| order(&entry.atom, a)),
    }
}

// How many copies of the atom there are.
#[tactic(auto, using(crate::proofs::BlockEdits::one_more))]
pub fn count_among(entries: &[Entry], a: &Atom) -> u32
    requires { IsRising (entries_of entries.now) }
    ensures { result ≡ find_count (entries_of entries.now) (atom_of a.now) }
{
    match place(entries, a) {
        Ok(at) => entries[at].count,
        Err(_) => 0,
    }
}

// Puts an entry into its place among others, which for atoms that come in order is after the last one.
#[tactic(auto, using(std::proofs::lemmas::List::Edits::insert_end))]
fn insert(entries: &mut Vec<Entry>, at: usize, entry: Entry) -> Result<(), AllocError>
    requires { at ≤ length entries.old.items }
    ensures ok { OnOk result (entries.new.items ≡ insert entries.old.items at entry) }
    ensures err { OnErr result (entries.new.items ≡ entries.old.items) }
{
    if at == entries.len() {
        entries.push(entry)?;
    } else {
        entries.insert(at, entry)?;
    }
    Ok(())
}

// Adds one copy of the atom.
#[tactic(auto, using(crate::proofs::BlockEdits::one_more))]
pub fn add_copy(alloc: Global, entries: &mut Vec<Entry>, a: &Atom) -> Result<(), AllocError>
    requires rising { IsRising (entries_of entries.old.items) }
    requires few { find_count (entries_of entries.old.items) (atom_of a.now) < 2 ^ 32 - 1 }
    ensures ok { OnOk result (entries_of entries.new.items
        ≡ one_more_among (entries_of entries.old.items) (atom_of a.now)) }
    ensures err { OnErr result (entries_of entries.new.items ≡ entries_of entries.old.items) }
    ensures as_many { length entries.old.items ≤ length entries.new.items }
{
    match place(entries, a) {
        Ok(at) => {
            entries[at].count += 1;
            Ok(())
        }
        Err(at) => {
            let atom = Box::new(alloc, copy(alloc, a)?)?;
            insert(entries, at, Entry { atom, count: 1 })
        }
    }
}

// Adds one copy of the atom, which is kept where it is new.
#[tactic(auto, using(crate::proofs::BlockEdits::one_more))]
pub fn put_copy(alloc: Global, entries: &mut Vec<Entry>, a: Atom) -> Result<(), AllocError>
    requires rising { IsRising (entries_of entries.old.items) }
    requires few { find_count (entries_of entries.old.items) (atom_of a) < 2 ^ 32 - 1 }
    ensures ok { OnOk result (entries_of entries.new.items
        ≡ one_more_among (entries_of entries.old.items) (atom_of a)) }
    ensures err { OnErr result (entries_of entries.new.items ≡ entries_of entries.old.items) }
    ensures as_many { length entries.old.items ≤ length entries.new.items }
{
    match place(entries, &a) {
        Ok(at) => {
            entries[at].count += 1;
            Ok(())
        }
        Err(at) => {
            let atom = Box::new(alloc, a)?;
            insert(entries, at, Entry { atom, count: 1 })
        }
    }
}

// Takes one copy of the atom, or answers `Missing` if there is none.
#[tactic(auto, using(crate::proofs::BlockEdits::copies))]
pub fn take_copy(entries: &mut Vec<Entry>, a: &Atom) -> Result<(), Missing>
    requires rising { IsRising (entries_of entries.old.items) }
    requires each { AllByRecursion IsEntry (entries_of entries.old.items) }
    ensures missing { IsErr result ↔
        (find_count (entries_of entries.old.items) (atom_of a.now) ≡ 0) }
    ensures ok { OnOk result (entries_of entries.new.items
        ≡ one_less_among (entries_of entries.old.items) (atom_of a.now)) }
    ensures err { OnErr result (entries_of entries.new.items ≡ entries_of entries.old.items) }
{
    match place(entries, a) {
        Ok(at) => {
            if entries[at].count == 1 {
                entries.remove(at);
            } else {
                entries[at].count -= 1;
            }
            Ok(())
        }
        Err(_) => Err(Missing),
    }
}

// Entries of the same atoms with the same counts.
pub fn copy_entries(alloc: Global, entries: &[Entry]) -> Result<Vec<Entry>, AllocError>
    ensures { IfOk result (λ copies. entries_of copies.items ≡ entries_of entries.now) }
{
    let mut copies = Vec::new(alloc);
    for entry in entries {
        let atom = Box::new(alloc, copy(alloc, &entry.atom)?)?;
        let count = entry.count;
        copies.push(Entry { atom, count })?;
    }
    Ok(copies)
}
