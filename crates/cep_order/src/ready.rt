ghost use Rattle.std.specs.Prelude.{◌≡◌, ◌+◌, ◌*◌, ◌^◌, ◌<◌, ◌≤◌, true, false, Some, length, slice_get, slice_set, slice_index_or, replicate, IfOk};
ghost use Rattle.cep_order.specs.Flags.{set_places, set_before};
ghost use Rattle.cep_order.specs.Counts.{FindsLeaf};

use cep_base::limits::MOST_LOG;
use std::alloc::{AllocError, Global};
use std::marker::Model;

/// How many flags a leaf of the tree counts.
const BLOCK: usize = 64;

/// Steps that are ready. Its value has a flag for each step, by its place.
#[derive(Drop)]
pub struct Ready {
    flags: Vec<bool>,
    // how many flags are set under each node of a binary tree: the root is at 1, the children of a
    // node are at twice its place and after that, and the leaves, which count a block of flags
    // each, are the second half
    counts: Vec<u32>,
    height: u32,
}

impl Model for Ready {
    ghost use Rattle.std.specs.Prelude.{Bool, List, ◌≤◌};
    ghost use Rattle.cep_order.specs.Counts.{IsTree};

    ghost Value = { List Bool };

    ghost view = { λ ready. ready.flags.items };

    ghost invariant = { λ ready. IsTree ready.flags.items ready.counts.items ready.height };
}

impl Ready {
    /// None of so many steps is ready.
    pub fn new(alloc: Global, steps: usize) -> Result<Ready, AllocError>
        requires { steps ≤ MOST_LOG }
        ensures { IfOk result (λ ready. ready ≡ replicate steps false) }
    {
        let mut height = 0;
        let mut leaves = 1;
        while leaves * BLOCK < steps {
            leaves *= 2;
            height += 1;
        }
        let flags = vec![in alloc; false; steps]?;
        let counts = vec![in alloc; 0; 2 * leaves]?;
        Ok(Ready {
            flags,
            counts,
            height,
        })
    }

    /// How many are ready.
    pub fn len(&self) -> u32
        ensures { result ≡ length (set_places self.now) }
    {
        self.counts[1]
    }

    /// The one with so many ready ones before it.
    pub fn nth(&self, k: u32) -> usize
        requires { k < length (set_places self.now) }
        ensures { slice_get (set_places self.now) k ≡ Some result }
    {
        let (leaf, left) = leaf_of(&self.counts, self.height, k);
        place_in(&self.flags, (leaf - self.counts.len() / 2) * BLOCK, left)
    }

    /// A step that was not ready is so from now on.
    pub fn insert(&mut self, place: usize)
        requires within { place < length self.old }
        requires other { slice_index_or self.old place true ≡ false }
        ensures { self.new ≡ slice_set self.old place true }
    {
        self.flags[place] = true;
        let mut node = self.counts.len() / 2 + place / BLOCK;
        while node > 0 {
            self.counts[node] += 1;
            node /= 2;
        }
    }

    /// A step that was ready is no longer so.
    pub fn remove(&mut self, place: usize)
        requires { slice_index_or self.old place false ≡ true }
        ensures { self.new ≡ slice_set self.old place false }
    {
        self.flags[place] = false;
        let mut node = self.counts.len() / 2 + place / BLOCK;
        while node > 0 {
            self.counts[node] -= 1;
            node /= 2;
        }
    }
}

// The leaf with the flag before which so many are set, and how many of these are of the leaf.
fn leaf_of(counts: &[u32], height: u32, k: u32) -> (usize, u32)
    requires { length counts.now ≡ 2 * 2 ^ height }
    ensures within { (2 ^ height ≤ result.0) × (result.0 < length counts.now) }
    ensures leaf { FindsLeaf counts.now height k result.0 result.1 }
{
    let mut node = 1;
    let mut left = k;
    let mut levels = height;
    while levels > 0 {
        levels -= 1;
        node *= 2;
        let count = counts[node];
        if left >= count {
            left -= count;
            node += 1;
        }
    }
    (node, left)
}

// The place of the flag that is set with so many set ones before it, from a place on.
fn place_in(flags: &[bool], from: usize, k: u32) -> usize
    requires { set_before flags.now from + k < set_before flags.now (length flags.now) }
    ensures is_set { slice_index_or flags.now result false ≡ true }
    ensures before { set_before flags.now result ≡ set_before flags.now from + k }
{
    let mut place = from;
    let mut left = k;
    loop {
        let count = u32::from(flags[place]);
        if count > left {
            return place;
        }
        // no branch on a flag, which would be guessed wrong half of the time
        left -= count;
        place += 1;
    }
}
