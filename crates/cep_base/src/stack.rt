ghost use Rattle.std.specs.Prelude.{◌≡◌, ℕ, [], ◌∷◌, ◌++◌, drop, OnOk, OnErr, MatchOption};

use std::alloc::{AllocError, Global};
use std::marker::Model;

/// Things of which the one that came last is taken first. Its value is their list, the next to be
/// taken in front.
#[derive(Drop)]
pub struct Stack<T> {
    // the next one at the end
    items: Vec<T>,
}

impl<T> Model for Stack<T> {
    ghost use Rattle.std.specs.Prelude.{List, reverse};

    ghost Value = { List T };

    ghost view = { λ stack. reverse stack.items.items };
}

impl<T> Stack<T> {
    /// Nothing is there. It takes no memory.
    pub fn new(alloc: Global) -> Stack<T>
        ensures { result ≡ [] }
    {
        Stack {
            items: Vec::new(alloc),
        }
    }

    /// Takes the next one, if there is one. It takes no memory.
    pub fn pop(&mut self) -> Option<T>
        ensures { MatchOption result
            ((self.old ≡ []) × (self.new ≡ []))
            (λ item. self.old ≡ item ∷ self.new) }
    {
        self.items.pop()
    }
}

impl<T: Drop> Stack<T> {
    /// Puts one in front. After out of memory the stack is as before, and the item is gone.
    pub fn push(&mut self, item: T) -> Result<(), AllocError>
        ensures ok { OnOk result (self.new ≡ item ∷ self.old) }
        ensures err { OnErr result (self.new ≡ self.old) }
    {
        self.items.push(item)?;
        Ok(())
    }
}

impl<T: Copy + Drop> Stack<T> {
    /// Puts all of these in front, the first of them first. After out of memory some of the last of
    /// them are there.
    pub fn push_all(&mut self, items: &[T]) -> Result<(), AllocError>
        ensures ok { OnOk result (self.new ≡ items.now ++ self.old) }
        ensures err { OnErr result ((left : ℕ) × (self.new ≡ drop left items.now ++ self.old)) }
    {
        let mut left = items.len();
        while left > 0 {
            left -= 1;
            self.items.push(items[left])?;
        }
        Ok(())
    }
}
