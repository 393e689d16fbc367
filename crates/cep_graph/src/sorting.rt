ghost use Rattle.std.specs.Prelude.{◌≡◌, ℕ, ◌<◌, ◌↔◌, nat_lt, filter, Contains, IfOk};
ghost use Rattle.std.specs.List.{AllByRecursion};
ghost use Rattle.std.specs.List.Sorted.{IsStrictlyIncreasing};

use cep_base::List;
use cep_order::Numbers;
use std::alloc::{AllocError, Global};

/// The numbers but 0, each once, in strictly increasing order.
pub fn in_order(alloc: Global, mut numbers: Vec<u32>) -> Result<Numbers, AllocError>
    ensures increasing { IfOk result IsStrictlyIncreasing }
    ensures counted { IfOk result (AllByRecursion (λ (n : ℕ). 0 < n)) }
    ensures same { IfOk result (λ after. (n : ℕ) → 0 < n
        → (Contains after n ↔ Contains numbers.items n)) }
{
    numbers.sort()?;
    numbers.dedup();
    let after = without_zero(alloc, numbers.as_slice())?;
    Ok(after)
}

// The numbers but 0.
fn without_zero(alloc: Global, numbers: &[u32]) -> Result<Numbers, AllocError>
    ensures { IfOk result (λ after. after ≡ filter (λ n. nat_lt 0 n) numbers.now) }
{
    let mut after = List::new(alloc);
    for number in numbers {
        if *number > 0 {
            after.push(*number)?;
        }
    }
    Ok(after)
}
