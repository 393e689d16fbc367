ghost use Rattle.std.specs.Prelude.{◌≡◌, ℕ, false, ◌+◌, ◌*◌, ◌<◌, ◌≤◌, [], ◌++◌, length, map, OnOk, IfOk};
ghost use Rattle.std.specs.List.{AllByRecursion};
ghost use Rattle.cep_modes.specs.Places.{holds, IsPlainClause, IsClauseTable, callees};
ghost use Rattle.cep_modes.specs.Reaching.{seen_after, queue_after, calls_from, IsClosed};

use crate::callees::{SETS, callees_at};
use cep_rule::Clauses;
use std::alloc::{AllocError, Global};

// A call that one pair makes of another, each by its number.
#[derive(Clone, Copy)]
pub(crate) struct Call {
    pub(crate) caller: usize,
    pub(crate) callee: usize,
}

// As many flags, of which none is set.
pub(crate) fn no_flags(alloc: Global, count: usize) -> Result<Vec<bool>, AllocError>
    ensures long { IfOk result (λ flags. length flags.items ≡ count) }
    ensures none { IfOk result (λ flags. (n : ℕ) → holds flags.items n ≡ false) }
{
    let flags = vec![in alloc; false; count]?;
    Ok(flags)
}

// Marks what is seen for the first time, and adds it to the queue.
fn see(numbers: &[usize], seen: &mut [bool], queue: &mut Vec<usize>) -> Result<(), AllocError>
    requires { AllByRecursion (λ n. n < length seen.old) numbers.now }
    ensures seen { OnOk result (seen.new ≡ seen_after numbers.now seen.old) }
    ensures queue { OnOk result (queue.new.items
        ≡ queue_after numbers.now seen.old queue.old.items) }
{
    for n in numbers {
        if !seen[*n] {
            queue.push(*n)?;
        }
        seen[*n] = true;
    }
    Ok(())
}

// Records the calls that one pair makes.
fn record(caller: usize, callees: &[usize], calls: &mut Vec<Call>) -> Result<(), AllocError>
    ensures { OnOk result (calls.new.items ≡ calls.old.items ++ calls_from caller callees.now) }
{
    for callee in callees {
        calls.push(Call {
            caller,
            callee: *callee,
        })?;
    }
    Ok(())
}

// Records what a pair calls, and adds to the queue what is seen for the first time.
fn follow(
    alloc: Global,
    clauses: &Clauses,
    table: &Vec<Vec<usize>>,
    n: usize,
    seen: &mut [bool],
    queue: &mut Vec<usize>,
    calls: &mut Vec<Call>,
) -> Result<(), AllocError>
    requires plain { AllByRecursion (IsPlainClause 32) clauses.now }
    requires table { IsClauseTable clauses.now 0 (map (λ numbers. numbers.items) table.now.items) }
    requires in_range { n < length table.now.items * 256 + 1 }
    requires callees { AllByRecursion (λ m. m < length seen.old) (callees clauses.now n) }
    ensures calls { OnOk result (calls.new.items
        ≡ calls.old.items ++ calls_from n (callees clauses.now n)) }
    ensures seen { OnOk result (seen.new ≡ seen_after (callees clauses.now n) seen.old) }
    ensures queue { OnOk result (queue.new.items
        ≡ queue_after (callees clauses.now n) seen.old queue.old.items) }
{
    let callees = callees_at(alloc, clauses, table, n)?;
    record(n, &callees, calls)?;
    see(&callees, seen, queue)?;
    Ok(())
}

// All calls of the pairs that are reached from these numbers.
pub(crate) fn reached(
    alloc: Global,
    clauses: &Clauses,
    table: &Vec<Vec<usize>>,
    first: &[usize],
) -> Result<Vec<Call>, AllocError>
    requires plain { AllByRecursion (IsPlainClause 32) clauses.now }
    requires table { IsClauseTable clauses.now 0 (map (λ numbers. numbers.items) table.now.items) }
    requires size { length table.now.items ≤ 1024 }
    requires first { AllByRecursion (λ n. n < length table.now.items * 256 + 1) first.now }
    requires callees { (n : ℕ) → AllByRecursion (λ m. m < length table.now.items * 256 + 1)
        (callees clauses.now n) }
    ensures { IfOk result (λ calls.
        IsClosed clauses.now (length table.now.items * 256 + 1) first.now calls.items) }
{
    let mut flags = no_flags(alloc, table.len() * SETS + 1)?;
    let seen = flags.as_mut_slice();
    let mut queue = Vec::new(alloc);
    let mut calls = Vec::new(alloc);
    see(first, seen, &mut queue)?;
    let mut done = 0;
    while done < queue.len() {
        let n = queue[done];
        follow(alloc, clauses, table, n, seen, &mut queue, &mut calls)?;
        done += 1;
    }
    Ok(calls)
}
