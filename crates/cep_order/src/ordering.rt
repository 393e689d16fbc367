ghost use Rattle.std.specs.Prelude.{◌≡◌, ◌<◌, ◌≤◌, ℕ, false, length, slice_index_or, IfOk};
ghost use Rattle.cep_order.specs.Orders.{NamesEarlier, IsOrderBy, IsEachOnce};
ghost use Rattle.cep_order.specs.Taking.{IsPart, BecomeReady};

use crate::ready::Ready;
use crate::step_cause::{Numbers, StepCause, StepCauses};
use crate::waits::Waits;
use cep_base::List;
use cep_base::limits::MOST_LOG;
use cep_choice::Draw;
use std::alloc::{AllocError, Global};

/// The order that a seed gives to the steps of a transcript: again and again it takes one of the
/// steps that are ready, those that it has not taken and whose every preceding step it has. Of `n`
/// ready steps, by increasing number, it takes the one at the place that one
/// [`Draw`](cep_choice::Draw) of the seed has for `n`. Which steps precede which, and that a seed
/// decides between others, is this profile's.
///
/// # Errors
///
/// Out of memory alone. It counts as that too if the entries have 2^32 numbers or more.
pub fn order_by(alloc: Global, causes: &StepCauses, seed: u64) -> Result<Numbers, AllocError>
    requires few { length causes.now ≤ MOST_LOG }
    requires earlier { NamesEarlier causes.now }
    ensures order { IfOk result (IsOrderBy seed causes.now) }
    ensures once { IfOk result (IsEachOnce (length causes.now)) }
{
    let entries = causes.as_slice();
    let mut waits = Waits::of(alloc, entries)?;
    let mut ready = Ready::new(alloc, entries.len())?;
    let mut draw = Draw::new(seed);
    let mut order = List::new(alloc);
    // no barrier that is not taken holds the steps before this one
    let mut end = 0;
    loop {
        let count = ready.len();
        if count > 0 {
            let place = ready.nth(draw.place(count) - 1);
            ready.remove(place);
            order.push(place as u32 + 1)?;
            waits.release(place, end, &mut ready);
        } else if end < entries.len() {
            let from = end;
            end = part_end(entries, from);
            make_ready(&waits, from, end, &mut ready);
        } else {
            return Ok(order);
        }
    }
}

// The end of the part that begins at a step. A barrier is a part by itself, and any other part goes
// up to the next barrier.
fn part_end(causes: &[StepCause], from: usize) -> usize
    requires { from < length causes.now }
    ensures { IsPart causes.now from result }
{
    let mut end = from + 1;
    if causes[from].barrier {
        return end;
    }
    while end < causes.len() && !causes[end].barrier {
        end += 1;
    }
    end
}

// The steps of a part that wait for no other are ready.
fn make_ready(waits: &Waits, from: usize, end: usize, ready: &mut Ready)
    requires range { from ≤ end }
    requires within { end ≤ length waits.now.left.items }
    requires room { length ready.old ≡ length waits.now.left.items }
    requires apart { (step : ℕ) → from ≤ step → slice_index_or ready.old step false ≡ false }
    ensures room { length ready.new ≡ length ready.old }
    ensures ready { BecomeReady waits.now.left.items from end ready.old ready.new }
{
    for step in from..end {
        if waits.is_free(step) {
            ready.insert(step);
        }
    }
}
