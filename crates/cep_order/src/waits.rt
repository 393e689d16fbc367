ghost use Rattle.std.specs.Prelude.{◌≡◌, ◌<◌, ◌≤◌, ◌^◌, ◌↔◌, length, slice_index, IfOk, OnOk, IsTrue};
ghost use Rattle.std.specs.List.{AllByRecursion};
ghost use Rattle.cep_order.specs.Orders.{NamesEarlier};
ghost use Rattle.cep_order.specs.Waits.{AddsLinks, AreWaitsOf, CanRelease, IsReleased};

use crate::ready::Ready;
use crate::step_cause::StepCause;
use cep_base::limits::MOST_LOG;
use std::alloc::{AllocError, Global};

/// A step that waits for another, and the link to the next one that does: one more than its place,
/// or 0 where there is none.
#[derive(Clone, Copy)]
pub struct Link {
    step: u32,
    next: u32,
}

/// Which steps wait for which.
#[derive(Drop)]
pub struct Waits {
    // of each step, how many numbers in its entry are those of steps that are not taken
    left: Vec<u32>,
    // of each step, the first link to those that wait for it
    begins: Vec<u32>,
    links: Vec<Link>,
}

impl Waits {
    /// No step is taken.
    pub fn of(alloc: Global, causes: &[StepCause]) -> Result<Waits, AllocError>
        requires few { length causes.now ≤ MOST_LOG }
        requires earlier { NamesEarlier causes.now }
        ensures { IfOk result (AreWaitsOf causes.now) }
    {
        let mut left = Vec::new(alloc);
        let mut begins = vec![in alloc; 0; causes.len()]?;
        let mut links = Vec::new(alloc);
        for (step, cause) in causes.iter().enumerate() {
            let numbers = cause.after.as_slice();
            link_all(&mut begins, &mut links, step as u32, numbers)?;
            left.push(numbers.len() as u32)?;
        }
        Ok(Waits {
            left,
            begins,
            links,
        })
    }

    /// Whether a step waits for no other.
    pub fn is_free(&self, step: usize) -> bool
        requires { step < length self.now.left.items }
        ensures { IsTrue result ↔ (slice_index self.now.left.items step ≡ 0) }
    {
        self.left[step] == 0
    }

    /// A step is taken: none waits for it any more. Those that wait for no other then, and stand
    /// before the end, are ready.
    pub fn release(&mut self, place: usize, end: usize, ready: &mut Ready)
        requires { CanRelease self.old ready.old place }
        ensures { IsReleased self.old self.new ready.old ready.new place end }
    {
        if self.links.is_empty() {
            return;
        }
        let mut from = self.begins[place];
        while from > 0 {
            let link = self.links[from as usize - 1];
            let step = link.step as usize;
            self.left[step] -= 1;
            if self.left[step] == 0 && step < end {
                ready.insert(step);
            }
            from = link.next;
        }
    }
}

// Links a step to each that its entry names.
fn link_all(
    begins: &mut [u32],
    links: &mut Vec<Link>,
    step: u32,
    numbers: &[u32],
) -> Result<(), AllocError>
    requires { AllByRecursion (λ number. (0 < number) × (number ≤ length begins.old)) numbers.now }
    ensures few { OnOk result (length numbers.now < 2 ^ 32) }
    ensures links { OnOk result
        (AddsLinks step numbers.now begins.old links.old.items begins.new links.new.items) }
{
    for number in numbers {
        let earlier = *number as usize - 1;
        let next = begins[earlier];
        links.push(Link { step, next })?;
        let Ok(link) = u32::try_from(links.len()) else {
            return Err(AllocError);
        };
        begins[earlier] = link;
    }
    Ok(())
}
