ghost use Rattle.std.specs.Prelude.{◌≡◌, ℕ, ◌<◌, Bool, true, false, length, slice_set};
ghost use Rattle.std.specs.List.{AllByRecursion};
ghost use Rattle.cep_modes.specs.Places.{holds};
ghost use Rattle.cep_modes.specs.Reaching.{unset};
ghost use Rattle.cep_modes.specs.Leading.{IsCallWithin, IsLed, IsFollowed, Marks};

use crate::reach::Call;

// Marks the caller where the callee is marked and the caller is not yet; says whether it was marked.
fn follow(call: &Call, marked: &mut [bool]) -> bool
    requires { IsCallWithin (length marked.old) call.now }
    ensures { Marks result call.now marked.old marked.new }
{
    if marked[call.callee] && !marked[call.caller] {
        marked[call.caller] = true;
        return true;
    }
    false
}

// Goes over all calls, from the last to the first, so that a chain of callees is marked at once;
// says whether some caller was marked.
fn pass(calls: &[Call], marked: &mut [bool]) -> bool
    requires { AllByRecursion (IsCallWithin (length marked.old)) calls.now }
    ensures kept { (n : ℕ) → holds marked.old n ≡ true → holds marked.new n ≡ true }
    ensures led { (n : ℕ) → holds marked.new n ≡ true → IsLed calls.now marked.old n }
    ensures fewer { result ≡ true → unset marked.new < unset marked.old }
    ensures followed { result ≡ false → AllByRecursion (IsFollowed marked.new) calls.now }
{
    let mut found = false;
    let mut left = calls.len();
    while left > 0 {
        left -= 1;
        if follow(&calls[left], marked) {
            found = true;
        }
    }
    found
}

// Marks all that leads to what is marked.
pub(crate) fn spread(calls: &[Call], marked: &mut [bool])
    requires { AllByRecursion (IsCallWithin (length marked.old)) calls.now }
    ensures kept { (n : ℕ) → holds marked.old n ≡ true → holds marked.new n ≡ true }
    ensures led { (n : ℕ) → holds marked.new n ≡ true → IsLed calls.now marked.old n }
    ensures followed { AllByRecursion (IsFollowed marked.new) calls.now }
{
    while pass(calls, marked) {}
}
