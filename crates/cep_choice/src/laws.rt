//! A law of what is drawn. The function computes nothing, and its contract is the law.
ghost use Rattle.std.specs.Prelude.{ℕ, ◌<◌, ◌≤◌};
ghost use Rattle.cep_choice.specs.Draws.{place_drawn};

/// The place that a word of the seed stands for is one of those among which it is drawn.
pub fn drawn_places_are_within()
    ensures { (seed drawn n : ℕ) → 0 < n
        → (0 < place_drawn seed drawn n) × (place_drawn seed drawn n ≤ n) }
{}
