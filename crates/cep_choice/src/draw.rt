ghost use Rattle.std.specs.Prelude.{◌≡◌, ℕ, ◌+◌, ◌*◌, ◌/◌, ◌^◌, ◌<◌, ◌≤◌};
ghost use Rattle.cep_choice.specs.Draws.{generator_behind, place_drawn};

use rand_core::utils::NextWord;
use rand_pcg::Lcg64Xsh32;
use std::marker::Model;

// The stream of the generator, the same for all seeds.
const STREAM: u64 = 54;

/// What a seed draws: places among offers, one after another, by the words of 32 bits that PCG's
/// generator gives for it.
#[derive(Drop)]
pub struct Draw {
    generator: Lcg64Xsh32,
}

impl Model for Draw {
    ghost use Rattle.rand_pcg.specs.Lcg.{Lcg};

    ghost Value = { Lcg };

    ghost view = { λ draw. draw.generator };
}

impl Draw {
    /// What the seed draws, from its first word on.
    pub fn new(seed: u64) -> Draw
        ensures { result ≡ generator_behind seed 0 }
    {
        Draw {
            generator: Lcg64Xsh32::new(seed, STREAM),
        }
    }

    /// The place among `n`, from 1 to `n`. A lone one is taken as it is; among several the next word
    /// decides, so that each place stands for about as many words.
    pub fn place(&mut self, n: u32) -> u32
        requires { 0 < n }
        ensures lone { n ≡ 1 → (result ≡ 1) × (self.new ≡ self.old) }
        ensures drawn { 1 < n
            → (seed drawn : ℕ)
            → self.old ≡ generator_behind seed drawn
            → (result ≡ place_drawn seed drawn n) × (self.new ≡ generator_behind seed (drawn + 1)) }
        ensures within { (0 < result) × (result ≤ n) }
    {
        if n == 1 {
            return 1;
        }
        place_by(self.generator.next_word(), n)
    }
}

// The place among `n` that a word stands for.
fn place_by(word: u32, n: u32) -> u32
    requires { 0 < n }
    ensures place { result ≡ word * n / 2 ^ 32 + 1 }
    ensures within { (0 < result) × (result ≤ n) }
{
    let share = u64::from(word) * u64::from(n) / (1 << 32);
    share as u32 + 1
}
