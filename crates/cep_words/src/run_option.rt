ghost use Rattle.std.specs.Prelude.{◌≡◌, ℕ, ◌^◌, ◌<◌, ◌++◌, codes, decimal, MatchOption};
ghost use Rattle.cep_words.specs.Words.{option_text, IsInBounds, IsUpTo};
ghost use Rattle.cep_words.specs.declared.run_option.RunOption.TheVariants.{Players};
ghost use Rattle.cep_words.specs.declared.run_option.RunOption.{RunOption};

use crate::number::{number_of, number_within};
use cep_base::limits::{MOST_HEIGHT, MOST_TURNS};
use cep_round::limits::MOST_PLAYERS;

/// One thing that a word may ask of a run.
#[derive(Clone, Copy)]
pub enum RunOption {
    /// The seed of what nobody chooses.
    Seed(u64),
    /// How many levels a derivation may have, from 1 to 512.
    Height(u32),
    /// How many turns are done at most, from 1 to 1,000,000.
    Turns(u32),
    /// How many play in rounds, from 2 to 16.
    Players(u32),
}

impl RunOption {
    // What the word asks: `seed=N`, `height=N`, `turns=N` or `players=N`, N in decimal without
    // leading zeros. `None` if and only if it asks nothing.
    pub(crate) fn of(word: &[u8]) -> Option<RunOption>
        ensures { MatchOption result
            ((option : RunOption) → IsInBounds option → word.now ≡ option_text option → ⊥)
            (λ option. IsInBounds option × (word.now ≡ option_text option)) }
    {
        match seed_in(word) {
            Some(seed) => Some(RunOption::Seed(seed)),
            None => match height_in(word) {
                Some(levels) => Some(RunOption::Height(levels)),
                None => match turns_in(word) {
                    Some(turns) => Some(RunOption::Turns(turns)),
                    None => match players_in(word) {
                        Some(players) => Some(RunOption::Players(players)),
                        None => None,
                    },
                },
            },
        }
    }
}

// The seed of a word `seed=N`. `None` exactly when it is none.
pub(crate) fn seed_in(word: &[u8]) -> Option<u64>
    ensures { MatchOption result
        ((seed : ℕ) → seed < 2 ^ 64 → word.now ≡ codes "seed=" ++ decimal seed → ⊥)
        (λ seed. word.now ≡ codes "seed=" ++ decimal seed) }
{
    number_of(word.strip_prefix(b"seed=")?)
}

fn height_in(word: &[u8]) -> Option<u32>
    ensures { MatchOption result
        ((levels : ℕ) → IsUpTo MOST_HEIGHT levels → word.now ≡ codes "height=" ++ decimal levels
        → ⊥)
        (λ levels. IsUpTo MOST_HEIGHT levels × (word.now ≡ codes "height=" ++ decimal levels)) }
{
    number_within(word.strip_prefix(b"height=")?, 1, MOST_HEIGHT)
}

fn turns_in(word: &[u8]) -> Option<u32>
    ensures { MatchOption result
        ((turns : ℕ) → IsUpTo MOST_TURNS turns → word.now ≡ codes "turns=" ++ decimal turns → ⊥)
        (λ turns. IsUpTo MOST_TURNS turns × (word.now ≡ codes "turns=" ++ decimal turns)) }
{
    number_within(word.strip_prefix(b"turns=")?, 1, MOST_TURNS)
}

fn players_in(word: &[u8]) -> Option<u32>
    ensures { MatchOption result
        ((count : ℕ) → IsInBounds (Players count) → word.now ≡ codes "players=" ++ decimal count
        → ⊥)
        (λ count. IsInBounds (Players count) × (word.now ≡ codes "players=" ++ decimal count)) }
{
    number_within(word.strip_prefix(b"players=")?, 2, MOST_PLAYERS as u32)
}
