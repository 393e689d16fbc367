ghost use Rattle.std.specs.Prelude.{◌≡◌, ℕ, ◌++◌, ◌∷◌, List, [], map, string_bytes, MatchOption, IsSome, None, Some};
ghost use Rattle.std.specs.List.Sorted.{IsPermutation};
ghost use Rattle.cep_words.specs.Words.{Give};
ghost use Rattle.cep_words.specs.Adding.{IsThere, AddsOne};
ghost use Rattle.cep_words.specs.declared.options.Options.{Options};

use crate::run_option::RunOption;

/// What words may ask of a run. What is not asked has a default.
#[derive(Clone, Copy)]
pub struct Options {
    /// The seed of what nobody chooses.
    pub seed: Option<u64>,
    /// How many levels a derivation may have, from 1 to 512.
    pub height: Option<u32>,
    /// How many turns are done at most, from 1 to 1,000,000.
    pub turns: Option<u32>,
    /// How many play, from 2 to 16, where they play in rounds.
    pub players: Option<u32>,
}

impl Options {
    /// The options that these words give, in any order and each at most once. `None` if and only if they
    /// give none.
    pub fn of(words: &[String]) -> Option<Options>
        ensures { MatchOption result
            ((options : Options) → ¬ (Give (map string_bytes words.now) options))
            (Give (map string_bytes words.now)) }
    {
        let mut options = Options {
            seed: None,
            height: None,
            turns: None,
            players: None,
        };
        for word in words {
            let option = RunOption::of(word.as_bytes())?;
            options = options.with(option)?;
        }
        Some(options)
    }

    // These options and one more, if it is not among them.
    fn with(self, option: RunOption) -> Option<Options>
        ensures { MatchOption result (IsThere self option) (AddsOne self option) }
    {
        match option {
            RunOption::Seed(seed) => match self.seed {
                None => Some(Options {
                    seed: Some(seed),
                    ..self
                }),
                Some(_) => None,
            },
            RunOption::Height(levels) => match self.height {
                None => Some(Options {
                    height: Some(levels),
                    ..self
                }),
                Some(_) => None,
            },
            RunOption::Turns(turns) => match self.turns {
                None => Some(Options {
                    turns: Some(turns),
                    ..self
                }),
                Some(_) => None,
            },
            RunOption::Players(players) => match self.players {
                None => Some(Options {
                    players: Some(players),
                    ..self
                }),
                Some(_) => None,
            },
        }
    }
}
