// What holds for a run that words ask for.
ghost use Rattle.std.specs.Prelude.{◌≡◌, ◌≤◌};
ghost use Rattle.cep_base.specs.declared.limits.TheConstants.{MOST_TURNS};
ghost use Rattle.cep_rule.specs.Limits.{IsHeight};
ghost use Rattle.cep_words.specs.Words.{AreWithin};
ghost use Rattle.cep_play.specs.Command.{settings_of};

use cep_base::limits::{DEFAULT_HEIGHT, DEFAULT_SEED, DEFAULT_TURNS};
use cep_rule::Program;
use cep_run::Settings;
use cep_words::Options;

/// The settings of a run of the program with these options.
pub(crate) fn settings_of(program: &Program, options: Options) -> Settings
    requires { AreWithin options }
    ensures settings { result ≡ settings_of program.now options }
    ensures height { IsHeight result.height }
    ensures few { result.limit ≤ MOST_TURNS }
{
    let told = program.parts().turns.unwrap_or(DEFAULT_TURNS);
    Settings {
        height: options.height.unwrap_or(DEFAULT_HEIGHT),
        limit: options.turns.unwrap_or(told),
        seed: options.seed.unwrap_or(DEFAULT_SEED),
    }
}
