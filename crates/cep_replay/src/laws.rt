//! Laws of legal logs and the runs that come to them. Each function computes nothing, and its
//! contract is the law.
ghost use Rattle.std.specs.Prelude.{◌≡◌, ℕ, List, Option};
ghost use Rattle.cep_rule.specs.declared.parts.Parts.{Parts};
ghost use Rattle.cep_rule.specs.Program.{IsProgram};
ghost use Rattle.cep_rule.specs.Steps.{Spot, start_spot};
ghost use Rattle.cep_log.specs.declared.log.Log.{Log};
ghost use Rattle.cep_log.specs.Legal.{IsLegal};
ghost use Rattle.cep_run.specs.declared.settings.Settings.{Settings};
ghost use Rattle.cep_replay.specs.Playing.{
  AreTypedFor,
  CanBePlayed,
  IsReplayed,
  AreInteractive,
  HaveFewOffers,
};

use cep_complete::laws::offers_are_there;
use cep_log::laws::lines_are_read_as_written;
use cep_rule::laws::{one_state_after_a_step, steps_lead_to_states, what_is_needed_is_there};
use cep_run::laws::one_dialogue;

/// A legal log can be played by typing, for each step that the player decides, the decimal place of
/// its offer as a line: if each other step is the only one or the one that the seed draws, and the
/// log keeps to the limits of a run and ends as a run can end.
pub fn legal_logs_can_be_played()
    ensures { (program : Parts) (settings : Settings) (log : Log) (typed : List ℕ)
        → IsLegal program log
        → CanBePlayed program settings log typed
        → IsReplayed program settings log typed }
{
    lines_are_read_as_written();
    one_state_after_a_step();
    one_dialogue();
}

/// If each stage is interactive there are such bytes for every legal log with few offers on its way:
/// nothing is left to the seed.
pub fn interactive_logs_are_answered()
    ensures { (program : Parts) (settings : Settings) (log : Log)
        → IsProgram program
        → AreInteractive program
        → IsLegal program log
        → settings.height ≡ log.height
        → HaveFewOffers program log.height (start_spot program) log.steps
        → (typed : List ℕ) × (last : Spot)
        × AreTypedFor program settings (start_spot program) log.steps 0 typed last }
{
    offers_are_there();
    steps_lead_to_states();
    what_is_needed_is_there();
}
