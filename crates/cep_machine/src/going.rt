ghost use Rattle.std.specs.Prelude.{◌≡◌, ◌+◌, ◌<◌, ◌≤◌, IfOk};
ghost use Rattle.cep_base.specs.declared.limits.TheConstants.{MOST_TURNS};
ghost use Rattle.cep_rule.specs.Matching.{RoseBy};
ghost use Rattle.cep_step.specs.Changes.{changed};
ghost use Rattle.cep_machine.specs.Configuration.{IsConfigurationOf, spot_of};
ghost use Rattle.cep_machine.specs.Stepping.{IsStepChange};

use crate::config::Config;
use cep_base::Steps;
use cep_offer::Matcher;
use cep_rule::Program;
use cep_step::Change;
use std::alloc::{AllocError, Global};
use std::sync::ledger::Ledger;

impl<M: Matcher> Config<M> {
    /// Goes on by the change of a step from here, with one more turn done. The matcher is told of
    /// what the step uses up and of what it makes. Only out of memory is refused, and then the
    /// configuration is gone.
    pub fn go<L: Ledger>(
        self,
        alloc: Global,
        program: &Program,
        change: &Change,
        steps: &mut Steps<L>,
    ) -> Result<Config<M>, AllocError>
        requires of_program { IsConfigurationOf M.is_of program.now self }
        requires change { IsStepChange program.now (spot_of self) change.now }
        requires turns { self.turns < MOST_TURNS }
        ensures of_program { IfOk result (IsConfigurationOf M.is_of program.now) }
        ensures spot { IfOk result (λ config. spot_of config ≡ changed (spot_of self) change.now) }
        ensures turns { IfOk result (λ config. config.turns ≡ self.turns + 1) }
        ensures same_height { IfOk result
            (λ config. M.height_held config.matcher ≡ M.height_held self.matcher) }
        ensures ticked { IfOk result (λ _. RoseBy
            (M.may_edit program.now self.state
            (M.height_held self.matcher) change.now.taken change.now.added)
            steps.old steps.new) }
        ensures never_falls { steps.old ≤ steps.new }
    {
        let Config {
            spot,
            turns,
            matcher,
        } = self;
        let spot = spot.go(change)?;
        let matcher = matcher.edit(alloc, program, &change.taken, &change.added, steps)?;
        Ok(Config {
            spot,
            turns: turns + 1,
            matcher,
        })
    }
}
