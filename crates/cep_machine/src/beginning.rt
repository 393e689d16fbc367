ghost use Rattle.std.specs.Prelude.{◌≡◌, ◌≤◌, IfOk};
ghost use Rattle.cep_rule.specs.Limits.{IsHeight};
ghost use Rattle.cep_rule.specs.Matching.{RoseBy};
ghost use Rattle.cep_machine.specs.Configuration.{IsConfigurationOf};

use crate::config::Config;
use cep_base::Steps;
use cep_offer::Matcher;
use cep_rule::Program;
use cep_step::Spot;
use std::alloc::{AllocError, Global};
use std::sync::ledger::Ledger;

impl<M: Matcher> Config<M> {
    /// The configuration in which a run of the program begins: its start stage and its start state,
    /// no turn done, and a matcher within this height, from 1 to 512. Only out of memory is
    /// refused.
    pub fn begin<L: Ledger>(
        alloc: Global,
        program: &Program,
        height: u32,
        steps: &mut Steps<L>,
    ) -> Result<Config<M>, AllocError>
        requires height { IsHeight height }
        ensures of_program { IfOk result (IsConfigurationOf M.is_of program.now) }
        ensures stage { IfOk result (λ config. config.stage ≡ program.now.start_stage) }
        ensures state { IfOk result (λ config. config.state ≡ program.now.start) }
        ensures turns { IfOk result (λ config. config.turns ≡ 0) }
        ensures height { IfOk result (λ config. M.height_held config.matcher ≡ height) }
        ensures ticked { IfOk result
            (λ _. RoseBy (M.may_begin program.now program.now.start height) steps.old steps.new) }
        ensures never_falls { steps.old ≤ steps.new }
    {
        let spot = Spot::start(alloc, program)?;
        let matcher = M::begin(alloc, program, spot.state(), height, steps)?;
        Ok(Config {
            spot,
            turns: 0,
            matcher,
        })
    }
}
