ghost use Rattle.std.specs.Prelude.{◌≡◌, ◌<◌, ◌≤◌, List, length, IfOk};
ghost use Rattle.cep_base.specs.declared.limits.TheConstants.{MOST_TURNS};
ghost use Rattle.cep_term.specs.Tree.{Tree};
ghost use Rattle.cep_term.specs.Multiset.{gathered};
ghost use Rattle.cep_rule.specs.declared.rule.Rule.{Rule};
ghost use Rattle.cep_rule.specs.Instances.{taken_by, added_by};
ghost use Rattle.cep_machine.specs.Configuration.{IsConfigurationOf};
ghost use Rattle.cep_machine.specs.Asking.{asked_offers};
ghost use Rattle.cep_machine.specs.Stepping.{IsAskedAt, IsStepped, config_after, RoseIfDone};

use crate::config::Config;
use crate::stepped::Stepped;
use cep_base::Steps;
use cep_offer::Matcher;
use cep_rule::Program;
use cep_step::Weighed;
use std::alloc::{AllocError, Global};
use std::sync::ledger::Ledger;

impl<M: Matcher> Config<M> {
    /// Does a step by the offer at this place of the group that is asked, counted from 0, or says
    /// which limit it would pass. A step is Ceptre's; the limits are this profile's. Fewer than
    /// 1,000,000 turns may be done before. The matcher is told of the linear premises as taken
    /// that are not kept, and as added of the right atoms in written order; it ticks no more than if
    /// it were told of the kept ones too. Only out of memory is refused, and then the configuration is gone.
    pub fn step<L: Ledger>(
        self,
        alloc: Global,
        program: &Program,
        i: usize,
        steps: &mut Steps<L>,
    ) -> Result<Stepped<M>, AllocError>
        requires of_program { IsConfigurationOf M.is_of program.now self }
        requires within { i < length (asked_offers (M.offers_held self.matcher) self.stage) }
        requires turns { self.turns < MOST_TURNS }
        ensures stepped { (rule : Rule) (values : List Tree)
            → IsAskedAt program.now (M.offers_held self.matcher) self.stage i rule values
            → IfOk result (IsStepped program.now rule values self) }
        ensures ticked { (rule : Rule) (values : List Tree)
            → IsAskedAt program.now (M.offers_held self.matcher) self.stage i rule values
            → IfOk result (λ stepped. RoseIfDone
            (M.may_edit program.now self.state (M.height_held self.matcher)
            (gathered (taken_by program.now.signature rule values))
            (added_by program.now.signature rule values))
            stepped steps.old steps.new) }
        ensures of_program { IfOk result
            (λ stepped. IsConfigurationOf M.is_of program.now (config_after stepped)) }
        ensures same_height { IfOk result (λ stepped. M.height_held (config_after stepped).matcher
            ≡ M.height_held self.matcher) }
        ensures never_falls { steps.old ≤ steps.new }
    {
        M::kept_premises_cost_nothing();
        let group = self.asked().unwrap();
        match self.weigh(alloc, program, group, i)? {
            Weighed::Passes(limit, number) => Ok(Stepped::Passes {
                config: self,
                limit,
                number,
            }),
            Weighed::Within(change) => Ok(Stepped::Done(self.go(alloc, program, &change, steps)?)),
        }
    }
}
