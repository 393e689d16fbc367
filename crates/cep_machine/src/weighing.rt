ghost use Rattle.std.specs.Prelude.{◌≡◌, ◌<◌, length, IfOk};
ghost use Rattle.cep_rule.specs.Matching.{offers_of};
ghost use Rattle.cep_machine.specs.Configuration.{IsConfigurationOf, spot_of};
ghost use Rattle.cep_machine.specs.Asking.{asked_offers};
ghost use Rattle.cep_machine.specs.Stepping.{IsWeighedAt};

use crate::config::Config;
use cep_offer::Matcher;
use cep_rule::Program;
use cep_rule::laws::values_are_small;
use cep_step::Weighed;
use std::alloc::{AllocError, Global};

impl<M: Matcher> Config<M> {
    /// Weighs the step by the offer at this place of a group, counted from 0, before it is done: it
    /// would pass a limit, or is a change, by which `go` goes on. The offers of the group are those
    /// that are asked, as for the group that `asked` answers. Only out of memory is refused.
    pub fn weigh(
        &self,
        alloc: Global,
        program: &Program,
        group: u32,
        i: usize,
    ) -> Result<Weighed, AllocError>
        requires of_program { IsConfigurationOf M.is_of program.now self.now }
        requires listed { group < length (M.offers_held self.now.matcher) }
        requires asked { offers_of (M.offers_held self.now.matcher) group
            ≡ asked_offers (M.offers_held self.now.matcher) self.now.stage }
        requires within { i < length (offers_of (M.offers_held self.now.matcher) group) }
        ensures { IfOk result
            (IsWeighedAt program.now (M.offers_held self.now.matcher) i (spot_of self.now)) }
    {
        values_are_small();
        let offer = self.matcher.offer(group, i);
        let rule = program.parts().rules.get(offer.rule as usize);
        self.spot.weigh(alloc, program, rule, &offer.values)
    }
}
