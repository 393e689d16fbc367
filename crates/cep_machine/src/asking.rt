ghost use Rattle.std.specs.Prelude.{◌≡◌, ◌↔◌, ◌<◌, [], length, IfSome, IsNone, MatchOption};
ghost use Rattle.cep_rule.specs.declared.parts.Parts.{Parts};
ghost use Rattle.cep_base.specs.declared.limits.TheConstants.{MOST_STAGES};
ghost use Rattle.cep_rule.specs.Stages.{leaving_group, IsAsked, IsQuiet};
ghost use Rattle.cep_rule.specs.Matching.{offers_of};
ghost use Rattle.cep_machine.specs.Configuration.{IsConfigurationOf};
ghost use Rattle.cep_machine.specs.Asking.{asked_offers, IsAskedIn};

use crate::config::Config;
use cep_offer::Matcher;

impl<M: Matcher> Config<M> {
    /// The group that is asked, as Ceptre's stages do: that of the stage's own rules where one of
    /// them applies, and else that of the rules that leave the stage where one of those does.
    /// `None` comes if and only if the configuration is quiet. It takes no memory.
    pub fn asked(&self) -> Option<u32>
        ensures asked { (program : Parts)
            → IsConfigurationOf M.is_of program self.now
            → IfSome result
            (IsAsked program (M.height_held self.now.matcher) self.now.state self.now.stage) }
        ensures quiet { (program : Parts)
            → IsConfigurationOf M.is_of program self.now
            → (IsNone result
            ↔ IsQuiet program (M.height_held self.now.matcher) self.now.state self.now.stage) }
        ensures listed { MatchOption result
            (asked_offers (M.offers_held self.now.matcher) self.now.stage ≡ [])
            (IsAskedIn (M.offers_held self.now.matcher) self.now.stage) }
        ensures offers { IfSome result (λ group. offers_of (M.offers_held self.now.matcher) group
            ≡ asked_offers (M.offers_held self.now.matcher) self.now.stage) }
    {
        asked_in(&self.matcher, self.spot.stage())
    }
}

// The group that the stage asks by the lists of the matcher.
fn asked_in<M: Matcher>(matcher: &M, stage: u32) -> Option<u32>
    requires listed { leaving_group stage < length (M.offers_held matcher.now) }
    requires low { stage < MOST_STAGES }
    ensures listed { MatchOption result
        (asked_offers (M.offers_held matcher.now) stage ≡ [])
        (IsAskedIn (M.offers_held matcher.now) stage) }
    ensures offers { IfSome result (λ group. offers_of (M.offers_held matcher.now) group
        ≡ asked_offers (M.offers_held matcher.now) stage) }
{
    let own = 2 * stage;
    if matcher.count(own) > 0 {
        Some(own)
    } else if matcher.count(own + 1) > 0 {
        Some(own + 1)
    } else {
        None
    }
}
