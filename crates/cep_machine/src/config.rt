ghost use Rattle.std.specs.Prelude.{◌≡◌, ℕ, ◌*◌, ◌+◌, ◌<◌, length};
ghost use Rattle.cep_base.specs.declared.limits.TheConstants.{MOST_STAGES};

use cep_offer::Matcher;
use cep_step::Spot;
use cep_term::Bag;
use std::marker::Model;

/// A configuration of a program: a stage by its number, a state, and how many turns are done, with
/// the matcher of that state. Ceptre's semantics goes from one to the next; the matcher and the
/// turns are this profile's. It keeps no program: that it is of one is said of the two.
#[derive(Drop)]
pub struct Config<M: Matcher> {
    pub(crate) spot: Spot,
    pub(crate) turns: u32,
    pub(crate) matcher: M,
}

impl<M: Matcher> Model for Config<M> {
    ghost use Rattle.std.specs.Prelude.{◌≡◌, ◌+◌, ◌<◌, length};
    ghost use Rattle.cep_term.specs.Multiset.{nodes_in_all};
    ghost use Rattle.cep_rule.specs.Stages.{leaving_group};
    ghost use Rattle.cep_machine.specs.Configuration.{Configuration, configuration_code, HoldsSpot};

    ghost Value = { Configuration M };

    ghost coded = { configuration_code M.code };

    ghost view = { λ config. record {
      stage = config.spot.stage;
      state = config.spot.state;
      turns = config.turns;
      matcher = config.matcher;
    } };

    ghost invariant = { λ config. HoldsSpot config.spot (M.state_held config.matcher)
        (length (M.offers_held config.matcher)) };
}

impl<M: Matcher> Config<M> {
    /// The stage, by its number.
    pub fn stage(&self) -> u32
        ensures { result ≡ self.now.stage }
    {
        self.spot.stage()
    }

    /// The state.
    pub fn state(&self) -> &Bag
        ensures { result.now ≡ self.now.state }
    {
        self.spot.state()
    }

    /// How many turns are done.
    pub fn turns(&self) -> u32
        ensures { result ≡ self.now.turns }
    {
        self.turns
    }

    /// The matcher of the state. It has a list for each of the two groups of the stage.
    pub fn matcher(&self) -> &M
        ensures matcher { result.now ≡ self.now.matcher }
        ensures same_state { M.state_held self.now.matcher ≡ self.now.state }
        ensures listed { 2 * self.now.stage + 1 < length (M.offers_held self.now.matcher) }
    {
        &self.matcher
    }
}
