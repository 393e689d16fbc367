ghost use Rattle.std.specs.Prelude.{◌≡◌, unwrap_or};
ghost use Rattle.cep_step.specs.Changes.{gains_of};

use cep_rule::AtomList;
use cep_term::Bag;

/// What a step does: the atoms that it takes, which are the linear premises that are not kept; those
/// that it adds, which are the right atoms in written order; those of them that the state gains,
/// since a fact that is there is not added again; how many nodes the state after it has; and the
/// stage after it. A step is Ceptre's; that premises which are kept are neither taken nor added is
/// this profile's way to do it. Where the state gains all that is added, `gains` is `None`, and
/// nothing is listed twice.
#[derive(Drop)]
pub struct Change {
    pub taken: Bag,
    pub added: AtomList,
    pub gains: Option<AtomList>,
    pub nodes: u64,
    pub stage: u32,
}

impl Change {
    // The atoms that the state gains.
    pub(crate) fn gains(&self) -> &AtomList
        ensures { result.now ≡ gains_of self.now }
    {
        listed_or(&self.gains, &self.added)
    }
}

// The atoms that are listed, or else all.
pub(crate) fn listed_or<'a>(listed: &'a Option<AtomList>, all: &'a AtomList) -> &'a AtomList
    ensures { result.now ≡ unwrap_or listed.now all.now }
{
    match listed {
        Some(atoms) => atoms,
        None => all,
    }
}
