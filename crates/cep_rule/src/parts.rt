use crate::clause::Clauses;
use crate::rule::Rules;
use crate::signature::Signature;
use cep_base::{List, Name};
use cep_term::Bag;

/// A stage of Ceptre, whose own rules run until none applies. In an interactive one the player
/// chooses.
#[derive(Drop)]
pub struct Stage {
    pub name: Name,
    pub interactive: bool,
}

/// A list of stages.
pub type Stages = List<Stage>;

/// What a program is made of. Stages, rules and clauses are numbered in written order, from 0. The
/// rules of stage k are those of group 2k, and those that leave it at quiescence are those of group
/// 2k + 1; this numbering is this profile's. A program may say how many turns are done at most.
pub struct Parts {
    pub signature: Signature,
    pub stages: Stages,
    pub rules: Rules,
    pub clauses: Clauses,
    pub start_stage: u32,
    pub start: Bag,
    pub turns: Option<u32>,
}

// Written out: what holds one drops it by one call.
impl Drop for Parts {
    fn drop(self) {
        let Parts {
            signature,
            stages,
            rules,
            clauses,
            start_stage: _,
            start,
            turns: _,
        } = self;
        drop(signature);
        drop(stages);
        drop(rules);
        drop(clauses);
        drop(start);
    }
}
