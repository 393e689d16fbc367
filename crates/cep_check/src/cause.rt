use cep_rule::Offer;
use cep_step::Limit;
use cep_term::Atom;

/// Why a log is not legal. Stages and rules are told by their numbers, and an atom of whose copies
/// there are other numbers than wanted is the first such in the order of atoms, over all atoms: a
/// number of 0 stands for an atom that is not there. That steps and quiescence are so is Ceptre's;
/// the limits, the heights and what a transcript says are this profile's.
#[derive(Drop)]
pub enum Cause {
    /// The stage that is said is not the program's start stage.
    StartStage {
        said: u32,
        is: u32,
    },
    /// The start listing is not the program's start state.
    StartState {
        atom: Atom,
        said: u32,
        is: u32,
    },
    /// The rule is neither one of the stage's own nor one that leaves it.
    OtherStage {
        rule: u32,
    },
    /// The state does not contain the left side of the rule's instance.
    NotContained {
        atom: Atom,
        have: u32,
        need: u32,
    },
    /// The derivation of this backward premise, counted from 1, does not prove its instance.
    NotProved {
        premise: u32,
    },
    /// It proves it, and is higher than the log's height.
    TooHigh {
        premise: u32,
        height: u64,
    },
    /// A rule leaves its stage, or quiet is said, while this offer, the first one, is there.
    NotQuiet {
        offer: Offer,
    },
    /// An atom that the step makes is not fit, or the state after it does not fit.
    OverLimit {
        limit: Limit,
    },
    /// The stage that is said is not the one that the rule names.
    StageLine {
        said: u32,
        is: u32,
    },
    /// The listing after the step, at this line, is not the state after it.
    MidState {
        line: u32,
        atom: Atom,
        said: u32,
        is: u32,
    },
    /// There is no end.
    NotEnded,
    /// The end's listing is not the last state.
    EndState {
        atom: Atom,
        said: u32,
        is: u32,
    },
}

/// What checking a log comes to: how many steps it has where it is legal, and else the first cause
/// that comes, with the line where it does.
#[derive(Drop)]
pub enum Verdict {
    Accepted { steps: u32 },
    Refused { line: u32, cause: Cause },
}
