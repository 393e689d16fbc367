use crate::listing::Haves;
use crate::proofs::Proofs;
use cep_base::List;
use cep_lines::{EndWord, Version};
use cep_rule::Offer;

/// The content of a transcript: its header, the start state as it is listed, the steps, and how it
/// ends where it has an end. Lines are numbered from 1, and a line that is passed over counts too.
/// Contracts see a log as the record of its fields, each listing as a list of atoms with their
/// counts, and each derivation as its tree. `IsLogOf` says which logs are of a program, and
/// `IsLegal` which of these are legal.
pub struct Log {
    pub version: Version,
    /// How high a derivation may be.
    pub height: u32,
    /// The line of the header that names the stage.
    pub stage_line: u32,
    /// The stage that the header names.
    pub stage: u32,
    /// The listing of the start state.
    pub start: Haves,
    pub steps: LogSteps,
    /// None where the transcript stops after the start listing or after a whole step.
    pub end: Option<LogEnd>,
    /// How many lines the transcript has, those that are passed over included.
    pub lines: u32,
}

// Written out: what holds one drops it by one call.
impl Drop for Log {
    fn drop(self) {
        let Log {
            version: _,
            height: _,
            stage_line: _,
            stage: _,
            start,
            steps,
            end,
            lines: _,
        } = self;
        drop(start);
        drop(steps);
        drop(end);
    }
}

/// The steps of a log, in order.
pub type LogSteps = List<LogStep>;

/// A step of a log: the number of its line, the offer, a derivation for each backward premise of the
/// offer's rule, the stage that is written below it, which stands there if and only if the rule
/// leaves a stage, and the listing of the state after it, which stands there if and only if the
/// version lists it.
pub struct LogStep {
    pub line: u32,
    pub offer: Offer,
    pub proofs: Proofs,
    pub stage: Option<u32>,
    pub mid: Option<LogMid>,
}

// Written out: what holds one drops it by one call.
impl Drop for LogStep {
    fn drop(self) {
        let LogStep {
            line: _,
            offer,
            proofs,
            stage: _,
            mid,
        } = self;
        drop(offer);
        drop(proofs);
        drop(mid);
    }
}

/// A listing after a step: the number of its first line, and what it lists.
pub struct LogMid {
    pub line: u32,
    pub state: Haves,
}

// Written out: what holds one drops it by one call.
impl Drop for LogMid {
    fn drop(self) {
        let LogMid { line: _, state } = self;
        drop(state);
    }
}

/// The end of a log: the number of its line, the word, and the listing of the last state.
pub struct LogEnd {
    pub line: u32,
    pub word: EndWord,
    pub state: Haves,
}

// Written out: what holds one drops it by one call.
impl Drop for LogEnd {
    fn drop(self) {
        let LogEnd {
            line: _,
            word,
            state,
        } = self;
        drop(word);
        drop(state);
    }
}
