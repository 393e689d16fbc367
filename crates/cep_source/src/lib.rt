//! What a program's raw file declares, kind by kind, and the place of each name's first declaration.
#![tactic(auto)]

mod clauses;
mod gathering;
mod items;
mod rules;
mod source;
mod space;
mod table;
mod text;
mod variables;

pub use cep_refusal::{Fault, Reason};
pub use items::{AtomRef, ClauseRef, RawCon, RawContext, RawPred, RuleRef, TraceRef, item_at};
pub use source::Source;
pub use space::Space;
pub use text::turns_said;
pub use variables::{Variables, blanks_behind, variable_at};
