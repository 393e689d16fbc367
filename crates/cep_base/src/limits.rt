//! The limits of programs, of their text and of their runs. All of them are this profile's, and
//! none is Ceptre's.

/// The most bytes of a program's text.
pub const MOST_TEXT: usize = 1_048_576;

/// The most bytes of a name, a variable or a directive, whose `#` counts.
pub const MOST_NAME: usize = 255;

/// The most parentheses that are open at once.
pub const MOST_OPEN: u32 = 512;

/// The most types of a program. A text of the greatest length has fewer.
pub const MOST_SORTS: usize = 1_048_576;

/// The most constructors of a program.
pub const MOST_CONS: usize = 65_536;

/// The most predicates of a program.
pub const MOST_PREDS: usize = 1_024;

/// The most stages of a program. A text of the greatest length has fewer.
pub const MOST_STAGES: usize = 1_048_576;

/// The most rules of a program, those that change the stage included.
pub const MOST_RULES: usize = 4_096;

/// The most clauses of a program.
pub const MOST_CLAUSES: usize = 4_096;

/// The most arguments of a constructor or a predicate.
pub const MOST_ARGUMENTS: usize = 8;

/// The most variables of a rule or a clause.
pub const MOST_VARIABLES: usize = 32;

/// The most linear premises of a rule.
pub const MOST_PREMISES: usize = 16;

/// The most backward premises of a rule.
pub const MOST_BACKS: usize = 8;

/// The most atoms on the right side of a rule.
pub const MOST_RIGHT: usize = 32;

/// The most goals of a clause.
pub const MOST_GOALS: usize = 8;

/// The most nodes of an atom of a rule or a clause. A text of the greatest length has fewer.
pub const MOST_PATTERN_NODES: u64 = 1_048_576;

/// The most nodes of an atom of a state or a derivation, its own included.
pub const MOST_NODES: u64 = 65_536;

/// The most levels of such an atom.
pub const MOST_DEPTH: u64 = 512;

/// The most levels of a derivation.
pub const MOST_HEIGHT: u32 = 512;

/// The most levels of a derivation where nothing else is asked for.
pub const DEFAULT_HEIGHT: u32 = 128;

/// The most turns that a run may be given.
pub const MOST_TURNS: u32 = 1_000_000;

/// The most turns of a run where neither the words nor the program say how many.
pub const DEFAULT_TURNS: u32 = 10_000;

/// The seed of a run where nothing else is asked for.
pub const DEFAULT_SEED: u64 = 42;

/// The most copies of atoms in a state.
pub const MOST_COPIES: u64 = 100_000;

/// The most nodes in a state, each copy counted.
pub const MOST_STATE_NODES: u64 = 4_194_304;

/// The most offers of one turn.
pub const MOST_OFFERS: usize = 65_536;

/// The most bytes that are taken of the typed input of a run.
pub const MOST_TYPED: u64 = 16_777_216;

/// The most bytes of a transcript.
pub const MOST_LOG: usize = 67_108_864;

/// The most rooms of a generated world.
pub const MOST_WORLD: u32 = 5_000;
