//! The canonical texts of terms, atoms, offers and derivations. `specs/` says what they are, over
//! plain trees; the writers add them to a text, and the readers read these texts and no others,
//! within the sizes of what is kept, by the vocabulary of a program. No text is the text of two
//! values: that is the law in `laws`.
//! Recursion goes down a term and its arguments, or a derivation and its goals, alone.
#![tactic(auto)]

mod derivations;
pub mod laws;
mod name_table;
mod offers;
mod read_offers;
mod read_proofs;
mod read_terms;
mod stop;
mod terms;
mod values;
mod vocabulary;
mod words;

pub use derivations::put_proof;
pub use offers::put_offer;
pub use read_offers::read_offer;
pub use read_proofs::read_proof;
pub use read_terms::{read_atom, read_term};
pub use terms::{put_atom, put_term};
pub use vocabulary::Vocabulary;
