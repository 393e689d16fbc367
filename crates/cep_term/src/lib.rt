//! Terms and atoms of Ceptre, their order and sizes, instances of patterns, one-sided matching, and
//! multisets of ground atoms.
//!
//! The contracts read a term as a plain tree without boxes, the values of variables as a list of
//! such trees or none, and a multiset as a finite map from atoms to counts. The laws of these that
//! other crates rest on are the contracts of the functions in `laws`. Recursion goes down a term and
//! its arguments alone, and an atom of a multiset is found by halving.
#![tactic(auto)]

mod atoms;
mod bag;
mod binding;
mod blocks;
mod comparing;
mod copying;
mod entries;
pub mod laws;
mod matching;
mod measure;
mod term;
mod terms;

pub use atoms::AtomList;
pub use bag::Bag;
pub use binding::{Binding, apply};
pub use comparing::{order, order_term, same};
pub use copying::{copy, copy_term};
pub use entries::Missing;
pub use matching::meet;
pub use measure::{depth, nodes};
pub use term::{Args, ArgsCell, Atom, Term};
pub use terms::Terms;
