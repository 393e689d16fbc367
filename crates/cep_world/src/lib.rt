//! Generated worlds: the text of a program that is as large as a number says, with rooms in a ring,
//! walkers that go through them, and goods that lie about. The worlds are this project's own, and no
//! part of Ceptre.
#![tactic(auto)]

mod pieces;
mod world;

pub use world::world_text;
