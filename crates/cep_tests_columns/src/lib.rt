//! Tests of columns: the masks of their places, and their rows.
#![tactic(auto)]

#[cfg(test)]
mod masks;
#[cfg(test)]
mod rows;
