//! Tests of configurations: how many partial matches stand in the network while atoms come and go, many turns by which nothing is found,
//! and the numbers by which steps pass limits.
#![tactic(auto)]

#[cfg(test)]
mod alone;
#[cfg(test)]
mod numbers;
#[cfg(test)]
mod standing;
#[cfg(test)]
mod turns;
