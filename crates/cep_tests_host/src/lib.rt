//! Tests of the outside and of what comes from there: the adapters over the real system, their fakes, what a seed draws, and generated
//! worlds.
#![tactic(auto)]

#[cfg(test)]
mod adapters;
#[cfg(test)]
mod draws;
#[cfg(test)]
mod fakes;
#[cfg(test)]
mod worlds;
