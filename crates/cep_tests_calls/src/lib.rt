//! Tests of single calls, on values that are given here: stores, terms and their texts. What the whole command does is said by the
//! cases of `cep_cases`.
#![tactic(auto)]

#[cfg(test)]
mod reading;
#[cfg(test)]
mod stores;
#[cfg(test)]
mod terms;
#[cfg(test)]
mod texts;
