use crate::config::Config;
use cep_offer::Matcher;
use cep_step::Limit;

/// What a step comes to: the configuration after it; or the one before it, unchanged, with the
/// limit that the step would pass, and the number that passes it. For an atom the number is its
/// nodes, or its depth where the nodes are within their limit; for a state its copies, or its nodes
/// where the copies are within theirs.
#[derive(Drop)]
pub enum Stepped<M: Matcher> {
    Done(Config<M>),
    Passes {
        config: Config<M>,
        limit: Limit,
        number: u64,
    },
}
