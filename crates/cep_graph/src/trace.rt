use cep_order::Numbers;

/// What is kept of a token that is present: the number of the step that made it, or 0 if it is of
/// the start, and the numbers of the steps that used it. Of a fact's token nobody asks who used it.
#[derive(Drop)]
pub struct Trace {
    pub maker: u32,
    pub users: Numbers,
}
