use cep_lines::EndWord;

/// What a run came to.
#[derive(Clone, Copy)]
pub struct Tally {
    /// Why it ended.
    pub word: EndWord,
    /// How many turns were done.
    pub turns: u32,
    /// How many offers were listed in these turns.
    pub offers: u64,
    /// How many copies the last state has.
    pub copies: u64,
}
