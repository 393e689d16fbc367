use cep_base::Text;

/// What doing the steps of a log in another order comes to.
#[derive(Drop)]
pub enum Reordered {
    /// The text in version 2 of the log in that order.
    Done(Text),
    /// A step leads to a state that does not fit. This is the first such one, by its number in the
    /// order, counted from 1. The limits of a state are this profile's.
    Unfit { at: u32 },
    /// That text has more than 67,108,864 bytes, which is the limit of a transcript.
    TooLong,
}
