/// What holds for a whole run: how many levels a derivation may have, how many turns are done at
/// most, and the seed of what nobody chooses.
#[derive(Clone, Copy)]
pub struct Settings {
    pub height: u32,
    pub limit: u32,
    pub seed: u64,
}
