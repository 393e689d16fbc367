/// A rule that breaks a claim, by its number, with its left and its right sum.
#[derive(Clone, Copy, PartialEq, Eq)]
pub struct Against {
    pub rule: u32,
    pub left: i64,
    pub right: i64,
}
