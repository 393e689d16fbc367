/// A place in a text. Lines and columns count from 1, and columns count bytes.
#[derive(Clone, Copy, PartialEq, Eq)]
pub struct Pos {
    pub line: u32,
    pub col: u32,
}
