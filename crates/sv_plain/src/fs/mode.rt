/// What a file is opened for (Bach, chapter 5.1): reading, writing, or both.
#[derive(Clone, Copy, Debug, PartialEq, Eq)]
pub enum Mode {
    R,
    W,
    RW,
}
