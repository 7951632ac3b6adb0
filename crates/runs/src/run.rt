//! One run.

/// Equal marks side by side: the mark, and the count of positions up to the end of the run.
#[derive(Clone, Copy)]
pub struct Run<M> {
    pub mark: M,
    pub end: u64,
}
