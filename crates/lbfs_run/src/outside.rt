//! All that a run touches outside its own memory, as one value, so that tests give one in memory.

/// The outside of the program.
#[derive(Drop)]
pub struct Outside<S, K, D, F, N, C, R> {
    /// What it reads its input from.
    pub source: S,
    /// What it writes its output to.
    pub sink: K,
    /// The store that `serve` serves.
    pub store: D,
    /// The files that `mount` puts and gets.
    pub files: F,
    /// The network on which ends meet.
    pub network: N,
    /// The clock that both ends go by.
    pub clock: C,
    /// How the server rests.
    pub rest: R,
}
