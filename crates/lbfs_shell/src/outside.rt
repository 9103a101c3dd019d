//! What a shell touches outside its own memory, but for its input and its output. All of its threads share
//! it.

/// The outside of a shell.
#[derive(Drop)]
pub struct Outside<P, H, D, C, T> {
    /// Where a person is told things.
    pub screen: P,
    /// The host's files.
    pub folders: H,
    /// What gives connections.
    pub dialler: D,
    /// The client's clock.
    pub clock: C,
    /// How it rests between two looks at how far it is.
    pub rest: T,
}
