//! The person before a shell: where what isn't its output is said, and whether there is one.

/// Where a person is told things, from several threads at once.
pub trait Screen {
    /// Whether what is said is looked at as it comes.
    fn is_watched(&self) -> bool;

    /// Whether the shell's lines are typed.
    fn is_typed(&self) -> bool;

    /// Says something. Where it can't be said nobody is there to be told.
    fn say(&self, text: &[u8]);
}
