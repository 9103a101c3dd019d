//! The rules of records, by what is wrong where one isn't kept: `specs/Rules.antt`.

/// What is wrong with a record.
#[derive(Clone, Copy)]
pub enum Rule {
    /// The first record is no head.
    Headless,
    /// The head's numbers are past their limits.
    HeadLimits,
    /// A head that isn't the first record.
    SecondHead,
    /// The node's id is the root's, or isn't below the head's next.
    Id,
    /// A node before it has its id.
    IdTwice,
    /// Its directory isn't there, or is a file.
    NoDirectory,
    /// No directory may hold its name.
    Name,
    /// A node of its directory before it has its name.
    NameTwice,
    /// The root isn't above it.
    Unreached,
    /// It is a file, and has no content.
    NoContent,
    /// It is a directory, and a content before it has its id.
    HasContent,
    /// The content's file isn't there.
    NoFile,
    /// What has the content's id is a directory.
    OfDirectory,
    /// A content before it has its id.
    ContentTwice,
    /// Its version is 0, or past the head's count of changes.
    Version,
    /// It has more bytes than a file may have.
    TooBig,
    /// With it the contents have more bytes than those of a tree may have.
    TreeFull,
}

/// A record that breaks a rule, by its number, and the first rule that it breaks.
#[derive(Clone, Copy)]
pub struct Broken {
    pub which: usize,
    pub rule: Rule,
}
