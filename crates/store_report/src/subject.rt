//! Which file is at fault where a record breaks a rule, and the rule's words: `subject_of` and
//! `rule_text` of `specs/Report.antt`.

ghost use Rattle.std.specs.Prelude.{◌≡◌};
ghost use Rattle.store_report.specs.Report.{rule_text, subject_of};

use tree_load::rule::Rule;

/// Which file is at fault.
#[derive(Clone, Copy)]
pub enum Subject {
    /// That of the head.
    Head,
    /// That of the node with the record's id.
    Node,
    /// That of the content with the record's id.
    Content,
    /// The record's own.
    Own,
    /// The record's own, or that of its directory.
    Child,
}

/// Which file is at fault where this rule is broken: of a record that wants another, that other's.
pub fn subject_of(rule: Rule) -> Subject
    ensures { result ≡ subject_of rule }
{
    match rule {
        Rule::Headless => Subject::Head,
        Rule::NoContent => Subject::Content,
        Rule::NoFile => Subject::Node,
        Rule::HeadLimits => Subject::Own,
        Rule::SecondHead => Subject::Own,
        Rule::Id => Subject::Own,
        Rule::IdTwice => Subject::Own,
        Rule::NoDirectory => Subject::Child,
        Rule::Name => Subject::Own,
        Rule::NameTwice => Subject::Own,
        Rule::Unreached => Subject::Own,
        Rule::HasContent => Subject::Own,
        Rule::OfDirectory => Subject::Own,
        Rule::ContentTwice => Subject::Own,
        Rule::Version => Subject::Own,
        Rule::TooBig => Subject::Own,
        Rule::TreeFull => Subject::Own,
    }
}

/// What is wrong.
pub fn rule_text(rule: Rule) -> &'static str
    ensures { result.now ≡ rule_text rule }
{
    match rule {
        Rule::Headless => "is missing or unreadable",
        Rule::HeadLimits => "its numbers are past their limits",
        Rule::SecondHead => "a second one",
        Rule::Id => "its id is the root's, or not below the head's next",
        Rule::IdTwice => "another node has its id",
        Rule::NoDirectory => "its directory is missing, unreadable or a file",
        Rule::Name => "no directory may hold its name",
        Rule::NameTwice => "another node of its directory has its name",
        Rule::Unreached => "the root isn't above it",
        Rule::NoContent => "is missing or unreadable, and its file isn't",
        Rule::HasContent => "a directory with a content",
        Rule::NoFile => "is missing or unreadable, and its content isn't",
        Rule::OfDirectory => "the content of a directory",
        Rule::ContentTwice => "another content has its id",
        Rule::Version => "its version is 0, or past the head's count of changes",
        Rule::TooBig => "more bytes than a file may have",
        Rule::TreeFull => "with it there are more bytes than a tree may have",
    }
}
