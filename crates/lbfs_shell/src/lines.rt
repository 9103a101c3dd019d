//! What a line of the input says, and what is said of one that isn't done.

ghost use Rattle.std.specs.Prelude.{◌≡◌, [], IfErr, None, Ok};
ghost use Rattle.exit_status.specs.declared.shell_end.ShellEnd.TheVariants as ends;

use crate::saying::Flow;
use command_text::parts::first_part;
use exit_status::shell_end::ShellEnd;
use lb_base::items::{Items, Name};
use shell_telling::telling::line_text;
use shell_walks::screen::Screen;
use shell_walks::telling::{mistake_words, note_line};
use shell_words::command::{Line, Verb, verb_of, wrong_option};
use shell_words::mistake::{Mistake, ReadError};
use shell_words::words::{without_blanks, words_of};
use std::alloc::{AllocError, Global};

/// What the words of a command say; none where there are none.
#[tactic(auto, using(crate::proofs::Causes::said_nothing))]
pub(crate) fn command_of(alloc: Global, words: &[Name]) -> Result<Option<Line>, ReadError>
    ensures { result ≡ Ok None → words.now ≡ [] }
{
    Line::read(alloc, words)
}

/// The words that a line begins with, where it isn't read: its first one, if that can be.
fn front_words(alloc: Global, text: &[u8]) -> Result<Items<Name>, ReadError> {
    let (front, _rest) = first_part(b' ', without_blanks(text));
    let (front, _rest) = first_part(b'\t', front);
    match words_of(alloc, front) {
        Ok(words) => Ok(words),
        Err(ReadError::Mistaken(_)) => Ok(Items::new(alloc)),
        Err(ReadError::Memory) => Err(ReadError::Memory),
    }
}

/// The first of these words, if there is one.
fn first_word(words: &[Name]) -> &[u8] {
    match words.first() {
        Some(word) => word.as_slice(),
        None => b"",
    }
}

/// The first option that a command hasn't, where words say one.
fn option_of(words: &[Name]) -> &[u8] {
    let [first, rest @ ..] = words else {
        return b"";
    };
    let Some(verb) = verb_of(first.as_slice()) else {
        return b"";
    };
    match wrong_option(verb, rest) {
        Some(word) => word,
        None => b"",
    }
}

/// The word at fault: the option that isn't there, else the first one.
pub(crate) fn word_at_fault(words: &[Name], mistake: Mistake) -> &[u8] {
    match mistake {
        Mistake::BadOption => option_of(words),
        _ => first_word(words),
    }
}

/// What is said of a line that isn't done.
#[derive(Drop)]
pub(crate) struct About {
    /// Its number, from 1.
    pub(crate) number: u64,
    /// The word that is named: its first one, or the option at fault.
    pub(crate) word: Name,
    /// Whether it leads elsewhere (`cd`, `lcd`): without it the lines behind it are done where they aren't meant.
    pub(crate) leads: bool,
}

/// Whether a line that begins so leads elsewhere. Of one whose first word can't be read nobody knows.
fn leads_elsewhere(first: &[u8]) -> bool {
    first.is_empty() || matches!(verb_of(first), Some(Verb::Cd | Verb::Lcd))
}

/// What a line says; none where it says nothing.
pub(crate) fn line_of(
    alloc: Global,
    text: &[u8],
    about: &mut About,
) -> Result<Option<Line>, ReadError> {
    let words = match words_of(alloc, text) {
        Ok(words) => words,
        Err(error) => {
            let words = front_words(alloc, text)?;
            about.word = Name::copy_of(alloc, first_word(words.as_slice()))?;
            about.leads = leads_elsewhere(about.word.as_slice());
            return Err(error);
        }
    };
    let read = command_of(alloc, words.as_slice());
    let word = match &read {
        Err(ReadError::Mistaken(mistake)) => word_at_fault(words.as_slice(), *mistake),
        _ => first_word(words.as_slice()),
    };
    about.word = Name::copy_of(alloc, word)?;
    about.leads = leads_elsewhere(first_word(words.as_slice()));
    read
}

/// These words are said of a line.
fn say_of<P: Screen>(alloc: Global, screen: &P, about: &About, words: &[u8]) -> Result<(), ShellEnd>
    ensures { IfErr result (λ e. e ≡ ends.Memory) }
{
    let Ok(line) = line_text(alloc, about.number, about.word.as_slice()) else {
        return Err(ShellEnd::Memory);
    };
    match note_line(alloc, line.as_slice(), words) {
        Ok(note) => {
            screen.say(note.as_slice());
            Ok(())
        }
        Err(AllocError) => Err(ShellEnd::Memory),
    }
}

/// What is said of a line that wasn't done, behind what is said of the names in it.
const UNDONE: &[u8] = b"not done, or not wholly";

/// The same of one that leads elsewhere.
const ASTRAY: &[u8] = b"not done, so no line behind it is begun";

/// Which line wasn't done is said, unless lines are typed: who types sees it, and where the shell stands.
pub(crate) fn say_undone<P: Screen>(
    alloc: Global,
    screen: &P,
    about: &About,
) -> Result<Flow, ShellEnd>
    ensures { IfErr result (λ e. e ≡ ends.Memory) }
{
    if screen.is_typed() {
        return Ok(Flow::Undone);
    }
    if about.leads {
        say_of(alloc, screen, about, ASTRAY)?;
        return Ok(Flow::Astray);
    }
    say_of(alloc, screen, about, UNDONE)?;
    Ok(Flow::Undone)
}

/// What is wrong with a line is said. Where that was to lead elsewhere, and isn't typed, no more is begun.
pub(crate) fn say_mistake<P: Screen>(
    alloc: Global,
    screen: &P,
    about: &About,
    mistake: Mistake,
) -> Result<Flow, ShellEnd>
    ensures { IfErr result (λ e. e ≡ ends.Memory) }
{
    say_of(alloc, screen, about, mistake_words(mistake))?;
    if about.leads {
        say_undone(alloc, screen, about)
    } else {
        Ok(Flow::Undone)
    }
}
