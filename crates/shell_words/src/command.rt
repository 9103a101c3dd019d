//! The commands of a shell: `command_of` of `specs/Commands.antt`.

ghost use Rattle.std.specs.Prelude.{◌≡◌, IfOk, option_copied};
ghost use Rattle.std.specs.List.{list_any};
ghost use Rattle.shell_words.specs.Commands.{is_nothing, verb_of, is_option_of, is_later_of, least_of, most_of, missing, kind_of, kind_in, has_options, operands_of, wrong_option, refused, counted};
ghost use Rattle.shell_words.specs.Commands.{line_at, asks_help, help_of, line_of, command_of};
ghost use Rattle.shell_words.specs.Giving.{Gives};

use crate::mistake::{Mistake, ReadError};
use command_text::words::is;
use lb_base::items::{Items, Name};
use std::alloc::{AllocError, Global};

/// A command.
#[derive(Clone, Copy)]
pub enum Verb {
    /// `ls [-l] [PATH]`: lists a directory.
    Ls,
    /// `cd [PATH]`: goes to a directory of the server.
    Cd,
    /// `pwd`: says where that is.
    Pwd,
    /// `lcd [LOCAL]`: goes to a folder of the host, or says which it is.
    Lcd,
    /// `get [-r] PATH [LOCAL]`: fetches a file, or with `-r` a directory.
    Get,
    /// `put [-r] LOCAL [PATH]`: stores a file, or with `-r` a folder.
    Put,
    /// `mkdir [-p] PATH`: makes a directory, with `-p` those above it too.
    Mkdir,
    /// `rm [-r] PATH`: removes a file, or with `-r` a directory with all that is in it.
    Rm,
    /// `rmdir PATH`: removes an empty directory.
    Rmdir,
    /// `mv PATH PATH`: gives a file or a directory another name.
    Mv,
    /// `stat PATH`: says what a name stands for.
    Stat,
    /// `cat PATH`: writes what is in a file.
    Cat,
    /// `sync [--delete] LOCAL PATH`: stores what differs in a folder.
    Sync,
    /// `help [COMMAND]`: says what there is.
    Help,
    /// `bye`, `quit` or `exit`: ends the shell.
    Bye,
}

/// What a line says.
#[derive(Drop)]
pub struct Line {
    pub verb: Verb,
    /// Whether the command's option stands among its words.
    pub has_option: bool,
    /// The others, as many as the command takes.
    pub operands: Items<Name>,
}

/// What a word behind a command is, where no `--` stands before it.
#[derive(Clone, Copy)]
pub enum Kind {
    /// `--`, behind which all words are operands.
    Mark,
    /// An option, of this command or not.
    Option,
    /// An operand.
    Operand,
}

/// The command of a word.
pub fn verb_of(word: &[u8]) -> Option<Verb>
    ensures { result ≡ verb_of word.now }
{
    if is(word, b"ls") {
        Some(Verb::Ls)
    } else if is(word, b"cd") {
        Some(Verb::Cd)
    } else if is(word, b"pwd") {
        Some(Verb::Pwd)
    } else if is(word, b"lcd") {
        Some(Verb::Lcd)
    } else if is(word, b"get") {
        Some(Verb::Get)
    } else if is(word, b"put") {
        Some(Verb::Put)
    } else if is(word, b"mkdir") {
        Some(Verb::Mkdir)
    } else if is(word, b"rm") {
        Some(Verb::Rm)
    } else if is(word, b"rmdir") {
        Some(Verb::Rmdir)
    } else if is(word, b"mv") {
        Some(Verb::Mv)
    } else if is(word, b"stat") {
        Some(Verb::Stat)
    } else if is(word, b"cat") {
        Some(Verb::Cat)
    } else if is(word, b"sync") {
        Some(Verb::Sync)
    } else if is(word, b"help") {
        Some(Verb::Help)
    } else if is(word, b"bye") || is(word, b"quit") || is(word, b"exit") {
        Some(Verb::Bye)
    } else {
        None
    }
}

impl Verb {
    /// Whether a word is the command's option.
    fn has(self, word: &[u8]) -> bool
        ensures { result ≡ is_option_of self word.now }
    {
        match self {
            Verb::Ls => is(word, b"-l"),
            Verb::Get => is(word, b"-r"),
            Verb::Put => is(word, b"-r"),
            Verb::Rm => is(word, b"-r"),
            Verb::Mkdir => is(word, b"-p"),
            Verb::Sync => is(word, b"--delete"),
            _ => false,
        }
    }

    /// Whether a word is an option that the command is to have, once servers have a call for it.
    fn awaits(self, word: &[u8]) -> bool
        ensures { result ≡ is_later_of self word.now }
    {
        match self {
            Verb::Put => is(word, b"--if-version"),
            _ => false,
        }
    }

    /// What is wrong with an option that it hasn't.
    fn refused(self, word: &[u8]) -> Mistake
        ensures { result ≡ refused self word.now }
    {
        if self.awaits(word) {
            Mistake::NoVersions
        } else {
            Mistake::BadOption
        }
    }

    /// How many operands it has at least.
    fn least(self) -> usize
        ensures { result ≡ least_of self }
    {
        match self {
            Verb::Get | Verb::Put | Verb::Mkdir | Verb::Rm | Verb::Rmdir | Verb::Stat | Verb::Cat =>
                { 1 }
            Verb::Mv | Verb::Sync => 2,
            _ => 0,
        }
    }

    /// How many operands it has at most.
    fn most(self) -> usize
        ensures { result ≡ most_of self }
    {
        match self {
            Verb::Pwd | Verb::Bye => 0,
            Verb::Get | Verb::Put | Verb::Mv | Verb::Sync => 2,
            _ => 1,
        }
    }
}

/// What a command wants that has so many operands, fewer than it takes.
fn missing(verb: Verb, count: usize) -> Mistake
    ensures { result ≡ missing verb count }
{
    match verb {
        Verb::Put => Mistake::NoLocal,
        Verb::Sync if count == 0 => Mistake::NoLocal,
        Verb::Mv if count == 1 => Mistake::NoSecondPath,
        _ => Mistake::NoPath,
    }
}

/// What a word is.
fn kind_of(word: &[u8]) -> Kind
    ensures { result ≡ kind_of word.now }
{
    if is(word, b"--") {
        Kind::Mark
    } else if word.len() > 1 && word.starts_with(b"-") {
        Kind::Option
    } else {
        Kind::Operand
    }
}

/// What a word is, where `--` may stand before it.
fn kind_in(is_over: bool, word: &[u8]) -> Kind
    ensures { result ≡ kind_in is_over word.now }
{
    if is_over {
        Kind::Operand
    } else {
        kind_of(word)
    }
}

/// The first option among the words behind a command that it hasn't, if there is one.
pub fn wrong_option(verb: Verb, words: &[Name]) -> Option<&[u8]>
    ensures { option_copied result ≡ wrong_option verb words.now }
{
    for word in words {
        match kind_of(word.as_slice()) {
            Kind::Mark => return None,
            Kind::Option => {
                if !verb.has(word.as_slice()) {
                    return Some(word.as_slice());
                }
            }
            Kind::Operand => {}
        }
    }
    None
}

/// Whether there is an option among the words behind a command.
fn has_options(words: &[Name]) -> bool
    ensures { result ≡ has_options words.now }
{
    for word in words {
        match kind_of(word.as_slice()) {
            Kind::Mark => return false,
            Kind::Option => return true,
            Kind::Operand => {}
        }
    }
    false
}

/// The operands among the words behind a command.
fn operands_of(alloc: Global, words: &[Name]) -> Result<Items<Name>, AllocError>
    ensures { IfOk result (λ operands. operands ≡ operands_of words.now) }
{
    let mut operands = Items::new(alloc);
    let mut is_over = false;
    for word in words {
        match kind_in(is_over, word.as_slice()) {
            Kind::Mark => is_over = true,
            Kind::Option => {}
            Kind::Operand => operands.push(word.try_clone(alloc)?)?,
        }
    }
    Ok(operands)
}

/// Whether there is a word without a byte.
fn has_empty(words: &[Name]) -> bool
    ensures { result ≡ list_any is_nothing words.now }
{
    for word in words {
        if word.len() == 0 {
            return true;
        }
    }
    false
}

/// A line with these operands, where they are as many as the command takes, and each names something.
fn counted(verb: Verb, has_option: bool, operands: Items<Name>) -> Result<Line, Mistake>
    ensures { result ≡ counted verb has_option operands }
{
    if operands.len() < verb.least() {
        Err(missing(verb, operands.len()))
    } else if verb.most() < operands.len() {
        Err(Mistake::TooMany)
    } else if has_empty(operands.as_slice()) {
        Err(Mistake::NoName)
    } else {
        Ok(Line {
            verb,
            has_option,
            operands,
        })
    }
}

/// What words say behind a command that has all of their options.
fn said(alloc: Global, verb: Verb, words: &[Name]) -> Result<Line, ReadError>
    ensures { Gives result (line_at verb None words.now) }
{
    let operands = operands_of(alloc, words)?;
    match counted(verb, has_options(words), operands) {
        Ok(line) => Ok(line),
        Err(mistake) => Err(ReadError::Mistaken(mistake)),
    }
}

/// What words say behind a command.
fn line_at(alloc: Global, verb: Verb, words: &[Name]) -> Result<Line, ReadError>
    ensures { Gives result (line_at verb (wrong_option verb words.now) words.now) }
{
    match wrong_option(verb, words) {
        Some(word) => Err(ReadError::Mistaken(verb.refused(word))),
        None => said(alloc, verb, words),
    }
}

/// Whether words behind a command ask what it does: `--help`.
fn asks_help(words: &[Name]) -> bool
    ensures { result ≡ asks_help words.now }
{
    match words {
        [word] => is(word.as_slice(), b"--help"),
        _ => false,
    }
}

/// `help`, of this command.
fn help_of(alloc: Global, command: &[u8]) -> Result<Line, AllocError>
    ensures { IfOk result (λ line. line ≡ help_of command.now) }
{
    let mut operands = Items::new(alloc);
    operands.push(Name::copy_of(alloc, command)?)?;
    Ok(Line {
        verb: Verb::Help,
        has_option: false,
        operands,
    })
}

/// What a command's word and the words behind it say.
fn line_of(alloc: Global, command: &[u8], words: &[Name]) -> Result<Line, ReadError>
    ensures { Gives result (line_of (verb_of command.now) command.now words.now) }
{
    match verb_of(command) {
        None => Err(ReadError::Mistaken(Mistake::Unknown)),
        Some(_) if asks_help(words) => Ok(help_of(alloc, command)?),
        Some(verb) => line_at(alloc, verb, words),
    }
}

impl Line {
    /// What the words of a line say; nothing where there are none. An option may stand anywhere before `--`. The
    /// error is the mistake that is in them, the first option that the command hasn't before all others, or `Memory`.
    pub fn read(alloc: Global, words: &[Name]) -> Result<Option<Line>, ReadError>
        ensures { Gives result (command_of words.now) }
    {
        match words {
            [command, rest @ ..] => Ok(Some(line_of(alloc, command.as_slice(), rest)?)),
            [] => Ok(None),
        }
    }
}
