//! What a person is told on standard error whose words are refused: what is wrong with them, and which
//! words there are, or those of the command that was meant.

use crate::asked::{KEEP_MOST, PORT_MOST, SEED_MOST};
use crate::front::LINKS_MOST;
use crate::line::{front, lbfs, matches_of};
use crate::words::first;
use clap::error::ErrorKind;
use clap::{ArgMatches, Error};
use command_text::fields::number_within;
use limits::{DRIFT_MOST, SESSIONS_EVER_MOST, TERM_MOST};
use std::alloc::{AllocError, Global};
use std::fmt::Write;
use trace_generator::BLOCKS_MOST;

/// The words of a command, and what it does.
#[derive(Clone, Copy)]
struct Use {
    name: &'static str,
    /// All of them, its name first.
    words: &'static str,
    does: &'static str,
}

/// All commands, those for people first.
static USES: [Use; 10] = [
    Use {
        name: "share",
        words: "share DIR [--port P] [--term MS] [--unsynced]",
        does: "serves a folder until it is ended, at port 7000 if none is given",
    },
    Use {
        name: "shell",
        words: "shell --port P [--links N] [--cache NAME] [--quiet] [COMMAND ..]",
        does: "runs a command, or what is typed, on a served folder",
    },
    Use {
        name: "replay",
        words: "replay [--summary]",
        does: "runs the trace on standard input",
    },
    Use {
        name: "replay",
        words: "replay --seed S --blocks N [--summary]",
        does: "runs a trace of N blocks that is made from a seed",
    },
    Use {
        name: "gen",
        words: "gen S N",
        does: "writes such a trace",
    },
    Use {
        name: "cut",
        words: "cut",
        does: "lists the chunks of standard input",
    },
    Use {
        name: "show",
        words: "show",
        does: "lists the RPC records of standard input",
    },
    Use {
        name: "serve",
        words: "serve --port P --term MS --sessions N --store DIR [--unsynced]",
        does: "serves a folder, until N sessions have ended",
    },
    Use {
        name: "mount",
        words: "mount --port P --drift MS [--cache NAME] [--keep BYTES]",
        does: "runs the commands on standard input on a served folder",
    },
    Use {
        name: "check",
        words: "check --store DIR",
        does: "looks over a folder that isn't served",
    },
];

/// The words that there are.
fn put_usage(text: &mut String) -> Result<(), AllocError> {
    text.push_str("usage: lbfs COMMAND\n")?;
    for it in USES.iter() {
        write!(text, "  {}\n      {}\n", it.words, it.does)?;
    }
    text.push_str("docs/COMMANDS.md says what each reads, writes and ends with.\n")
}

/// Whether a command has this name.
fn is_named(name: &str) -> bool {
    USES.iter().any(|it| it.name == name)
}

/// The words of the command of a name, and for a call for help what it does; all words that there are where no
/// command has it.
fn put_usage_of(text: &mut String, name: &str, is_help: bool) -> Result<(), AllocError> {
    if !is_named(name) {
        return put_usage(text);
    }
    for it in USES.iter() {
        if name == it.name {
            write!(text, "usage: lbfs {}\n", it.words)?;
            if is_help {
                write!(text, "      {}\n", it.does)?;
            }
        }
    }
    Ok(())
}

/// Each option whose value is a number, and between which numbers it lies.
static RANGES: [(&str, u64, u64); 8] = [
    ("port", 1, PORT_MOST),
    ("term", 1, TERM_MOST),
    ("sessions", 1, SESSIONS_EVER_MOST),
    ("drift", 0, DRIFT_MOST),
    ("keep", 0, KEEP_MOST),
    ("seed", 0, SEED_MOST),
    ("blocks", 1, BLOCKS_MOST),
    ("links", 1, LINKS_MOST),
];

/// Says of an option that its value isn't in its range; the answer is whether it isn't.
fn put_if_past(
    text: &mut String,
    range: (&str, u64, u64),
    matches: &ArgMatches,
) -> Result<bool, AllocError> {
    let (name, low, high) = range;
    let Some(word) = first(name, matches) else {
        return Ok(false);
    };
    if number_within(low, high, word.as_bytes()).is_some() {
        return Ok(false);
    }
    write!(
        text,
        "lbfs: {name} '{word}' is no number from {low} to {high}\n"
    )?;
    Ok(true)
}

/// Says which value isn't in its range, or what else is wrong with words of which `clap` takes each.
fn put_past(text: &mut String, matches: &ArgMatches) -> Result<(), AllocError> {
    for range in RANGES.iter() {
        if put_if_past(text, *range, matches)? {
            return Ok(());
        }
    }
    text.push_str("lbfs: --seed and --blocks stand together\n")
}

/// Says what `clap` finds wrong: the first paragraph of its text, as one line.
fn put_fault(alloc: Global, text: &mut String, error: &Error) -> Result<(), AllocError> {
    let told = format!(in alloc; "{error}")?;
    text.push_str("lbfs:")?;
    for line in told.as_str().lines() {
        if line.is_empty() {
            break;
        }
        text.push_str(" ")?;
        text.push_str(line.trim().trim_start_matches("error: "))?;
    }
    text.push_str("\n")
}

/// Whether words are those of `shell` or `share`, by the first.
fn is_front(words: &[String]) -> bool {
    match words.first() {
        Some(word) => word.as_str() == "shell" || word.as_str() == "share",
        None => false,
    }
}

/// What is wrong with the words, where they are more than a call for help.
fn put_reason(alloc: Global, text: &mut String, words: &[String]) -> Result<(), AllocError> {
    let lines = if is_front(words) { front() } else { lbfs() };
    match matches_of(alloc, lines, words) {
        Ok(matches) => match matches.subcommand() {
            Some((_name, matches)) => put_past(text, matches),
            None => Ok(()),
        },
        Err(error) => match error.kind() {
            ErrorKind::DisplayHelp
            | ErrorKind::DisplayHelpOnMissingArgumentOrSubcommand
            | ErrorKind::MissingSubcommand => Ok(()),
            _ => put_fault(alloc, text, &error),
        },
    }
}

/// The command that `help` asks of, if it asks of one.
fn helped(words: &[String]) -> Option<&str> {
    match words {
        [help, name] if help.as_str() == "help" && is_named(name.as_str()) => Some(name.as_str()),
        _ => None,
    }
}

/// The first word; an empty one where there is none.
fn first_word(words: &[String]) -> &str {
    match words.first() {
        Some(word) => word.as_str(),
        None => "",
    }
}

/// What is told of words that ask for nothing: a line that says what is wrong with them, unless they are a call
/// for help, and the words of the command that was meant; all words that there are, where none was. The one error is
/// running out of memory.
pub fn refusal(alloc: Global, words: &[String]) -> Result<String, AllocError> {
    let mut text = String::new(alloc);
    match helped(words) {
        Some(name) => put_usage_of(&mut text, name, true)?,
        None => {
            put_reason(alloc, &mut text, words)?;
            let is_help = text.is_empty();
            put_usage_of(&mut text, first_word(words), is_help)?;
        }
    }
    Ok(text)
}
