//! The words `shell` and `share`, which are for people and stand beside those of `asked`: `front_of` of
//! `specs/Front.antt`. `share` is `serve` under other words.

ghost use Rattle.std.specs.Prelude.{◌≡◌, IfOk, codes, map, string_bytes};
ghost use Rattle.clap.specs.Words.{found_of, rows_of, subcommand_rows_of};
ghost use Rattle.program_words.specs.declared.asked.TheConstants.{PORT_MOST};
ghost use Rattle.program_words.specs.Words.{given, is_set};
ghost use Rattle.program_words.specs.Front.{given_or, values_of, shell_of, share_of, front_named_of, front_entered_of, front_of, share_words};

use crate::asked::{PORT_MOST, StorePath};
use crate::line::{front, matches_of};
use crate::words::{cache_of, first, given, is_set};
use clap::ArgMatches;
use clap::error::ErrorKind;
use command_text::fields::number_within;
use lb_base::items::{Items, Name};
use limits::{SESSIONS_EVER_MOST, TERM_MOST};
use std::alloc::{AllocError, Global};

/// The port of `share` where none is given.
pub const PORT: u64 = 7_000;

/// The term of leases of `share` where none is given, in milliseconds.
pub const TERM: u64 = 30_000;

/// How many connections `shell` uses at once where it isn't said.
pub const LINKS: u64 = 8;

/// The most connections that it may use at once.
pub const LINKS_MOST: u64 = 32;

/// How a shell works.
#[derive(Drop)]
pub struct ShellOptions {
    /// The port at which the server listens.
    pub port: u16,
    /// `--links`: how many connections it uses at once.
    pub links: u32,
    /// `--cache`: the cache file, where there is one.
    pub cache: Option<StorePath>,
    /// `--quiet`: it doesn't say how far a command is, nor what it came to.
    pub quiet: bool,
    /// The words of its one command; none where it reads lines.
    pub command: Items<Name>,
}

/// How a folder is shared.
#[derive(Drop)]
pub struct ShareOptions {
    /// Where the store is.
    pub store: StorePath,
    /// The port at which clients dial.
    pub port: u16,
    /// `--term`: how long a lease is to last, in milliseconds.
    pub term: u64,
    /// `--unsynced`: nothing is flushed to the disk before it is answered.
    pub unsynced: bool,
}

/// What people ask for.
#[derive(Drop)]
pub enum Front {
    /// `shell`: commands on a server's tree.
    Shell(ShellOptions),
    /// `share`: the tree of a store is served, without end.
    Share(ShareOptions),
}

/// The number that an option was given, or the one that it has where it was left out; nothing where it
/// isn't in its range.
fn given_or(low: u64, high: u64, plain: u64, name: &str, matches: &ArgMatches) -> Option<u64>
    ensures { result ≡ given_or low high plain name.now (rows_of (found_of matches.now)) }
{
    match first(name, matches) {
        Some(word) => number_within(low, high, word.as_bytes()),
        None => Some(plain),
    }
}

/// A copy of each of these texts.
fn names_of(alloc: Global, texts: &[&str]) -> Result<Items<Name>, AllocError>
    ensures { IfOk result (λ names. names ≡ map (λ t. t.now) texts.now) }
{
    let mut names = Items::new(alloc);
    for text in texts {
        names.push(Name::copy_of(alloc, text.as_bytes())?)?;
    }
    Ok(names)
}

/// The words that an argument was given.
fn values_of(alloc: Global, name: &str, matches: &ArgMatches) -> Result<Items<Name>, AllocError>
    ensures { IfOk result (λ names. names ≡ values_of name.now (rows_of (found_of matches.now))) }
{
    match matches.get_strs(name) {
        Some(texts) => names_of(alloc, texts),
        None => Ok(Items::new(alloc)),
    }
}

/// The options of `shell`.
fn shell_of(alloc: Global, matches: &ArgMatches) -> Result<Option<Front>, AllocError>
    ensures { IfOk result (λ front. front ≡ shell_of (rows_of (found_of matches.now))) }
{
    let command = values_of(alloc, "command", matches)?;
    let cache = cache_of(alloc, matches)?;
    match (
        given(1, PORT_MOST, "port", matches),
        given_or(1, LINKS_MOST, LINKS, "links", matches),
    ) {
        (Some(port), Some(links)) => Ok(Some(Front::Shell(ShellOptions {
            port: port as u16,
            links: links as u32,
            cache,
            quiet: is_set("quiet", matches),
            command,
        }))),
        _ => Ok(None),
    }
}

/// The options of `share`. The store's place is copied last, when no option is at fault.
fn share_of(alloc: Global, matches: &ArgMatches) -> Result<Option<Front>, AllocError>
    ensures { IfOk result (λ front. front ≡ share_of (rows_of (found_of matches.now))) }
{
    match (
        first("dir", matches),
        given_or(1, PORT_MOST, PORT, "port", matches),
        given_or(1, TERM_MOST, TERM, "term", matches),
    ) {
        (Some(dir), Some(port), Some(term)) => Ok(Some(Front::Share(ShareOptions {
            store: StorePath::copy_of(alloc, dir)?,
            port: port as u16,
            term,
            unsynced: is_set("unsynced", matches),
        }))),
        _ => Ok(None),
    }
}

/// What the command of this name asks for.
fn front_named_of(
    alloc: Global,
    name: &str,
    matches: &ArgMatches,
) -> Result<Option<Front>, AllocError>
    ensures { IfOk result (λ front. front ≡ front_named_of name.now (rows_of (found_of matches.now))) }
{
    if name == "shell" {
        shell_of(alloc, matches)
    } else if name == "share" {
        share_of(alloc, matches)
    } else {
        Ok(None)
    }
}

/// What the command that `clap` met asks for, if it met one.
fn front_entered_of(alloc: Global, matches: &ArgMatches) -> Result<Option<Front>, AllocError>
    ensures { IfOk result (λ front. front ≡ front_entered_of (subcommand_rows_of matches.now)) }
{
    match matches.subcommand() {
        Some((name, matches)) => front_named_of(alloc, name, matches),
        None => Ok(None),
    }
}

/// What the words, which are those behind the program's name, ask for: nothing where they aren't those of
/// `shell` or `share`, where `clap` finds a fault in them, or a number isn't in its range. The one error is
/// running out of memory.
pub fn front_of(alloc: Global, words: &[String]) -> Result<Option<Front>, AllocError>
    ensures { IfOk result (λ front. front ≡ front_of (map (λ w. string_bytes w) words.now)) }
{
    match matches_of(alloc, front(), words) {
        Ok(matches) => front_entered_of(alloc, &matches),
        Err(error) if error.kind() == ErrorKind::OutOfMemory => Err(AllocError),
        Err(_) => Ok(None),
    }
}

/// The words of `serve` for which those of `share` stand.
pub fn share_words(alloc: Global, options: &ShareOptions) -> Result<Vec<String>, AllocError>
    ensures { IfOk result (λ words. map (λ w. string_bytes w) words.items ≡ share_words options.now) }
{
    let port = options.port;
    let term = options.term;
    let place = options.store.as_str();
    let mut words = Vec::new(alloc);
    words.push(String::from_str(alloc, "serve")?)?;
    words.push(format!(in alloc; "--port={port}")?)?;
    words.push(format!(in alloc; "--term={term}")?)?;
    words.push(format!(in alloc; "--sessions={SESSIONS_EVER_MOST}")?)?;
    words.push(format!(in alloc; "--store={place}")?)?;
    if options.unsynced {
        words.push(String::from_str(alloc, "--unsynced")?)?;
    }
    Ok(words)
}
