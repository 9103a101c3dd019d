//! What the words ask for: `asked_of` of `specs/Words.antt`.

ghost use Rattle.std.specs.Prelude.{◌≡◌, IfOk, codes, map, string_bytes};
ghost use Rattle.std.specs.Option.{option_map};
ghost use Rattle.limits.specs.declared.TheConstants.{SESSIONS_EVER_MOST};
ghost use Rattle.program_words.specs.declared.asked.TheConstants.{PORT_MOST};
ghost use Rattle.clap.specs.Words.{first_of, found_of, rows_of, subcommand_rows_of};
ghost use Rattle.program_words.specs.Words.{given, if_given, is_set, view_of, replay_with, replay_of, gen_of, serve_of, mount_of, check_of, named_of, entered_of, asked_of, command_in, IsFew};

use crate::asked::{
    Asked, CheckOptions, Command, InputCommand, KEEP, KEEP_MOST, MountOptions, PORT_MOST,
    SEED_MOST, SeedCommand, ServeOptions, StorePath, View,
};
use crate::line::{lbfs, matches_of};
use clap::ArgMatches;
use clap::error::ErrorKind;
use command_text::fields::number_within;
use limits::{DRIFT_MOST, SESSIONS_EVER_MOST, TERM_MOST};
use std::alloc::{AllocError, Global};
use trace_generator::BLOCKS_MOST;

// ---- values of options

/// What an option was given first.
pub(crate) fn first<'a>(name: &str, matches: &ArgMatches<'a>) -> Option<&'a str>
    ensures { option_map (λ s. s.now) result ≡ first_of name.now (rows_of (found_of matches.now)) }
{
    matches.get_str(name)
}

/// The number that an option was given, where it is in its range.
pub(crate) fn given(low: u64, high: u64, name: &str, matches: &ArgMatches) -> Option<u64>
    ensures { result ≡ given low high name.now (rows_of (found_of matches.now)) }
{
    let word = first(name, matches)?;
    number_within(low, high, word.as_bytes())
}

/// The number that an option was given which may be left out: no number where it was, and nothing where
/// the number isn't in its range.
fn if_given(low: u64, high: u64, name: &str, matches: &ArgMatches) -> Option<Option<u64>>
    ensures { result ≡ if_given low high (first_of name.now (rows_of (found_of matches.now))) }
{
    match first(name, matches) {
        Some(word) => Some(Some(number_within(low, high, word.as_bytes())?)),
        None => Some(None),
    }
}

/// Whether a flag was given.
pub(crate) fn is_set(name: &str, matches: &ArgMatches) -> bool
    ensures { result ≡ is_set (first_of name.now (rows_of (found_of matches.now))) }
{
    match first(name, matches) {
        Some(word) => word == "true",
        None => false,
    }
}

// ---- commands

/// The summary where it is wanted, else the history.
fn view_of(summary: bool) -> View
    ensures { result ≡ view_of summary }
{
    if summary {
        View::Summary
    } else {
        View::History
    }
}

/// A seed and a number of blocks, or neither.
fn replay_with(view: View, seed: Option<u64>, blocks: Option<u64>) -> Option<Asked>
    ensures { result ≡ replay_with view seed blocks }
{
    match (seed, blocks) {
        (None, None) => Some(Asked::Command(Command::OfInput(InputCommand::Replay(view)))),
        (Some(seed), Some(blocks)) => Some(Asked::Command(Command::OfSeed {
            seed,
            blocks,
            command: SeedCommand::Replay(view),
        })),
        _ => None,
    }
}

/// The options of `replay`.
fn replay_of(matches: &ArgMatches) -> Option<Asked>
    ensures { result ≡ replay_of (rows_of (found_of matches.now)) }
{
    let seed = if_given(0, SEED_MOST, "seed", matches)?;
    let blocks = if_given(1, BLOCKS_MOST, "blocks", matches)?;
    replay_with(view_of(is_set("summary", matches)), seed, blocks)
}

/// The words of `gen`.
fn gen_of(matches: &ArgMatches) -> Option<Asked>
    ensures { result ≡ gen_of (rows_of (found_of matches.now)) }
{
    let seed = given(0, SEED_MOST, "seed", matches)?;
    let blocks = given(1, BLOCKS_MOST, "blocks", matches)?;
    Some(Asked::Command(Command::OfSeed {
        seed,
        blocks,
        command: SeedCommand::Write,
    }))
}

/// The port that was given.
fn port_of(matches: &ArgMatches) -> Option<u16>
    ensures { result ≡ given 1 PORT_MOST (codes "port") (rows_of (found_of matches.now)) }
{
    let port = given(1, PORT_MOST, "port", matches)?;
    Some(port as u16)
}

/// The number of sessions that was given.
fn sessions_of(matches: &ArgMatches) -> Option<u32>
    ensures { result ≡ given 1 SESSIONS_EVER_MOST (codes "sessions") (rows_of (found_of matches.now)) }
{
    let sessions = given(1, SESSIONS_EVER_MOST, "sessions", matches)?;
    Some(sessions as u32)
}

/// The options of `serve`. The store's place is copied last, when no option is at fault.
fn serve_of(alloc: Global, matches: &ArgMatches) -> Result<Option<Asked>, AllocError>
    ensures { IfOk result (λ asked. asked ≡ serve_of (rows_of (found_of matches.now))) }
{
    match (
        first("store", matches),
        port_of(matches),
        given(1, TERM_MOST, "term", matches),
        sessions_of(matches),
    ) {
        (Some(path), Some(port), Some(term), Some(sessions)) => {
            Ok(Some(Asked::Serve(ServeOptions {
                port,
                term,
                sessions,
                store: StorePath::copy_of(alloc, path)?,
                unsynced: is_set("unsynced", matches),
            })))
        }
        _ => Ok(None),
    }
}

/// The cache file that was given, if one was.
pub(crate) fn cache_of(alloc: Global, matches: &ArgMatches) -> Result<Option<StorePath>, AllocError>
    ensures { IfOk result (λ path. path ≡ first_of (codes "cache") (rows_of (found_of matches.now))) }
{
    match first("cache", matches) {
        Some(path) => Ok(Some(StorePath::copy_of(alloc, path)?)),
        None => Ok(None),
    }
}

/// The options of `mount`. The cache file's path is copied last, when no option is at fault.
fn mount_of(alloc: Global, matches: &ArgMatches) -> Result<Option<Asked>, AllocError>
    ensures { IfOk result (λ asked. asked ≡ mount_of (rows_of (found_of matches.now))) }
{
    match (
        port_of(matches),
        given(0, DRIFT_MOST, "drift", matches),
        if_given(0, KEEP_MOST, "keep", matches),
    ) {
        (Some(port), Some(drift), Some(keep)) => {
            let keep = keep.unwrap_or(KEEP);
            let cache = cache_of(alloc, matches)?;
            Ok(Some(Asked::Mount(MountOptions {
                port,
                drift,
                cache,
                keep,
            })))
        }
        _ => Ok(None),
    }
}

/// The option of `check`.
fn check_of(alloc: Global, matches: &ArgMatches) -> Result<Option<Asked>, AllocError>
    ensures { IfOk result (λ asked. asked ≡ check_of (rows_of (found_of matches.now))) }
{
    match first("store", matches) {
        Some(path) => Ok(Some(Asked::Check(CheckOptions {
            store: StorePath::copy_of(alloc, path)?,
        }))),
        None => Ok(None),
    }
}

/// What the command of this name asks for.
fn named_of(alloc: Global, name: &str, matches: &ArgMatches) -> Result<Option<Asked>, AllocError>
    ensures { IfOk result (λ asked. asked ≡ named_of name.now (rows_of (found_of matches.now))) }
{
    if name == "replay" {
        Ok(replay_of(matches))
    } else if name == "gen" {
        Ok(gen_of(matches))
    } else if name == "cut" {
        Ok(Some(Asked::Command(Command::OfInput(InputCommand::Cut))))
    } else if name == "show" {
        Ok(Some(Asked::Command(Command::OfInput(InputCommand::Show))))
    } else if name == "serve" {
        serve_of(alloc, matches)
    } else if name == "mount" {
        mount_of(alloc, matches)
    } else if name == "check" {
        check_of(alloc, matches)
    } else {
        Ok(None)
    }
}

/// What the command that `clap` met asks for, if it met one.
fn entered_of(alloc: Global, matches: &ArgMatches) -> Result<Option<Asked>, AllocError>
    ensures { IfOk result (λ asked. asked ≡ entered_of (subcommand_rows_of matches.now)) }
{
    match matches.subcommand() {
        Some((name, matches)) => named_of(alloc, name, matches),
        None => Ok(None),
    }
}

/// What the words, which are those behind the program's name, ask for: nothing where `clap` finds a
/// fault in them, or a number isn't in its range. The one error is running out of memory.
pub fn asked_of(alloc: Global, words: &[String]) -> Result<Option<Asked>, AllocError>
    ensures asked { IfOk result (λ asked. asked ≡ asked_of (map (λ w. string_bytes w) words.now)) }
    ensures few { IfOk result (λ asked. IsFew (command_in asked)) }
{
    match matches_of(alloc, lbfs(), words) {
        Ok(matches) => entered_of(alloc, &matches),
        Err(error) if error.kind() == ErrorKind::OutOfMemory => Err(AllocError),
        Err(_) => Ok(None),
    }
}
