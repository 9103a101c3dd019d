//! The program `lbfs`: a run over the standard streams, a folder, the files of the folder that it runs
//! in, TCP on this host and the host's clock. What it reads, writes and ends with is promised by `run`
//! of the crate `lbfs_run`, which `status_of` there calls; that the words, the outside and the status are
//! handed on no contract says, and the examples test it.
//!
//! On standard error a person is told what failed: by the adapters of `host` and `folder_store` as it
//! happens, and here, once the run has ended, of words that are refused, of memory, and of the record that
//! a server's store breaks a rule with.
#![tactic(auto)]

mod front;
mod person;

use crate::front::{run_front, run_help, share_help};
use crate::person::shared_at;
use exit_status::status::Status;
use folder_store::folder::FolderStore;
use host::host_files::HostFiles;
use host::notes::{RunNote, tell};
use host::serving::Serving;
use host::streams::{ToldReader, ToldWriter};
use host::tcp::{TcpNetwork, tell_taken};
use host::time::{HostClock, HostRest};
use host::told_store::ToldStore;
use last_words::counted_network::CountedNetwork;
use last_words::counted_store::CountedStore;
use last_words::counts::Done;
use lb_base::streams::{StreamSink, StreamSource};
use lbfs_run::outside::Outside;
use lbfs_run::run::status_of;
use program_words::asked::{Asked, ServeOptions, StorePath};
use program_words::front::{Front, ShareOptions, front_of, share_words};
use program_words::refusal::refusal;
use program_words::words::asked_of;
use std::alloc::{AllocError, Global};
use std::fs::TryLockError;
use std::io::ErrorKind;
use std::process::ExitCode;
use std::sync::{Arc, Wait};
use std::thread::Threads;
use std::{env, fs, io, process};
use store_report::report::first_broken;
use synced_store::checks::Checks;
use synced_store::syncs::Synced;

/// The program's name and the words behind it. Where one is no text there are none, and so no command
/// either.
fn given_words(rt: &HostRuntime) -> io::Result<Vec<String>> {
    match env::args(rt) {
        Ok(words) => Ok(words.collect(rt.alloc())?),
        Err(error) if error.kind() == ErrorKind::InvalidData => {
            let _told = eprintln!(rt; "lbfs: one of the words is no text (UTF-8)");
            Ok(Vec::new(rt.alloc()))
        }
        Err(error) => Err(error),
    }
}

/// What the words have served, and how; none where they ask for something else.
fn options_of(alloc: Global, words: &[String]) -> Result<Option<ServeOptions>, AllocError> {
    match asked_of(alloc, words)? {
        Some(Asked::Serve(options)) => Ok(Some(options)),
        _ => Ok(None),
    }
}

/// What is served, for the store and the network, which tell it and note its term.
fn serving_of(
    alloc: Global,
    options: &ServeOptions,
) -> Result<(Arc<Serving>, Arc<Serving>), AllocError> {
    let serving = Serving::new(alloc, options.store.as_str(), options.term)?;
    let serving: Arc<Serving> = Arc::new(alloc, serving)?;
    let more: Arc<Serving> = serving.clone()?;
    Ok((serving, more))
}

/// Tells which record of a store breaks a rule, which is read again for that.
fn tell_record<D: Synced + Checks>(rt: &HostRuntime, store: &mut D, place: &str) {
    let alloc = rt.alloc();
    if let Ok(found) = store.check(alloc, place) {
        if let Ok(Some(line)) = first_broken(alloc, &found) {
            let _told = eprint!(rt; "lbfs: {place}/{line}");
        }
    }
}

/// Whether another server has a folder, which is locked then.
fn is_locked(rt: &HostRuntime, place: &str) -> bool {
    match fs::open(rt, place) {
        Ok(folder) => matches!(folder.try_lock_shared(), Err(TryLockError::WouldBlock)),
        Err(_) => false,
    }
}

/// Tells what is left to tell of a store that failed as it was opened. A folder that can't be read, or is locked, was
/// told of then; where it is locked its server may have the port too.
fn tell_store(rt: &HostRuntime, options: &ServeOptions) {
    let place = options.store.as_str();
    if is_locked(rt, place) {
        tell_taken(rt, options.port);
    } else if fs::read_dir(rt, place).is_ok() {
        tell_record(rt, &mut FolderStore::new(*rt), place);
    }
}

/// Tells what is left to tell of a run that has ended.
fn tell_end(rt: &HostRuntime, words: &[String], options: &Option<ServeOptions>, status: Status) {
    match status {
        Status::BadWords => {
            if let Ok(text) = refusal(rt.alloc(), words) {
                let _told = eprint!(rt; "{text}");
            }
        }
        Status::Memory => tell(rt, &RunNote::Memory),
        Status::NoThread => tell(rt, &RunNote::NoThread),
        Status::Store => {
            if let Some(options) = options {
                tell_store(rt, options);
            }
        }
        _ => {}
    }
}

/// What is served, if anything is: how, and what the store and the network know of it.
type Served = (
    Option<ServeOptions>,
    Option<Arc<Serving>>,
    Option<Arc<Serving>>,
);

/// What a run needs before it begins.
fn served(alloc: Global, words: &[String]) -> Result<Served, AllocError> {
    let Some(options) = options_of(alloc, words)? else {
        return Ok((None, None, None));
    };
    match serving_of(alloc, &options) {
        Ok((serving, more)) => Ok((Some(options), Some(serving), Some(more))),
        Err(AllocError) => Err(AllocError),
    }
}

/// A path as text of its own, where there is one.
fn text_of(alloc: Global, path: &Option<StorePath>) -> Result<Option<String>, AllocError> {
    match path {
        Some(path) => Ok(Some(String::from_str(alloc, path.as_str())?)),
        None => Ok(None),
    }
}

/// The name of a mount's cache file, where the words have one.
fn cache_of(alloc: Global, words: &[String]) -> Result<Option<String>, AllocError> {
    match asked_of(alloc, words)? {
        Some(Asked::Mount(options)) => text_of(alloc, &options.cache),
        _ => Ok(None),
    }
}

/// The files of the folder that the program runs in.
fn files_for(rt: HostRuntime, words: &[String]) -> Result<HostFiles<HostRuntime>, AllocError> {
    match cache_of(rt.alloc(), words) {
        Ok(cache) => Ok(HostFiles::new(rt, process::id(rt.process()), cache)),
        Err(AllocError) => Err(AllocError),
    }
}

/// Has a store load what will be served, by threads, before a run asks for it.
fn load_ahead<H: Threads + Sync>(
    handle: &H,
    rt: &HostRuntime,
    store: &mut FolderStore<HostRuntime>,
    options: &ServeOptions,
) {
    if options.unsynced {
        store.leave_unflushed();
    }
    let place = options.store.as_str();
    tell(rt, &RunNote::Loading { place });
    store.load_ahead(handle, rt.alloc(), place);
}

/// The clock of a server, or of a mount. A server's stands still while the host sleeps, so that its leases
/// last no shorter than their holders take them to; a mount's jumps past them.
fn clock_for(rt: HostRuntime, serves: bool) -> HostClock<HostRuntime> {
    if serves {
        HostClock::new(rt)
    } else {
        HostClock::jumping(rt)
    }
}

/// The end of a program whose memory ran out before it ran.
fn starved(rt: &HostRuntime) -> ExitCode {
    tell(rt, &RunNote::Memory);
    ExitCode::from(Status::Memory.code())
}

/// What counts what was done, for the store and for the network.
type Counting = (Option<Arc<Done>>, Option<Arc<Done>>);

/// Runs the words behind the program's name over the outside, and ends with the status's number. The store is made
/// once nothing can fail any more, so that no other way out has it.
fn run<H: Threads + Wait + Sync>(
    handle: &H,
    rt: HostRuntime,
    words: &[String],
    counting: Counting,
) -> ExitCode {
    let Ok(files) = files_for(rt, words) else {
        return starved(&rt);
    };
    let Ok((options, serving, more)) = served(rt.alloc(), words) else {
        return starved(&rt);
    };
    let (changes, connections) = counting;
    let mut store = FolderStore::new(rt);
    if let Some(options) = &options {
        load_ahead(handle, &rt, &mut store, options);
    }
    let network = TcpNetwork::new(rt, rt.alloc(), serving);
    let outside = Outside {
        source: StreamSource::new(ToldReader::new(rt, rt.stdin())),
        sink: StreamSink::new(ToldWriter::new(rt, rt.stdout())),
        store: CountedStore::new(handle, ToldStore::new(rt, store, more), changes),
        files,
        network: CountedNetwork::new(handle, network, connections),
        clock: clock_for(rt, options.is_some()),
        rest: HostRest::new(rt),
    };
    let status = status_of(handle, rt.alloc(), words, outside);
    tell_end(&rt, words, &options, status);
    ExitCode::from(status.code())
}

/// What `share` needs before it runs: its words, who is told of its end, and what counts.
type Sharing = (Vec<String>, Arc<Done>, Counting);

/// What counts, for the store and for the network, and who is told of the end.
fn counters(rt: &HostRuntime, place: &str) -> Result<(Arc<Done>, Counting), AllocError> {
    let done = shared_at(rt, place)?;
    let changes: Arc<Done> = done.clone()?;
    let connections: Arc<Done> = done.clone()?;
    Ok((done, (Some(changes), Some(connections))))
}

/// What `share` needs by these options.
fn share_over(rt: &HostRuntime, options: &ShareOptions) -> Result<Sharing, AllocError> {
    let (done, counting) = counters(rt, options.store.as_str())?;
    match share_words(rt.alloc(), options) {
        Ok(words) => Ok((words, done, counting)),
        Err(AllocError) => Err(AllocError),
    }
}

/// `share`: `serve` without end, by its words. What it did is said where a signal ends it, and not where it ends by
/// itself.
fn run_share<H: Threads + Wait + Sync>(
    handle: &H,
    rt: HostRuntime,
    options: &ShareOptions,
) -> ExitCode {
    match share_over(&rt, options) {
        Ok((words, done, counting)) => {
            let code = run(handle, rt, words.as_slice(), counting);
            done.end();
            code
        }
        Err(AllocError) => starved(&rt),
    }
}

/// Runs the words: a shell, or `share`, or those of `run`.
fn run_others<H: Threads + Wait + Sync>(
    handle: &H,
    rt: HostRuntime,
    words: &[String],
    front: Option<Front>,
) -> ExitCode {
    match front {
        Some(Front::Share(options)) => run_share(handle, rt, &options),
        Some(Front::Shell(options)) => run_front(handle, rt, options),
        None => run(handle, rt, words, (None, None)),
    }
}

/// Whether a word behind a command for people asks what there is to type.
fn asks_help(word: &str) -> bool {
    word == "--help" || word == "-h"
}

/// Whether two words ask for the help of a shell: `shell --help`, `shell help`, `help shell`.
fn asks_help_of_a_shell(word: &str, other: &str) -> bool {
    (word == "shell" && (asks_help(other) || other == "help"))
        || (word == "help" && other == "shell")
}

/// Whether words are a command of a shell, and behind it `--help` alone.
fn asks_one(command: &str, word: &str, option: &str) -> bool {
    command == "shell" && !word.starts_with("-") && option == "--help"
}

/// The words of the help that is asked of a shell, if it is, for which no port is wanted: `shell help put`,
/// `help shell put`, `shell put --help`.
fn help_words(words: &[String]) -> Option<&[String]> {
    match words {
        [command, word, more @ ..] if asks_help_of_a_shell(command.as_str(), word.as_str()) => {
            Some(more)
        }
        [command, word, option] if asks_one(command.as_str(), word.as_str(), option.as_str()) => {
            Some(&words[1..2])
        }
        _ => None,
    }
}

/// Whether two words ask for the help of `share`: `share --help`, `help share`. A folder may be named `help`.
fn asks_help_to_share(word: &str, other: &str) -> bool {
    (word == "share" && asks_help(other)) || (word == "help" && other == "share")
}

/// Whether the words ask what there is to type to share a folder.
fn asks_share(words: &[String]) -> bool {
    match words {
        [word, other] => asks_help_to_share(word.as_str(), other.as_str()),
        _ => false,
    }
}

/// Whether words that are refused ask what there is to type to a shell, behind its options.
fn asks_shell(words: &[String]) -> bool {
    match words {
        [command, .., option] => command.as_str() == "shell" && asks_help(option.as_str()),
        _ => false,
    }
}

/// Runs the words behind the program's name.
fn run_words<H: Threads + Wait + Sync>(handle: &H, rt: HostRuntime, words: &[String]) -> ExitCode {
    if asks_share(words) {
        return share_help(&rt);
    }
    if let Some(more) = help_words(words) {
        return run_help(handle, rt, more);
    }
    match front_of(rt.alloc(), words) {
        Ok(None) if asks_shell(words) => run_help(handle, rt, &[]),
        Ok(front) => run_others(handle, rt, words, front),
        Err(AllocError) => starved(&rt),
    }
}

/// Runs the words over the outside.
fn main(rt: HostRuntime) -> ExitCode {
    match given_words(&rt) {
        Ok(words) => run_words(&rt, rt, &words.as_slice()[words.len().min(1)..]),
        Err(_) => starved(&rt),
    }
}
