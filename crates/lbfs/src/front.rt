//! The words for people: a shell over the same client as `mount`, on TCP, the host's files, its clock, and
//! standard error as the place where it is said how far a command is.

use crate::person::{Person, words_file};
use exit_status::shell_end::ShellEnd;
use host::dialler::TcpDialler;
use host::host_folder::HostFolders;
use host::notes::{PortNote, RunNote, StreamNote, tell};
use host::screen::HostScreen;
use host::streams::{ToldReader, ToldWriter};
use host::time::{HostClock, HostPause};
use lb_base::items::{Items, Name};
use lb_base::streams::{StreamSink, StreamSource};
use lbfs_shell::outside::Outside;
use lbfs_shell::running::{ShellAsked, run_shell};
use program_words::asked::StorePath;
use program_words::front::ShellOptions;
use shell_words::local::LocalPath;
use std::alloc::{AllocError, Global};
use std::process::ExitCode;
use std::sync::atomic::AtomicU64;
use std::sync::{Arc, Wait};
use std::thread::Threads;
use std::{env, process};

/// Runs a shell, and tells what is left to tell of its end.
pub(crate) fn run_front<H: Threads + Wait + Sync>(
    handle: &H,
    rt: HostRuntime,
    options: ShellOptions,
) -> ExitCode {
    let port = options.port;
    let end = match needs_of(rt.alloc(), &options.cache) {
        Ok((cache, count)) => run_over(handle, rt, options, cache, count),
        Err(AllocError) => {
            drop(options);
            ShellEnd::Memory
        }
    };
    match end {
        ShellEnd::Network => tell(&rt, &PortNote::Unreached { port }),
        ShellEnd::Memory => tell(&rt, &RunNote::Memory),
        _ => {}
    }
    ExitCode::from(end.code())
}

/// What `share --help` says.
const SHARE: &str = "lbfs share DIR [--port P] [--term MS] [--unsynced]
Serves the folder DIR at port P of this host, 7000 where none is given, until it
is ended (Ctrl-C). Leases last for MS milliseconds, 30000 where none are given.
With --unsynced nothing is flushed to the disk before it is answered.
";

/// What `shell --help` says above its commands.
const SHELL: &str = "lbfs shell --port P [--links N] [--cache NAME] [--quiet] [COMMAND ..]
Does COMMAND, or what is typed, on the folder that is served at port P of this
host, over N connections at once, 8 where none are given. NAME is a cache file.
With --quiet neither how far a command is, nor what a sync does, nor what it
came to is said.

";

/// A word more.
fn put_word(alloc: Global, command: &mut Items<Name>, word: &[u8]) -> Result<(), AllocError> {
    let name = Name::copy_of(alloc, word)?;
    command.push(name)?;
    Ok(())
}

/// A shell whose one command is `help`, of these words, for which it dials nobody.
fn help_options(alloc: Global, words: &[String]) -> Result<ShellOptions, AllocError> {
    let mut command = Items::new(alloc);
    put_word(alloc, &mut command, b"help")?;
    for word in words {
        put_word(alloc, &mut command, word.as_bytes())?;
    }
    Ok(ShellOptions {
        port: 1,
        links: 1,
        cache: None,
        quiet: true,
        command,
    })
}

/// Writes what there is to type; the error is how the program ends where it can't be written.
fn put_help(rt: &HostRuntime, text: &str) -> Result<(), ShellEnd> {
    match print!(rt; "{text}") {
        Ok(()) => Ok(()),
        Err(why) => {
            tell(rt, &StreamNote::Output(why));
            Err(ShellEnd::WriteFault)
        }
    }
}

/// `share --help`.
pub(crate) fn share_help(rt: &HostRuntime) -> ExitCode {
    match put_help(rt, SHARE) {
        Ok(()) => ExitCode::from(ShellEnd::Done.code()),
        Err(end) => ExitCode::from(end.code()),
    }
}

/// `shell --help`: its own words, and what `help` says; where there are words, only what `help` says of these.
pub(crate) fn run_help<H: Threads + Wait + Sync>(
    handle: &H,
    rt: HostRuntime,
    words: &[String],
) -> ExitCode {
    let Ok(options) = help_options(rt.alloc(), words) else {
        tell(&rt, &RunNote::Memory);
        return ExitCode::from(ShellEnd::Memory.code());
    };
    let written = if words.is_empty() {
        put_help(&rt, SHELL)
    } else {
        Ok(())
    };
    match written {
        Ok(()) => run_front(handle, rt, options),
        Err(end) => ExitCode::from(end.code()),
    }
}

/// The path of a cache file, where there is one, and a count.
type Needs = (Option<LocalPath>, Arc<AtomicU64>);

/// The path of the cache file, where there is one.
fn cache_path(alloc: Global, cache: &Option<StorePath>) -> Result<Option<LocalPath>, AllocError> {
    match cache {
        Some(path) => Ok(Some(LocalPath::copy_of(alloc, path.as_str())?)),
        None => Ok(None),
    }
}

/// What a shell takes of memory before it runs: the path of its cache file, and the count of its bytes.
fn needs_of(alloc: Global, cache: &Option<StorePath>) -> Result<Needs, AllocError> {
    let count = Arc::new(alloc, AtomicU64::new(0))?;
    match cache_path(alloc, cache) {
        Ok(cache) => Ok((cache, count)),
        Err(AllocError) => Err(AllocError),
    }
}

/// The name of the cache file, where there is one.
fn name_of(cache: &Option<LocalPath>) -> Option<&str> {
    match cache {
        Some(path) => Some(path.as_str()),
        None => None,
    }
}

/// The folder that the program runs in, from the root; none where that can't be told, as where it is gone.
fn here_of(rt: &HostRuntime) -> Option<LocalPath> {
    let path = env::current_dir(rt).ok()?;
    let text = path.as_str();
    if text.starts_with("/") {
        LocalPath::copy_of(rt.alloc(), text).ok()
    } else {
        None
    }
}

/// Runs a shell over the outside of this machine; the bytes that go over its links are counted there.
fn run_over<H: Threads + Wait + Sync>(
    handle: &H,
    rt: HostRuntime,
    options: ShellOptions,
    cache: Option<LocalPath>,
    count: Arc<AtomicU64>,
) -> ShellEnd {
    let ShellOptions {
        port,
        links,
        cache: path,
        quiet,
        command,
    } = options;
    drop(path);
    let asked = ShellAsked {
        links,
        cache,
        here: here_of(&rt),
        quiet,
        command,
    };
    let out = Outside {
        screen: Person {
            screen: HostScreen::new(rt.stderr(), rt.stdin()),
            words: words_file(&rt),
        },
        folders: HostFolders::new(rt, process::id(rt.process()), name_of(&asked.cache)),
        dialler: TcpDialler::new(rt, port, count),
        clock: HostClock::new(rt),
        rest: HostPause::new(rt),
    };
    let mut source = StreamSource::new(ToldReader::new(rt, rt.stdin()));
    let mut sink = StreamSink::new(ToldWriter::new(rt, rt.stdout()));
    run_shell(handle, rt.alloc(), &out, &asked, &mut source, &mut sink)
}
