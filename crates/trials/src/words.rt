//! What a row's words ask for. They are read plainly here, and not by the program's own reader, so that
//! the trials reach nothing of `clap`.

ghost use Rattle.program_words.specs.Words.{IsFew, command_in};

use limits::SESSIONS_EVER_MOST;
use program_words::asked::{
    Asked, CheckOptions, Command, InputCommand, KEEP, MountOptions, PORT_MOST, ServeOptions,
    StorePath, View,
};
use row_text::out::Out;
use row_text::text::number;
use std::alloc::Global;
use trial_outside::trial::split;

/// The word behind an option; none where the option isn't there.
fn behind<'x>(words: &'x str, option: &str) -> &'x str {
    let mut is_next = false;
    for word in words.split_whitespace() {
        if is_next {
            return word;
        }
        is_next = word == option;
    }
    ""
}

/// A path of this name; none where memory runs out.
fn path_of(alloc: Global, name: &str, out: &mut Out) -> Option<StorePath> {
    match StorePath::copy_of(alloc, name) {
        Ok(path) => Some(path),
        Err(_) => {
            out.lack();
            None
        }
    }
}

/// What a row's words ask for; nothing where they are no command.
pub fn asked_of(alloc: Global, words: &str, out: &mut Out) -> Option<Asked>
    ensures { IsFew (command_in result) }
{
    let (command, options) = split(words, ' ');
    let port = number(behind(options, "--port")).min(PORT_MOST) as u16;
    let cache = behind(options, "--cache");
    match command {
        "replay" => Some(Asked::Command(Command::OfInput(InputCommand::Replay(View::History)))),
        "cut" => Some(Asked::Command(Command::OfInput(InputCommand::Cut))),
        "show" => Some(Asked::Command(Command::OfInput(InputCommand::Show))),
        "serve" => {
            let store = path_of(alloc, behind(options, "--store"), out)?;
            Some(Asked::Serve(ServeOptions {
                port,
                term: number(behind(options, "--term")),
                sessions: number(behind(options, "--sessions")).min(SESSIONS_EVER_MOST) as u32,
                store,
                unsynced: false,
            }))
        }
        "check" => {
            let store = path_of(alloc, behind(options, "--store"), out)?;
            Some(Asked::Check(CheckOptions { store }))
        }
        "mount" => Some(Asked::Mount(MountOptions {
            port,
            drift: number(behind(options, "--drift")),
            cache: if cache.is_empty() {
                None
            } else {
                path_of(alloc, cache, out)
            },
            keep: KEEP,
        })),
        _ => None,
    }
}
