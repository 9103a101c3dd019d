//! Commands as operations: what each is called, on which file, and what it is to store.
//! `specs/Commands.antt` says so.

ghost use Rattle.std.specs.Prelude.{◌≡◌, IfOk};
ghost use Rattle.client_state.specs.State.{local_bytes};
ghost use Rattle.trace_ends.specs.Commands.{path_word, word_of, file_of, value_at_begin};

use client_state::step::Ended;
use command_text::command::Command;
use command_text::path::PathCommand;
use open_close::client::Client;
use register_model::op::Word;
use shared_bytes::SharedBytes;
use std::alloc::AllocError;

/// What a command on names is called.
fn path_word(command: &PathCommand) -> Word
    ensures { result ≡ path_word command.now }
{
    match command {
        PathCommand::Find(_) => Word::Open,
        PathCommand::Rewrite(_) => Word::Rewrite,
        PathCommand::Look(_) | PathCommand::LookRoot => Word::Look,
        PathCommand::List(_) => Word::List,
        PathCommand::Make(_) => Word::Make,
        PathCommand::MakeDir(_) => Word::Mkdir,
        PathCommand::Remove(_) => Word::Remove,
        PathCommand::RemoveDir(_) => Word::Rmdir,
        PathCommand::Rename(_, _) => Word::Rename,
    }
}

/// What a command is called.
pub fn word_of(command: &Command) -> Word
    ensures { result ≡ word_of command.now }
{
    match command {
        Command::Open(_) => Word::Open,
        Command::Rewrite(_) => Word::Rewrite,
        Command::Write { .. } => Word::Write,
        Command::Trunc { .. } => Word::Trunc,
        Command::Read { .. } => Word::Read,
        Command::Close(_) => Word::Close,
        Command::Abandon(_) => Word::Abandon,
        Command::Named(command) => path_word(command),
    }
}

/// The id of the file that it names; 0 where it has names in place of one.
pub fn file_of(command: &Command) -> u64
    ensures { result ≡ file_of command.now }
{
    match command {
        Command::Open(file) | Command::Rewrite(file) => *file,
        Command::Close(file) | Command::Abandon(file) => *file,
        Command::Write { file, .. } => *file,
        Command::Trunc { file, .. } => *file,
        Command::Read { file, .. } => *file,
        Command::Named(_) => 0,
    }
}

/// One more owner of the local content of a file; no byte where it isn't open.
pub fn local_bytes(client: &Client, file: u64) -> Result<SharedBytes, AllocError>
    ensures { IfOk result (λ bytes. bytes ≡ local_bytes client.now.opened file) }
{
    match client.shared_local(file) {
        Some(bytes) => bytes.share(),
        None => Ok(SharedBytes::empty()),
    }
}

/// The content that a close is to store, as the client has it when the close begins; nothing where
/// its first step ends it. That step leaves a content that is to be stored as it was, so the client
/// behind it will do.
pub fn value_at_begin(
    client: &Client,
    word: Word,
    file: u64,
    ended: &Option<Ended>,
) -> Result<SharedBytes, AllocError>
    ensures { IfOk result (λ bytes. bytes ≡ value_at_begin client.now word file ended.now) }
{
    match word {
        Word::Close => match ended {
            None => local_bytes(client, file),
            Some(_) => Ok(SharedBytes::empty()),
        },
        _ => Ok(SharedBytes::empty()),
    }
}
