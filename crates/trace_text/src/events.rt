//! Each event, from the words behind its first: `event_from` of `specs/Grammar.antt`.

ghost use Rattle.std.specs.Prelude.{◌≡◌, false, None, bytes_eq, codes, MatchOption};
ghost use Rattle.command_text.specs.Commands.{command_of};
ghost use Rattle.command_text.specs.Reading.{Gives};
ghost use Rattle.trace_text.specs.Grammar.{join_of, do_with, do_of, up_of, down_of, pass_of, rawjoin_of, raw_of, settle_of, cut_of, hang_of, forge_of, clear_of, evict_of, event_from};

use crate::fields;
use crate::line::Line;
use command_text::command::Command;
use command_text::fields::number;
use command_text::line_error::LineError;
use command_text::parts::Words;
use command_text::words::{is, one, three, two};
use std::alloc::Global;

/// `join C c s`.
fn join(words: &mut Words) -> Option<Line>
    ensures { result ≡ join_of words.old }
{
    let (client, at, server) = three(words)?;
    match (number(client), fields::reading(at), fields::reading(server)) {
        (Some(client), Some(at), Some(server)) => Some(Line::Join { client, at, server }),
        _ => None,
    }
}

/// The client and the reading of a command, and its first word.
fn command_words<'a>(words: &mut Words<'a>) -> Option<(u64, u64, &'a [u8])>
    ensures { MatchOption result (do_of words.old ≡ None) (λ p. do_of words.old ≡ do_with p.0 p.1 (command_of p.2.now words.new)) }
{
    let client = words.next()?;
    let at = words.next()?;
    let word = words.next()?;
    match (number(client), fields::reading(at)) {
        (Some(client), Some(at)) => Some((client, at, word)),
        _ => None,
    }
}

/// `do C c COMMAND`.
pub(crate) fn command_line(alloc: Global, words: &mut Words) -> Result<Line, LineError>
    ensures { Gives result (do_of words.old) }
{
    let Some((client, at, word)) = command_words(words) else {
        return Err(LineError::BadLine);
    };
    Ok(Line::Do {
        client,
        at,
        command: Command::read(alloc, word, words)?,
    })
}

/// `up S n s`.
fn up(words: &mut Words) -> Option<Line>
    ensures { result ≡ up_of words.old }
{
    let (session, amount, server) = three(words)?;
    match (
        number(session),
        fields::amount(amount),
        fields::reading(server),
    ) {
        (Some(session), Some(amount), Some(server)) => Some(Line::Up {
            session,
            amount,
            server,
        }),
        _ => None,
    }
}

/// `down S n c`.
fn down(words: &mut Words) -> Option<Line>
    ensures { result ≡ down_of words.old }
{
    let (session, amount, at) = three(words)?;
    match (number(session), fields::amount(amount), fields::reading(at)) {
        (Some(session), Some(amount), Some(at)) => Some(Line::Down {
            session,
            amount,
            at,
        }),
        _ => None,
    }
}

/// `pass S k s c`.
fn pass(words: &mut Words) -> Option<Line>
    ensures { result ≡ pass_of words.old }
{
    let session = words.next()?;
    let (rounds, server, at) = three(words)?;
    match (
        number(session),
        number(rounds),
        fields::reading(server),
        fields::reading(at),
    ) {
        (Some(session), Some(rounds), Some(server), Some(at)) => Some(Line::Pass {
            session,
            rounds,
            server,
            at,
        }),
        _ => None,
    }
}

/// `rawjoin s`.
fn raw_join(words: &mut Words) -> Option<Line>
    ensures { result ≡ rawjoin_of words.old }
{
    let server = one(words)?;
    Some(Line::RawJoin {
        server: fields::reading(server)?,
    })
}

/// `raw S HEX`.
pub(crate) fn raw(alloc: Global, words: &mut Words) -> Result<Line, LineError>
    ensures { Gives result (raw_of words.old) }
{
    let Some((session, digits)) = two(words) else {
        return Err(LineError::BadLine);
    };
    let Some(session) = number(session) else {
        return Err(LineError::BadLine);
    };
    let bytes = fields::bytes(alloc, digits)?;
    Ok(Line::Raw { session, bytes })
}

/// `settle s`.
fn settle(words: &mut Words) -> Option<Line>
    ensures { result ≡ settle_of words.old }
{
    let server = one(words)?;
    Some(Line::Settle {
        server: fields::reading(server)?,
    })
}

/// `cut C c`.
fn cut(words: &mut Words) -> Option<Line>
    ensures { result ≡ cut_of words.old }
{
    let (client, at) = two(words)?;
    match (number(client), fields::reading(at)) {
        (Some(client), Some(at)) => Some(Line::Cut { client, at }),
        _ => None,
    }
}

/// `hang S s`.
fn hang(words: &mut Words) -> Option<Line>
    ensures { result ≡ hang_of words.old }
{
    let (session, server) = two(words)?;
    match (number(session), fields::reading(server)) {
        (Some(session), Some(server)) => Some(Line::Hang { session, server }),
        _ => None,
    }
}

/// `forge WHO KEY FILE OFFSET COUNT`.
fn forge(words: &mut Words) -> Option<Line>
    ensures { result ≡ forge_of words.old }
{
    let who = words.next()?;
    let key = words.next()?;
    let (file, offset, count) = three(words)?;
    match (
        fields::who(who),
        fields::key(key),
        number(file),
        number(offset),
        number(count),
    ) {
        (Some(who), Some(key), Some(file), Some(offset), Some(count)) => Some(Line::Forge {
            who,
            key,
            file,
            offset,
            count,
        }),
        _ => None,
    }
}

/// `clear WHO`.
fn clear(words: &mut Words) -> Option<Line>
    ensures { result ≡ clear_of words.old }
{
    let who = one(words)?;
    Some(Line::Clear(fields::who(who)?))
}

/// `evict C FILE`.
fn evict(words: &mut Words) -> Option<Line>
    ensures { result ≡ evict_of words.old }
{
    let (client, file) = two(words)?;
    match (number(client), number(file)) {
        (Some(client), Some(file)) => Some(Line::Evict { client, file }),
        _ => None,
    }
}

/// An event without a content, bytes or a command that begins with this word.
pub(crate) fn event(kind: &[u8], words: &mut Words) -> Option<Line>
    requires command { bytes_eq kind.now (codes "do") ≡ false }
    requires warm { bytes_eq kind.now (codes "warm") ≡ false }
    requires raw { bytes_eq kind.now (codes "raw") ≡ false }
    ensures { result ≡ event_from kind.now words.old }
{
    if is(kind, b"join") {
        join(words)
    } else if is(kind, b"up") {
        up(words)
    } else if is(kind, b"down") {
        down(words)
    } else if is(kind, b"pass") {
        pass(words)
    } else if is(kind, b"rawjoin") {
        raw_join(words)
    } else if is(kind, b"settle") {
        settle(words)
    } else if is(kind, b"cut") {
        cut(words)
    } else if is(kind, b"hang") {
        hang(words)
    } else if is(kind, b"forge") {
        forge(words)
    } else if is(kind, b"clear") {
        clear(words)
    } else if is(kind, b"evict") {
        evict(words)
    } else {
        None
    }
}
