//! The text of a history, and that of its counts: `history_text` and `summary_text` of
//! `specs/Text.antt`.

ghost use Rattle.std.specs.Prelude.{◌≡◌, ℕ, ◌+◌, ◌<◌, ◌^◌, List, ◌++◌, Some, length, codes, OnOk, IfOk, string_bytes};
ghost use Rattle.std.specs.Fmt.{decimal};
ghost use Rattle.std.specs.Option.{option_copied};
ghost use Rattle.register_model.specs.declared.op.Outcome.TheVariants as outcome;
ghost use Rattle.register_model.specs.Text.{history_text, summary_text, ops_line, totals_line, op_name, op_times, op_line, op_lines, kind_text, raw_name, raw_told, raw_line};
ghost use Rattle.register_model.specs.Text.{raw_lines, end_line, outcome_text, IsWordAlone, word_text, bytes_text, moment, traffic_text};

use crate::history::History;
use crate::op::{Op, Outcome, Traffic, Word};
use crate::raw::{Raw, RawKind};
use crate::summary::{Counts, Endings, Totals, summary};
use lb_base::items::{Bytes, Items, Name};
use std::alloc::{AllocError, Global};
use std::fmt::Write;

/// The word as a trace has it.
fn word_of(word: Word) -> &'static str
    ensures { result.now ≡ word_text word }
{
    match word {
        Word::Open => "open",
        Word::Rewrite => "rewrite",
        Word::Write => "write",
        Word::Trunc => "trunc",
        Word::Read => "read",
        Word::Close => "close",
        Word::Abandon => "abandon",
        Word::Make => "make",
        Word::Mkdir => "mkdir",
        Word::Remove => "remove",
        Word::Rmdir => "rmdir",
        Word::Rename => "rename",
        Word::List => "list",
        Word::Look => "look",
    }
}

/// A blank and the bytes in hexadecimal.
fn put_bytes(alloc: Global, out: &mut String, bytes: &Bytes) -> Result<(), AllocError>
    ensures { OnOk result (string_bytes out.new ≡ string_bytes out.old ++ bytes_text bytes.now) }
{
    let digits = hex::encode(alloc, bytes.as_slice())?;
    write!(out, " {digits}")
}

/// A blank and a moment, or `-`.
fn put_moment(out: &mut String, step: Option<u64>) -> Result<(), AllocError>
    ensures { OnOk result (string_bytes out.new ≡ string_bytes out.old ++ moment step) }
{
    match step {
        Some(step) => write!(out, " {step}"),
        None => out.push_str(" -"),
    }
}

/// The names of a directory, with their count.
fn put_names(alloc: Global, out: &mut String, names: &Items<Name>) -> Result<(), AllocError>
    ensures { OnOk result (string_bytes out.new ≡ string_bytes out.old ++ outcome_text (outcome.Names names.now)) }
{
    let count = names.len();
    write!(out, "Names {count}")?;
    for name in names.as_slice() {
        put_bytes(alloc, out, name)?;
    }
    Ok(())
}

/// A word, a length and a digest.
fn put_sized(
    alloc: Global,
    out: &mut String,
    word: &str,
    len: u64,
    sha1: &Bytes,
) -> Result<(), AllocError>
    ensures { OnOk result (string_bytes out.new ≡ string_bytes out.old ++ word.now ++ codes " " ++ decimal len ++ bytes_text sha1.now) }
{
    write!(out, "{word} {len}")?;
    put_bytes(alloc, out, sha1)
}

/// The word of an ending that has nothing more to tell. That of any other is empty.
fn word_alone(ended: &Outcome) -> &'static str
    ensures { IsWordAlone ended.now result.now }
{
    match ended {
        Outcome::Done => "Done",
        Outcome::Busy => "Busy",
        Outcome::NotOpen => "NotOpen",
        Outcome::AlreadyOpen => "AlreadyOpen",
        Outcome::Lost => "Lost",
        Outcome::PeerMemory => "PeerMemory",
        Outcome::Memory => "Memory",
        Outcome::NoLink => "NoLink",
        Outcome::Running => "Running",
        _ => "",
    }
}

/// How an operation ended. The one error is running out of memory.
pub fn put_outcome(alloc: Global, out: &mut String, ended: &Outcome) -> Result<(), AllocError>
    ensures { OnOk result (string_bytes out.new ≡ string_bytes out.old ++ outcome_text ended.now) }
{
    match ended {
        Outcome::Opened { len, sha1 } => put_sized(alloc, out, "Opened", *len, sha1),
        Outcome::Piece { len, sha1 } => put_sized(alloc, out, "Piece", *len, sha1),
        Outcome::Closed { version, len, sha1 } => {
            write!(out, "Closed {version} {len}")?;
            put_bytes(alloc, out, sha1)
        }
        Outcome::Names(names) => put_names(alloc, out, names),
        Outcome::Seen {
            file,
            kind,
            version,
            len,
        } => write!(out, "Seen {file} {kind} {version} {len}"),
        Outcome::Changed { first, last } => write!(out, "Changed {first} {last}"),
        Outcome::Refused(status) => write!(out, "Refused {status}"),
        Outcome::BadPeer(fault) => write!(out, "BadPeer {fault}"),
        Outcome::TooBig(len) => write!(out, "TooBig {len}"),
        _ => out.push_str(word_alone(ended)),
    }
}

/// What an operation sent and received.
fn put_traffic(out: &mut String, traffic: &Traffic) -> Result<(), AllocError>
    ensures { OnOk result (string_bytes out.new ≡ string_bytes out.old ++ traffic_text traffic.now) }
{
    let Traffic {
        cond,
        tmp,
        read,
        data,
    } = *traffic;
    write!(out, " cond {cond} tmp {tmp} read {read} data {data}")
}

/// Whose operation it is, and on what.
fn put_name(out: &mut String, number: u64, op: &Op) -> Result<(), AllocError>
    ensures { OnOk result (string_bytes out.new ≡ string_bytes out.old ++ op_name number op.now) }
{
    let word = word_of(op.word);
    let (client, file) = (op.client, op.file);
    write!(out, "op {number} client {client} {word} file {file}")
}

/// When it was.
fn put_times(out: &mut String, op: &Op) -> Result<(), AllocError>
    ensures { OnOk result (string_bytes out.new ≡ string_bytes out.old ++ op_times op.now) }
{
    let begin = op.begin;
    write!(out, " begin {begin} end")?;
    put_moment(out, op.end)?;
    out.push_str(" point")?;
    put_moment(out, op.point)
}

/// The line of an operation with its number.
fn put_op(alloc: Global, out: &mut String, number: u64, op: &Op) -> Result<(), AllocError>
    ensures { OnOk result (string_bytes out.new ≡ string_bytes out.old ++ op_line number op.now) }
{
    put_name(out, number, op)?;
    put_times(out, op)?;
    out.push_str(" ")?;
    put_outcome(alloc, out, &op.outcome)?;
    put_traffic(out, &op.traffic)?;
    out.push_str("\n")
}

/// The lines of all operations of clients.
fn put_ops(alloc: Global, out: &mut String, ops: &[Op]) -> Result<(), AllocError>
    ensures { OnOk result (string_bytes out.new ≡ string_bytes out.old ++ op_lines 1 ops.now) }
{
    let mut number = 1;
    for op in ops {
        put_op(alloc, out, number, op)?;
        number += 1;
    }
    Ok(())
}

/// What a session that is no client's did to a file.
fn kind_of(kind: RawKind) -> &'static str
    ensures { result.now ≡ kind_text kind }
{
    match kind {
        RawKind::Commit => "Commit",
        RawKind::Make => "Make",
        RawKind::Remove => "Remove",
    }
}

/// Whose change it is, and of what.
fn put_raw_name(out: &mut String, raw: &Raw) -> Result<(), AllocError>
    ensures { OnOk result (string_bytes out.new ≡ string_bytes out.old ++ raw_name raw.now) }
{
    let kind = kind_of(raw.kind);
    let (session, file) = (raw.session, raw.file);
    write!(out, "raw session {session} {kind} file {file}")
}

/// When it was asked for and made, and what it left.
fn put_raw_told(alloc: Global, out: &mut String, raw: &Raw) -> Result<(), AllocError>
    ensures { OnOk result (string_bytes out.new ≡ string_bytes out.old ++ raw_told raw.now) }
{
    let (begin, point, version, len) = (raw.begin, raw.point, raw.version, raw.len);
    write!(out, " begin {begin} point {point} version {version} {len}")?;
    put_bytes(alloc, out, &raw.sha1)
}

/// The line of a change by a session that is no client's.
fn put_raw(alloc: Global, out: &mut String, raw: &Raw) -> Result<(), AllocError>
    ensures { OnOk result (string_bytes out.new ≡ string_bytes out.old ++ raw_line raw.now) }
{
    put_raw_name(out, raw)?;
    put_raw_told(alloc, out, raw)?;
    out.push_str("\n")
}

/// The lines of such changes.
fn put_all(alloc: Global, out: &mut String, raws: &[Raw]) -> Result<(), AllocError>
    ensures { OnOk result (string_bytes out.new ≡ string_bytes out.old ++ raw_lines (Some raws.now)) }
{
    for raw in raws {
        put_raw(alloc, out, raw)?;
    }
    Ok(())
}

/// The lines of all of them, if there is such a session.
fn put_raws(alloc: Global, out: &mut String, raws: Option<&[Raw]>) -> Result<(), AllocError>
    ensures { OnOk result (string_bytes out.new ≡ string_bytes out.old ++ raw_lines (option_copied raws.entry)) }
{
    match raws {
        Some(raws) => put_all(alloc, out, raws),
        None => Ok(()),
    }
}

/// The last line.
fn put_end(out: &mut String, history: &History) -> Result<(), AllocError>
    ensures { OnOk result (string_bytes out.new ≡ string_bytes out.old ++ end_line history.now) }
{
    let (count, steps) = (history.of_clients().len(), history.steps());
    write!(out, "end ops {count}")?;
    if let Some(raws) = history.raws() {
        let raws = raws.len();
        write!(out, " raw {raws}")?;
    }
    write!(out, " steps {steps}\n")
}

/// The text of a history: its first line, a line for each operation of a client and for each change of
/// others, and its last line.
pub fn text(alloc: Global, history: &History) -> Result<Bytes, AllocError>
    ensures { IfOk result (λ bytes. bytes ≡ history_text history.now) }
{
    let mut out = String::new(alloc);
    let lbfs = history.lbfs();
    write!(out, "lbfs-history {lbfs}\n")?;
    put_ops(alloc, &mut out, history.of_clients())?;
    put_raws(alloc, &mut out, history.raws())?;
    put_end(&mut out, history)?;
    Ok(Items::from_vec(out.into_bytes()))
}

/// How many operations there were, and how they ended.
fn put_counts(out: &mut String, counts: &Counts) -> Result<(), AllocError>
    ensures { OnOk result (string_bytes out.new ≡ string_bytes out.old ++ ops_line counts.now) }
{
    let Endings {
        opened,
        closed,
        other,
        refused,
        running,
    } = counts.endings;
    let ops = counts.ops;
    write!(
        out,
        "ops {ops} opened {opened} closed {closed} other {other} refused {refused} running {}\n",
        running
    )
}

/// What all of them sent and received.
fn put_totals(out: &mut String, totals: &Totals) -> Result<(), AllocError>
    ensures { OnOk result (string_bytes out.new ≡ string_bytes out.old ++ totals_line totals.now) }
{
    let Totals {
        cond,
        tmp,
        read,
        data,
    } = *totals;
    write!(out, "cond {cond} tmp {tmp} read {read} data {data}\n")
}

/// The counts of a history in three lines; the last is the number of entries in the server's
/// journal, which is given.
pub fn summary_text(alloc: Global, history: &History, journal: u64) -> Result<Bytes, AllocError>
    ensures { IfOk result (λ bytes. bytes ≡ summary_text history.now journal) }
{
    let counts = summary(history);
    let mut out = String::new(alloc);
    put_counts(&mut out, &counts)?;
    put_totals(&mut out, &counts.totals)?;
    write!(out, "journal {journal}\n")?;
    Ok(Items::from_vec(out.into_bytes()))
}
