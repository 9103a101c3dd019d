//! Why a run was refused, and what is written then: `refusal_of` of `specs/Refusals.antt`.

ghost use Rattle.std.specs.Prelude.{◌≡◌, ◌++◌, IfOk, OnOk, string_bytes};
ghost use Rattle.trace_text.specs.Refusals.{limit_of, clock_of, fault_of, refusal_of};
ghost use Rattle.clock_rule.specs.declared.rule.ClockFault.TheVariants as clock;

use clock_rule::rule::ClockFault;
use std::alloc::{AllocError, Global};
use std::fmt::Write;

/// A limit of traces. Which line goes beyond it is the business of the world that runs them.
#[derive(Clone, Copy)]
pub enum Limit {
    /// How many lines a trace may have, those that are skipped among them.
    Lines,
    /// How many bytes a file may have.
    File,
    /// How many bytes all files may have together.
    Tree,
    /// How many sessions there may be at once.
    Sessions,
}

impl Limit {
    /// The word that names it.
    fn word(self) -> &'static str
        ensures { result.now ≡ limit_of self }
    {
        match self {
            Limit::Lines => "lines",
            Limit::File => "file",
            Limit::Tree => "tree",
            Limit::Sessions => "sessions",
        }
    }
}

/// What is wrong with a line. Where several things are, the first of these counts.
#[derive(Clone, Copy)]
pub enum LineFault {
    /// It is not in the grammar.
    Grammar,
    /// It goes beyond this limit.
    Limit(Limit),
    /// Its readings break the clock rule.
    Clock(ClockFault),
}

/// Why a run was refused.
#[derive(Clone, Copy)]
pub enum Refusal {
    /// The words of the command line say nothing.
    Words,
    /// The input is too long.
    LimitBytes,
    /// A line, numbered from 1, is at fault.
    Line { number: u64, fault: LineFault },
}

impl Refusal {
    /// What is written for it: one line, with its line feed.
    pub fn text(&self, alloc: Global) -> Result<String, AllocError>
        ensures { IfOk result (λ v. string_bytes v ≡ refusal_of self.now) }
    {
        match self {
            Refusal::Words => String::from_str(alloc, "refused words\n"),
            Refusal::LimitBytes => String::from_str(alloc, "refused limit bytes\n"),
            Refusal::Line { number, fault } => line_text(alloc, *number, *fault),
        }
    }
}

/// A client's reading that fell.
fn put_client(text: &mut String, client: u64, from: u64, to: u64) -> Result<(), AllocError>
    ensures { OnOk result (string_bytes text.new ≡ string_bytes text.old ++ clock_of (clock.Client client from to)) }
{
    write!(text, "clock client {client} from {from} to {to}")
}

/// A client's reading and the server's, which the server went on too far from.
fn put_drift(
    text: &mut String,
    client: u64,
    from: (u64, u64),
    to: (u64, u64),
) -> Result<(), AllocError>
    ensures { OnOk result (string_bytes text.new ≡ string_bytes text.old ++ clock_of (clock.Drift client from.0 from.1 to.0 to.1)) }
{
    let (from, server_from) = from;
    let (to, server_to) = to;
    write!(
        text,
        "clock client {client} from {from} {server_from} to {to} {server_to}"
    )
}

/// How readings break the clock rule.
fn put_clock(text: &mut String, fault: ClockFault) -> Result<(), AllocError>
    ensures { OnOk result (string_bytes text.new ≡ string_bytes text.old ++ clock_of fault) }
{
    match fault {
        ClockFault::Server { from, to } => write!(text, "clock server from {from} to {to}"),
        ClockFault::Client { client, from, to } => put_client(text, client, from, to),
        ClockFault::Drift {
            client,
            from,
            server_from,
            to,
            server_to,
        } => put_drift(text, client, (from, server_from), (to, server_to)),
    }
}

/// What is wrong with a line.
fn put_fault(text: &mut String, fault: LineFault) -> Result<(), AllocError>
    ensures { OnOk result (string_bytes text.new ≡ string_bytes text.old ++ fault_of fault) }
{
    match fault {
        LineFault::Grammar => text.push_str("grammar"),
        LineFault::Limit(limit) => {
            text.push_str("limit ")?;
            text.push_str(limit.word())
        }
        LineFault::Clock(fault) => put_clock(text, fault),
    }
}

/// What is written for a line at fault.
fn line_text(alloc: Global, number: u64, fault: LineFault) -> Result<String, AllocError>
    ensures { IfOk result (λ v. string_bytes v ≡ refusal_of (Refusal.Line number fault)) }
{
    let mut text = format!(in alloc; "refused line {number} ")?;
    put_fault(&mut text, fault)?;
    text.push_str("\n")?;
    Ok(text)
}
