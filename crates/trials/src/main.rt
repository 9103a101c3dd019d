//! The trials that the gate runs: what comes of what no row of data can show (`rowless`), and of each row of `data/`.
//! What is printed is compared with the file `stdout`.
#![tactic(auto)]

mod end;
mod left;
mod runs;
mod words;

use row_text::out::Out;
use rows::files::Part;
use std::io::Print;
use std::rt::Clock;
use std::sync::Wait;
use std::thread::Threads;
use std::{fs, io};
use trial_outside::rowless;

/// What goes through the rows of a file.
#[derive(Clone, Copy)]
enum Kind {
    /// The parts of the protocol and of traces.
    Parts(Part),
    /// The program over an outside in memory.
    Runs,
    /// A server alone.
    Sessions,
}

/// The files of rows.
const FILES: [(Kind, &str); 13] = [
    (Kind::Parts(Part::Items), "items"),
    (Kind::Parts(Part::Handles), "handles"),
    (Kind::Parts(Part::Streams), "streams"),
    (Kind::Parts(Part::Headers), "headers"),
    (Kind::Parts(Part::Bodies), "nfs"),
    (Kind::Parts(Part::Bodies), "lbfs"),
    (Kind::Parts(Part::Records), "records"),
    (Kind::Parts(Part::Refusals), "refusals"),
    (Kind::Parts(Part::Prints), "prints"),
    (Kind::Parts(Part::Cuts), "cuts"),
    (Kind::Parts(Part::Histories), "histories"),
    (Kind::Runs, "runs"),
    (Kind::Sessions, "sessions"),
];

/// Prints what was put, where it is whole.
fn print_out<R: AllocGlobal + Print>(rt: &R, out: Out) -> io::Result<()> {
    let text = out.done()?;
    print!(rt; "{text}")
}

/// Prints what comes of the trials without a row.
fn print_plain<R: Threads + Wait + Clock + Sync + AllocGlobal + Print>(rt: &R) -> io::Result<()> {
    let mut out = Out::new(rt.alloc());
    rowless::put(rt, rt.alloc(), &mut out);
    print_out(rt, out)
}

/// Prints what comes of the rows of a file, which may name these records.
fn print_file<R: Threads + Wait + Clock + Sync + Send + Copy + Drop + AllocGlobal + Print>(
    rt: &R,
    records: &str,
    kind: Kind,
    file: &str,
    text: &str,
) -> io::Result<()> {
    let alloc = rt.alloc();
    let mut out = Out::new(alloc);
    out.text("== ");
    out.text(file);
    out.text("\n");
    match kind {
        Kind::Parts(part) => rows::files::put_rows(alloc, part, text, &mut out),
        Kind::Runs => runs::put_rows(rt, alloc, records, text, &mut out),
        Kind::Sessions => rows_session::rows::put_rows(rt, alloc, records, text, &mut out),
    }
    print_out(rt, out)
}

fn main(rt: HostRuntime) -> io::Result<()> {
    print_plain(&rt)?;
    let records = fs::read_to_string(&rt, "named")?;
    for (kind, file) in FILES {
        let text = fs::read_to_string(&rt, file)?;
        print_file(&rt, records.as_str(), kind, file, text.as_str())?;
    }
    Ok(())
}
