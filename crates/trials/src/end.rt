//! One run of the program over an outside in memory, and what is printed of it. Every trial goes by
//! `run_end`, so that the program is proved for one type of outside, at one call.

ghost use Rattle.program_words.specs.Words.{IsFew, command_in};

use crate::left::{put_left, put_written};
use crate::words::asked_of;
use exit_status::status::Status;
use lbfs_run::outside::Outside;
use lbfs_run::run::run_asked;
use links::mem_files::MemFiles;
use program_words::asked::Asked;
use row_text::out::Out;
use std::alloc::{AllocError, Global};
use std::sync::atomic::AtomicU64;
use std::sync::{Arc, Wait};
use std::thread::Threads;
use trial_outside::outside::{around, files};
use trial_outside::port::{Port, PortEnd, PortLink, PortNet, PortPace};
use trial_outside::screen::{Screen, Typist};
use trial_outside::trial::Trial;
use trial_outside::tried_store::TriedStore;

/// The outside of each run.
type Whole<'a, R> = Outside<
    Typist<'a>,
    Screen<'a>,
    TriedStore,
    MemFiles,
    PortNet<R>,
    PortPace<R>,
    PortPace<R>,
>;

/// The program's run. It stands alone because its contract is large.
fn run_whole<'a, R: Threads + Wait + Sync + Send + Copy + Drop>(
    rt: &R,
    alloc: Global,
    asked: Option<Asked>,
    whole: Whole<'a, R>,
) -> (Status, Whole<'a, R>, Option<PortLink<R>>)
    requires { IsFew (command_in asked) }
{
    run_asked(rt, alloc, asked, whole)
}

/// The outside of an end, over these bytes of input.
fn whole_of<'a, R: Wait + Copy>(
    rt: &R,
    alloc: Global,
    port: &Arc<Port>,
    trial: &Trial<'_>,
    input: &'a [u8],
    answers: &'a AtomicU64,
    out: &mut Out,
) -> Result<Whole<'a, R>, AllocError> {
    let (store, end) = around(*rt, alloc, port, trial, out)?;
    let PortEnd {
        network,
        clock,
        rest,
    } = end;
    Ok(Outside {
        source: Typist::new(alloc, trial, input, answers),
        sink: Screen::new(alloc, trial, answers),
        store,
        files: files(alloc, trial, out),
        network,
        clock,
        rest,
    })
}

/// Runs an end's words in this outside, and tells how it ended, and what is left of it.
fn put_run<'a, R: Threads + Wait + Sync + Send + Copy + Drop>(
    rt: &R,
    alloc: Global,
    trial: &Trial<'_>,
    whole: Whole<'a, R>,
    out: &mut Out,
) {
    let asked = asked_of(alloc, trial.words, out);
    let (status, whole, unpaired) = run_whole(rt, alloc, asked, whole);
    out.text(": status");
    out.number(u64::from(status.code()));
    put_written(
        trial,
        &whole.source,
        &whole.network,
        &whole.store,
        &whole.sink,
        out,
    );
    put_left(trial, &unpaired, &whole.files, out);
    drop(whole);
    drop(unpaired)
}

/// Runs a trial's end, shuts the port behind it, and tells how it ended.
pub fn run_end<R: Threads + Wait + Sync + Send + Copy + Drop>(
    rt: &R,
    alloc: Global,
    port: &Arc<Port>,
    trial: &Trial<'_>,
) -> Out {
    let mut out = Out::new(alloc);
    let input = trial.input(alloc, &mut out);
    let answers = AtomicU64::new(0);
    match whole_of(rt, alloc, port, trial, input.as_slice(), &answers, &mut out) {
        Ok(whole) => put_run(rt, alloc, trial, whole, &mut out),
        Err(_) => out.lack(),
    }
    port.shut(rt);
    out
}
