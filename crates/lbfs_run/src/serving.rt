//! `serve`: the tree of a store, served until as many sessions as were asked for have ended.
//! `specs/Serving.antt` states how that ends, and what is written then.

ghost use Rattle.std.specs.Prelude.{◌≡◌, ◌≤◌, ◌⊎◌, IfOk};
ghost use Rattle.lb_base.specs.Causes.{Rose};
ghost use Rattle.exit_status.specs.declared.status.Status.TheVariants as status;
ghost use Rattle.lbfs_run.specs.Ends.{StoreFails};
ghost use Rattle.limits.specs.declared.TheConstants.{TERM_MOST};
ghost use Rattle.lbfs_run.specs.Serving.{ServeEnds, record_text, serve_output, served_text};
ghost use Rattle.lbfs_run.specs.Telling.{Tells};

use crate::output::Output;
use crate::outside::Outside;
use crate::telling::tell;
use exit_status::status::Status;
use lb_base::items::{Bytes, Items};
use lb_base::sink::Sink;
use lbfs_server::serve::{ServeError, Served, serve};
use limits::TERM_MOST;
use links::clock::Clock;
use links::network::Network;
use links::rest::Rest;
use program_words::asked::ServeOptions;
use server_turns::gate::OpenGate;
use std::alloc::{AllocError, Global};
use std::fmt::Write;
use std::sync::Wait;
use std::thread::Threads;
use synced_store::syncs::Synced;

/// The line of a server that served so many sessions, and whose journal was so long in the end.
fn served_text(alloc: Global, served: Served) -> Result<Bytes, AllocError>
    ensures { IfOk result (λ text. text ≡ served_text served.sessions served.front) }
{
    let Served { sessions, front } = served;
    let mut text = String::new(alloc);
    write!(text, "sessions {sessions} journal {front}\n")?;
    Ok(Items::from_vec(text.into_bytes()))
}

/// The line of a store of which this record breaks a rule.
fn record_text(alloc: Global, which: usize) -> Result<Bytes, AllocError>
    ensures { IfOk result (λ text. text ≡ record_text which) }
{
    let mut text = String::new(alloc);
    write!(text, "store record {which}\n")?;
    Ok(Items::from_vec(text.into_bytes()))
}

/// What is written of how serving ended, and the status then. The one error is running out of
/// memory.
fn serve_output(alloc: Global, ended: Result<Served, ServeError>) -> Result<Output, AllocError>
    ensures { IfOk result (λ out. (out.status, out.text) ≡ serve_output ended) }
{
    let (status, text) = match ended {
        Ok(served) => (Status::Done, served_text(alloc, served)?),
        Err(ServeError::Network) => (Status::Network, Items::new(alloc)),
        Err(ServeError::Store) => (Status::Store, Items::copy_of(alloc, b"store fault\n")?),
        Err(ServeError::BadRecord { which }) => (Status::Store, record_text(alloc, which)?),
        Err(ServeError::Memory) => (Status::Memory, Items::new(alloc)),
        Err(ServeError::NoThread) => (Status::NoThread, Items::new(alloc)),
    };
    Ok(Output { status, text })
}

/// Writes how serving ended, and answers the status.
fn tell_served<K: Sink>(alloc: Global, ended: Result<Served, ServeError>, sink: &mut K) -> Status
    ensures told { Tells result (K.held sink.old) (K.held sink.new) (serve_output ended) }
    ensures later { K.faults sink.old ≤ K.faults sink.new }
    ensures fault { result ≡ status.WriteFault → Rose (K.faults sink.old) (K.faults sink.new) }
{
    match serve_output(alloc, ended) {
        Ok(output) => tell(&output, sink),
        Err(_) => Status::Memory,
    }
}

/// For how long leases are granted, in milliseconds; words allow no longer term than `TERM_MOST`.
fn term_of(options: &ServeOptions) -> u32
    ensures { options.now.term ≤ TERM_MOST → result ≡ options.now.term }
{
    options.term.min(TERM_MOST) as u32
}

/// Serves the store's tree, tells how that ended, and answers the status. No link is left over.
pub(crate) fn run_serve<
    H: Threads + Wait + Sync,
    S,
    K: Sink,
    D: Synced + Drop + Send,
    F,
    N: Network + Drop,
    C: Clock + Sync,
    R: Rest + Sync,
>(
    rt: &H,
    alloc: Global,
    options: &ServeOptions,
    out: Outside<S, K, D, F, N, C, R>,
) -> (Status, Outside<S, K, D, F, N, C, R>, Option<N::L>)
where
    N::L: Drop + Send,
    ensures serves { ServeEnds options.now (N.accepted out.network)
        (N.accepted result.1.network) (N.faults out.network) (N.faults result.1.network)
        (D.faults out.store) (D.faults result.1.store) (N.at result.1.network)
        (D.records out.store) (D.there out.store) (K.held out.sink)
        (K.held result.1.sink) result.0 }
    ensures unread { result.1.source ≡ out.source }
    ensures unfiled { result.1.files ≡ out.files }
    ensures write_later { K.faults out.sink ≤ K.faults result.1.sink }
    ensures write_fault { result.0 ≡ status.WriteFault → Rose (K.faults out.sink) (K.faults result.1.sink) }
    ensures network_fault { result.0 ≡ status.Network → Rose (N.faults out.network) (N.faults result.1.network) }
    ensures store_fault { result.0 ≡ status.Store → StoreFails (D.faults out.store) (D.faults result.1.store) (D.records out.store) (K.held out.sink) (K.held result.1.sink) }
    ensures known { (result.0 ≡ status.Done) ⊎ (result.0 ≡ status.WriteFault) ⊎ (result.0 ≡ status.Memory) ⊎ (result.0 ≡ status.Network) ⊎ (result.0 ≡ status.Store) ⊎ (result.0 ≡ status.NoThread) }
{
    let Outside {
        source,
        mut sink,
        store,
        files,
        network,
        clock,
        rest,
    } = out;
    let (ended, store, network) = serve(
        rt,
        alloc,
        store,
        options.store.as_str(),
        network,
        &clock,
        &rest,
        OpenGate,
        options.port,
        term_of(options),
        options.sessions,
    );
    let status = tell_served(alloc, ended, &mut sink);
    let out = Outside {
        source,
        sink,
        store,
        files,
        network,
        clock,
        rest,
    };
    (status, out, None)
}
