//! A mount from its first connection to its end. `specs/Mounts.antt` says what it writes.

ghost use Rattle.std.specs.Prelude.{◌≡◌, ℕ, ◌≤◌, ◌⊎◌, Option, OnOk, IfSome, IsErrOf, is_some};
ghost use Rattle.lb_base.specs.Causes.{Rose};
ghost use Rattle.lbfs_client.specs.Host.{Host};
ghost use Rattle.mount_desk.specs.Course.{nothing_done};
ghost use Rattle.lbfs_mount.specs.Cached.{EndsAll, IsBadLineAll, IsDoneAll, SavesAfter, WritesAll};
ghost use Rattle.lbfs_mount.specs.Heard.{SaysAt, SaysRun};
ghost use Rattle.lbfs_mount.specs.Mounts.{Ends, IsFaulty, IsTooLong};
ghost use Rattle.lbfs_mount.specs.Saved.{IsKept, SavesIf, known_end};
ghost use Rattle.lbfs_mount.specs.declared.mount_error.MountError.TheVariants as errors;

use crate::connecting::Dialler;
use crate::mount_error::MountError;
use crate::noticing::{load, save};
use crate::running::run_lines;
use lb_base::sink::Sink;
use lb_base::source::Source;
use lbfs_client::mounted::Mounted;
use links::clock::Clock;
use links::files::Files;
use links::network::Network;
use mount_desk::kept_desk::KeptDesk;
use mount_desk::shared::{ScriptTurns, Shared};
use mount_desk::turns::Turns;
use std::alloc::Global;
use std::sync::Wait;
use std::thread;
use std::thread::Threads;

/// Runs the lines of the script in a scope of threads, and gives the mount's farewell behind them, however
/// they ended.
fn run_shared<
    'x,
    R: Threads + Wait + Sync,
    S: Source + Drop,
    K: Sink + Drop,
    D: Turns<L = N::L> + Drop + Send,
    N: Network + Drop,
    C: Clock + Sync,
>(
    rt: &'x R,
    shared: &'x Shared<D>,
    script: S,
    sink: K,
    dialler: Dialler<N, N::L>,
    clock: &'x C,
) -> (Result<(), MountError>, S, K, Dialler<N, N::L>)
where
    N::L: Drop + Send,
    ensures ends { Ends (SaysRun D.runs D.takes) (IsFaulty N.L.faults result.3.unpaired)
        (record {
          left = S.left script;
          reads = S.faults script;
          held = K.held sink;
          writes = K.faults sink;
          dials = N.faults dialler.net;
        })
        (record {
          left = S.left result.1;
          reads = S.faults result.1;
          held = K.held result.2;
          writes = K.faults result.2;
          dials = N.faults result.3.net;
        }) result.0 }
    ensures later { (S.faults script ≤ S.faults result.1) × (K.faults sink ≤ K.faults result.2) }
{
    thread::scope(
        thread::scope_env(),
        rt,
        move |scope| -> (Result<(), MountError>, S, K, Dialler<N, N::L>)
            ensures ends { Ends (SaysRun D.runs D.takes) (IsFaulty N.L.faults result.3.unpaired)
                (record {
                  left = S.left script;
                  reads = S.faults script;
                  held = K.held sink;
                  writes = K.faults sink;
                  dials = N.faults dialler.net;
                })
                (record {
                  left = S.left result.1;
                  reads = S.faults result.1;
                  held = K.held result.2;
                  writes = K.faults result.2;
                  dials = N.faults result.3.net;
                }) result.0 }
            ensures later { (S.faults script ≤ S.faults result.1) × (K.faults sink ≤ K.faults result.2) }
        {
            let mut script = script;
            let mut sink = sink;
            let mut dialler = dialler;
            let turns = ScriptTurns::new(shared);
            let ended = run_lines(
                scope,
                rt,
                &turns,
                &mut dialler,
                clock,
                &mut script,
                &mut sink,
            );
            let _left = turns.leave(rt);
            (ended, script, sink, dialler)
        },
    )
}

/// How a mount ends of whose client all is known, or isn't, since memory ran out in a turn.
fn known_end(ended: Result<(), MountError>, known: bool) -> Result<(), MountError>
    ensures { result ≡ known_end ended known }
{
    match ended {
        Ok(()) => {
            if known {
                Ok(())
            } else {
                Err(MountError::Memory)
            }
        }
        Err(why) => Err(why),
    }
}

/// The cache file is written behind a script that was read to its end, where there is one and what stands there
/// may be replaced.
fn save_after<F: Files, K: Sink>(
    alloc: Global,
    ended: Result<(), MountError>,
    mounted: &mut Mounted<F>,
    cache: Option<&str>,
    replaces: bool,
    keep: u64,
    sink: &mut K,
) -> Result<(), MountError>
    ensures wrote { OnOk result (OnOk ended (IfSome cache.entry (λ name. SavesIf replaces keep mounted.old name.now mounted.new))) }
    ensures saves { SavesAfter (is_some cache.entry) ended (K.held sink.old) (K.held sink.new) (K.faults sink.old) (K.faults sink.new) result }
    ensures later { K.faults sink.old ≤ K.faults sink.new }
{
    match ended {
        Ok(()) => save(alloc, mounted, cache, replaces, keep, sink),
        Err(why) => Err(why),
    }
}

/// Runs the lines of the script over this client, between what is read of a cache file and what is
/// written to it, where there is one.
fn run_cached<
    R: Threads + Wait + Sync,
    S: Source + Drop,
    K: Sink + Drop,
    F: Files + Drop + Send,
    N: Network + Drop,
    C: Clock + Sync,
>(
    rt: &R,
    alloc: Global,
    mounted: Mounted<F>,
    script: S,
    sink: K,
    dialler: Dialler<N, N::L>,
    clock: &C,
    drift: u64,
    cache: Option<&str>,
    keep: u64,
) -> (Result<(), MountError>, S, K, F, Dialler<N, N::L>)
where
    N::L: Drop + Send,
    requires { (host : Host) × (mounted ≡ nothing_done drift host) }
    ensures saved { OnOk result.0 (IfSome cache.entry (λ name. ∥ IsKept drift keep name.now mounted.host (record { files = F.files result.3; faults = F.faults result.3 }) ∥₁)) }
    ensures ends { EndsAll (SaysAt F N.L.held N.L.faults) (is_some cache.entry) (IsFaulty N.L.faults result.4.unpaired)
        (record {
          left = S.left script;
          reads = S.faults script;
          held = K.held sink;
          writes = K.faults sink;
          dials = N.faults dialler.net;
        })
        (record {
          left = S.left result.1;
          reads = S.faults result.1;
          held = K.held result.2;
          writes = K.faults result.2;
          dials = N.faults result.4.net;
        }) result.0 }
    ensures later { (S.faults script ≤ S.faults result.1) × (K.faults sink ≤ K.faults result.2) }
{
    let mut mounted = mounted;
    let mut sink = sink;
    let (began, replaces) = load(alloc, &mut mounted, cache, &mut sink);
    match began {
        Ok(()) => {}
        Err(why) => return (Err(why), script, sink, mounted.into_files(), dialler),
    }
    let shared = Shared::new(alloc, KeptDesk::new(alloc, mounted, drift, keep));
    let (ended, script, sink, dialler) = run_shared(rt, &shared, script, sink, dialler, clock);
    let (mounted, known) = shared.into_desk().into_parts(drift, keep);
    let mut mounted = mounted;
    let mut sink = sink;
    let behind = known_end(ended, known);
    let saved = save_after(
        alloc,
        behind,
        &mut mounted,
        cache,
        replaces,
        keep,
        &mut sink,
    );
    (saved, script, sink, mounted.into_files(), dialler)
}

/// Dials a port and runs the lines of a script over the connection, one by one: each line that isn't
/// skipped is an operation of the client, and its outcome's line is given to the sink as soon as it
/// has ended, before the next line is read. `join` dials again. A thread of its own takes the records
/// of a connection, and so answers what the server asks also while no line runs.
///
/// `Ok` comes once the script was read to its end; then one line was written for each of its lines
/// that isn't skipped, in order, which ran in a turn at the desk (`SaysAt`). `ReadFault` and `WriteFault` come only where the source's, or the
/// sink's, count of faults rose, `Network` where the network's did, or where a link that was dialled has
/// no twin, which is then given back with a fault counted on it; `BadLine` at the first line that is
/// none of a script, and `TooLong` where the script has more bytes than `INPUT_MOST`. All that it works
/// with is given back.
///
/// Where there is a cache file its items are the client's before the first line, and what the client keeps
/// is written to it behind a script that was read to its end. What is wrong with either is written, in a
/// line of its own before all others, or behind them. What stands there and is no cache file, or can't be read,
/// stays as it is (`IsKept`). The client keeps at most so many bytes of contents,
/// and takes its clock and the server's to drift apart so far, in milliseconds, while a lease lasts.
///
/// The client takes turns alone, each a line, a connection, a record or the end of a link: the bytes of
/// records are counted from a line's beginning, and what is kept is bounded where a line ends (`Course`).
/// What is written to a cache file is what a client keeps behind such turns.
pub fn mount<
    R: Threads + Wait + Sync,
    S: Source + Drop,
    K: Sink + Drop,
    F: Files + Drop + Send,
    N: Network + Drop,
    C: Clock + Sync,
>(
    rt: &R,
    alloc: Global,
    script: S,
    sink: K,
    files: F,
    net: N,
    clock: &C,
    port: u16,
    drift: u64,
    cache: Option<&str>,
    keep: u64,
) -> (Result<(), MountError>, S, K, F, N, Option<N::L>)
where
    N::L: Drop + Send,
    ensures done { OnOk result.0 (IsDoneAll (SaysAt F N.L.held N.L.faults) (is_some cache.entry) (S.left script) (S.left result.1) (K.held sink) (K.held result.2)) }
    ensures saved { OnOk result.0 (IfSome cache.entry (λ name. ∥ IsKept drift keep name.now (record { files = F.files files; faults = F.faults files })
        (record { files = F.files result.3; faults = F.faults result.3 }) ∥₁)) }
    ensures written { WritesAll (SaysAt F N.L.held N.L.faults) (is_some cache.entry) (K.held sink) (K.held result.2) }
    ensures read { IsErrOf result.0 errors.ReadFault → Rose (S.faults script) (S.faults result.1) }
    ensures write { IsErrOf result.0 errors.WriteFault → Rose (K.faults sink) (K.faults result.2) }
    ensures network { IsErrOf result.0 errors.Network → Rose (N.faults net) (N.faults result.4) ⊎ IsFaulty N.L.faults result.5 }
    ensures read_later { S.faults script ≤ S.faults result.1 }
    ensures write_later { K.faults sink ≤ K.faults result.2 }
    ensures bad_line { (n : ℕ) → IsErrOf result.0 (errors.BadLine n)
        → IsBadLineAll (SaysAt F N.L.held N.L.faults) (is_some cache.entry) (S.left script) (S.left result.1) (K.held sink) (K.held result.2) n }
    ensures too_long { IsErrOf result.0 errors.TooLong → IsTooLong (S.left script) (S.left result.1) }
{
    let mounted = match Mounted::new(alloc, files, drift) {
        Ok(mounted) => mounted,
        Err(files) => return (Err(MountError::Memory), script, sink, files, net, None),
    };
    let dialler = Dialler {
        net,
        port,
        unpaired: None,
    };
    let (ended, script, sink, files, dialler) = run_cached(
        rt, alloc, mounted, script, sink, dialler, clock, drift, cache, keep,
    );
    let Dialler { net, unpaired, .. } = dialler;
    (ended, script, sink, files, net, unpaired)
}
