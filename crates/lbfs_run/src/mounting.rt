//! `mount`: the lines of the source are run on the tree of a server, one by one. `specs/Mounting.antt`
//! states how that ends, and what is written then.

ghost use Rattle.std.specs.Prelude.{◌≡◌, ◌≤◌, ◌⊎◌, [], IfOk, IfSome, IsErrOf, is_some};
ghost use Rattle.std.specs.Option.{option_copied};
ghost use Rattle.lb_base.specs.Causes.{Rose};
ghost use Rattle.exit_status.specs.declared.status.Status.TheVariants as status;
ghost use Rattle.lbfs_mount.specs.Saved.{IsKept};
ghost use Rattle.lbfs_mount.specs.Heard.{SaysAt};
ghost use Rattle.lbfs_mount.specs.Mounts.{IsFaulty};
ghost use Rattle.lbfs_mount.specs.declared.mount_error.MountError.TheVariants as errors;
ghost use Rattle.lbfs_run.specs.Mounting.{MountEnds, mount_output};
ghost use Rattle.lbfs_run.specs.Telling.{Tells};

use crate::output::{Output, refused};
use crate::outside::Outside;
use crate::telling::tell;
use exit_status::status::Status;
use lb_base::items::Items;
use lb_base::sink::Sink;
use lb_base::source::Source;
use lbfs_mount::mount::mount;
use lbfs_mount::mount_error::MountError;
use links::clock::Clock;
use links::files::Files;
use links::network::Network;
use program_words::asked::{MountOptions, StorePath};
use std::alloc::{AllocError, Global};
use std::sync::Wait;
use std::thread::Threads;
use trace_text::refusal::{LineFault, Refusal};

/// An end of which nothing is written.
fn untold(alloc: Global, status: Status) -> Output
    ensures { (result.status ≡ status) × (result.text ≡ []) }
{
    Output {
        status,
        text: Items::new(alloc),
    }
}

/// What is written of how a mount ended, and the status then. The one error is running out of
/// memory.
fn mount_output(alloc: Global, ended: Result<(), MountError>) -> Result<Output, AllocError>
    ensures { IfOk result (λ out. (out.status, out.text) ≡ mount_output ended) }
{
    match ended {
        Ok(()) => Ok(untold(alloc, Status::Done)),
        Err(MountError::ReadFault) => Ok(untold(alloc, Status::ReadFault)),
        Err(MountError::WriteFault) => Ok(untold(alloc, Status::WriteFault)),
        Err(MountError::BadLine { number }) => refused(
            alloc,
            Status::Refused,
            Refusal::Line {
                number,
                fault: LineFault::Grammar,
            },
        ),
        Err(MountError::Network) => Ok(untold(alloc, Status::Network)),
        Err(MountError::Memory) => Ok(untold(alloc, Status::Memory)),
        Err(MountError::TooLong) => refused(alloc, Status::Refused, Refusal::LimitBytes),
    }
}

/// Writes how a mount ended, and answers the status.
fn tell_mounted<K: Sink>(alloc: Global, ended: Result<(), MountError>, sink: &mut K) -> Status
    ensures told { Tells result (K.held sink.old) (K.held sink.new) (mount_output ended) }
    ensures later { K.faults sink.old ≤ K.faults sink.new }
    ensures fault { result ≡ status.WriteFault → IsErrOf ended errors.WriteFault ⊎ Rose (K.faults sink.old) (K.faults sink.new) }
{
    match mount_output(alloc, ended) {
        Ok(output) => tell(&output, sink),
        Err(_) => Status::Memory,
    }
}

/// The name of a cache file, where there is one.
fn cache_name(cache: &Option<StorePath>) -> Option<&str>
    ensures some { is_some result ≡ is_some cache.now }
    ensures name { option_copied result ≡ cache.now }
{
    match cache {
        Some(path) => Some(path.as_str()),
        None => None,
    }
}

/// Runs the source's lines on the tree of a server, tells how that ended, and answers the status, with
/// the link whose twin could not be made, if it ended by that.
pub(crate) fn run_mount<
    H: Threads + Wait + Sync,
    S: Source + Drop,
    K: Sink + Drop,
    D,
    F: Files + Drop + Send,
    N: Network + Drop,
    C: Clock + Sync,
    R,
>(
    rt: &H,
    alloc: Global,
    options: MountOptions,
    out: Outside<S, K, D, F, N, C, R>,
) -> (Status, Outside<S, K, D, F, N, C, R>, Option<N::L>)
where
    N::L: Drop + Send,
    ensures mounts { MountEnds (SaysAt F N.L.held N.L.faults) (is_some options.cache) (S.left out.source)
        (S.left result.1.source) (K.held out.sink) (K.held result.1.sink) (S.faults out.source)
        (S.faults result.1.source) (K.faults out.sink) (N.faults out.network)
        (N.faults result.1.network) (IsFaulty N.L.faults result.2) result.0 }
    ensures saved { result.0 ≡ status.Done → IfSome options.cache (λ name. ∥ IsKept options.drift options.keep name
        (record { files = F.files out.files; faults = F.faults out.files })
        (record { files = F.files result.1.files; faults = F.faults result.1.files }) ∥₁) }
    ensures unstored { result.1.store ≡ out.store }
    ensures read_later { S.faults out.source ≤ S.faults result.1.source }
    ensures write_later { K.faults out.sink ≤ K.faults result.1.sink }
    ensures read_fault { result.0 ≡ status.ReadFault → Rose (S.faults out.source) (S.faults result.1.source) }
    ensures write_fault { result.0 ≡ status.WriteFault → Rose (K.faults out.sink) (K.faults result.1.sink) }
    ensures network_fault { result.0 ≡ status.Network → Rose (N.faults out.network) (N.faults result.1.network) ⊎ IsFaulty N.L.faults result.2 }
    ensures known { (result.0 ≡ status.Done) ⊎ (result.0 ≡ status.ReadFault) ⊎ (result.0 ≡ status.WriteFault) ⊎ (result.0 ≡ status.Refused) ⊎ (result.0 ≡ status.Memory) ⊎ (result.0 ≡ status.Network) }
{
    let Outside {
        source,
        sink,
        store,
        files,
        network,
        clock,
        rest,
    } = out;
    let (ended, source, mut sink, files, network, unpaired) = mount(
        rt,
        alloc,
        source,
        sink,
        files,
        network,
        &clock,
        options.port,
        options.drift,
        cache_name(&options.cache),
        options.keep,
    );
    drop(options);
    let status = tell_mounted(alloc, ended, &mut sink);
    let out = Outside {
        source,
        sink,
        store,
        files,
        network,
        clock,
        rest,
    };
    (status, out, unpaired)
}
