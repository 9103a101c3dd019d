//! `check`: a store is looked over, and stays as it is. `specs/Checking.antt` states how that ends, and
//! what is written then.

ghost use Rattle.std.specs.Prelude.{◌≡◌, ◌≤◌, ◌⊎◌, IfOk};
ghost use Rattle.lb_base.specs.Causes.{Rose};
ghost use Rattle.exit_status.specs.declared.status.Status.TheVariants as status;
ghost use Rattle.lbfs_run.specs.Checking.{CheckEnds, check_output, whole_status};
ghost use Rattle.lbfs_run.specs.Ends.{StoreFails};
ghost use Rattle.lbfs_run.specs.Telling.{Tells};

use crate::output::Output;
use crate::outside::Outside;
use crate::telling::tell;
use exit_status::status::Status;
use lb_base::items::Items;
use lb_base::sink::Sink;
use links::network::Network;
use program_words::asked::CheckOptions;
use std::alloc::{AllocError, Global};
use store::store::StoreError;
use store_report::report::report_of;
use synced_store::checks::{CheckedStore, Checks};

/// The status of a store that is whole, or isn't.
fn whole_status(is_whole: bool) -> Status
    ensures { result ≡ whole_status is_whole }
{
    if is_whole {
        Status::Done
    } else {
        Status::Broken
    }
}

/// What is written of what was found, and the status then. The one error is running out of memory.
fn check_output(
    alloc: Global,
    looked: &Result<CheckedStore, StoreError>,
) -> Result<Output, AllocError>
    ensures { IfOk result (λ out. (out.status, out.text) ≡ check_output looked.now) }
{
    let (status, text) = match looked {
        Ok(found) => {
            let report = report_of(alloc, found)?;
            (whole_status(report.is_whole), report.text)
        }
        Err(StoreError::Failed) => (Status::Store, Items::copy_of(alloc, b"store fault\n")?),
        Err(StoreError::Memory) => (Status::Memory, Items::new(alloc)),
    };
    Ok(Output { status, text })
}

/// Writes what was found, and answers the status.
fn tell_checked<K: Sink>(
    alloc: Global,
    looked: &Result<CheckedStore, StoreError>,
    sink: &mut K,
) -> Status
    ensures told { Tells result (K.held sink.old) (K.held sink.new) (check_output looked.now) }
    ensures later { K.faults sink.old ≤ K.faults sink.new }
    ensures fault { result ≡ status.WriteFault → Rose (K.faults sink.old) (K.faults sink.new) }
{
    match check_output(alloc, looked) {
        Ok(output) => tell(&output, sink),
        Err(_) => Status::Memory,
    }
}

/// Looks over the store, tells what was found, and answers the status. No link is left over.
pub(crate) fn run_check<S, K: Sink, D: Checks, F, N: Network, C, R>(
    alloc: Global,
    options: &CheckOptions,
    out: Outside<S, K, D, F, N, C, R>,
) -> (Status, Outside<S, K, D, F, N, C, R>, Option<N::L>)
    ensures checks { CheckEnds options.now (D.faults out.store) (D.faults result.1.store) (D.records out.store) (D.there out.store) (K.held out.sink) (K.held result.1.sink) result.0 }
    ensures kept { D.records result.1.store ≡ D.records out.store }
    ensures unread { result.1.source ≡ out.source }
    ensures unfiled { result.1.files ≡ out.files }
    ensures apart { result.1.network ≡ out.network }
    ensures write_later { K.faults out.sink ≤ K.faults result.1.sink }
    ensures write_fault { result.0 ≡ status.WriteFault → Rose (K.faults out.sink) (K.faults result.1.sink) }
    ensures store_fault { result.0 ≡ status.Store → StoreFails (D.faults out.store) (D.faults result.1.store) (D.records out.store) (K.held out.sink) (K.held result.1.sink) }
    ensures known { (result.0 ≡ status.Done) ⊎ (result.0 ≡ status.WriteFault) ⊎ (result.0 ≡ status.Memory) ⊎ (result.0 ≡ status.Store) ⊎ (result.0 ≡ status.Broken) }
{
    let Outside {
        source,
        mut sink,
        mut store,
        files,
        network,
        clock,
        rest,
    } = out;
    let looked = store.check(alloc, options.store.as_str());
    let status = tell_checked(alloc, &looked, &mut sink);
    drop(looked);
    let out = Outside {
        source,
        sink,
        store,
        files,
        network,
        clock,
        rest,
    };
    (status, out, None)
}
