//! Which leases are granted, and what answers to RECALLs do. `specs/Leasing.antt` and
//! `specs/Recalling.antt` say it. It knows the leases and the pending changes, and no server.

ghost use Rattle.std.specs.Prelude.{◌≡◌, ◌<◌, ◌^◌, ◌==◌, OnOk, OnErr, false};
ghost use Rattle.wire.specs.declared.message.Body.TheVariants as body;
ghost use Rattle.server_core.specs.Leasing.{with_granted, with_granted_on, term_if};
ghost use Rattle.server_core.specs.Recalling.{leased_file};
ghost use Rattle.server_core.specs.Step.{is_recalled};

use callback_core::waits::Waits;
use chunk_calls::answers::target_in;
use file_tree::tree::Tree;
use hash_calls::message::{Back, Lb};
use lease_rules::term::term_for;
use std::alloc::AllocError;
use wire::message::Body;

/// The file on which a call is granted a lease, if it names one.
pub fn leased_file(tree: &Tree, call: &Lb) -> Option<u64>
    ensures { result ≡ leased_file tree.now.tree call.now }
{
    let handle = match call {
        Lb::GetLease(lease) => &lease.handle,
        Lb::GetHash(range) => &range.handle,
        _ => return None,
    };
    match target_in(tree, handle) {
        Ok(file) => Some(file),
        Err(_) => None,
    }
}

/// The term of a lease on a file, in milliseconds; 0 where there is none.
pub fn term_on<P: Drop>(waits: &Waits<P>, term: u32, file: Option<u64>) -> u32
    ensures { result ≡ term_if term waits.now.waits file }
{
    match file {
        Some(file) => term_for(waits.waits_on(file), term),
        None => 0,
    }
}

/// Takes memory for a lease of this term; for none where it is 0. Nothing else changes.
pub fn reserve<P: Drop>(waits: &mut Waits<P>, term: u32) -> Result<(), AllocError>
    ensures place { OnOk result ((term == 0) ≡ false → 0 < waits.new.spare) }
    ensures err { OnErr result ((term == 0) ≡ false) }
    ensures leases { waits.new.leases ≡ waits.old.leases }
    ensures waits { waits.new.waits ≡ waits.old.waits }
{
    if term == 0 {
        return Ok(());
    }
    waits.reserve(1)
}

/// A session gets a lease on a file from this moment on, for which there is a place; none where the
/// term is 0. Those that have ended are forgotten.
pub fn grant<P: Drop>(waits: &mut Waits<P>, session: u32, file: u64, moment: u64, term: u32)
    requires early { moment < 2 ^ 63 }
    requires place { (term == 0) ≡ false → 0 < waits.old.spare }
    ensures leases { waits.new.leases ≡ with_granted waits.old.leases moment session file term }
    ensures waits { waits.new.waits ≡ waits.old.waits }
{
    if term == 0 {
        return;
    }
    waits.forget_ended(moment);
    match waits.grant(session, file, moment, term) {
        Ok(()) => {}
        Err(_) => unreachable!(),
    }
}

/// The same on a file, if there is one.
pub fn grant_on<P: Drop>(
    waits: &mut Waits<P>,
    session: u32,
    file: Option<u64>,
    moment: u64,
    term: u32,
)
    requires early { moment < 2 ^ 63 }
    requires place { (term == 0) ≡ false → 0 < waits.old.spare }
    ensures leases { waits.new.leases ≡ with_granted_on waits.old.leases moment session file term }
    ensures waits { waits.new.waits ≡ waits.old.waits }
{
    if let Some(file) = file {
        grant(waits, session, file, moment, term);
    }
}

/// Whether an answer of the callback program says that a RECALL was done.
fn is_done(told: &Back) -> bool
    ensures { result ≡ is_recalled (body.Back told.now) }
{
    match told {
        Back::RecallAnswer => true,
        _ => false,
    }
}

/// Whether an answer says that a RECALL was done.
pub fn is_recalled(told: &Body) -> bool
    ensures { result ≡ is_recalled told.now }
{
    match told {
        Body::Back(told) => is_done(told),
        _ => false,
    }
}
