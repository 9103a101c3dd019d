//! The plain parts of a step: what is done (`specs/Counting.antt`), and what is open
//! (`specs/State.antt`).

ghost use Rattle.std.specs.Prelude.{◌≡◌, ◌≤◌, length, [], option_map, unwrap_or, IfSome};
ghost use Rattle.limits.specs.declared.TheConstants.{FILE_MOST};
ghost use Rattle.client_state.specs.Counting.{ends, sends, nothing_done, sends_one};
ghost use Rattle.client_state.specs.State.{local_at, local_bytes};
ghost use Rattle.std.specs.List.{All};
ghost use Rattle.std.specs.Map.{values_of};
ghost use Rattle.client_state.specs.View.{IsLocalBounded};
ghost use Rattle.std.specs.Option.{option_copied};
ghost use Rattle.client_state.specs.Ending.{is_open, refusal_code};

use crate::step::{ClientStep, Ended, Outcome};
use crate::task::Local;
use cut_bytes::CutBytes;
use send_list::SendList;
use std::alloc::Global;
use std::collections::BTreeMap;
use transfer_rules::counts::{Counts, no_counts};
use wire::message::{Message, RpcRefusal};

/// Messages are sent. It takes no memory.
pub fn sends(send: SendList<Message>, counts: Counts) -> ClientStep
    ensures { result ≡ sends send counts }
{
    ClientStep {
        send,
        ended: None,
        counts,
        found: None,
        missed: false,
    }
}

/// Nothing is done. It takes no memory.
pub fn nothing_done(alloc: Global) -> ClientStep
    ensures { result ≡ nothing_done }
{
    sends(SendList::none(alloc), no_counts())
}

/// A message is sent, after so many bytes of a READ came. It takes no memory.
pub fn sends_one(alloc: Global, message: Message, bytes: u64) -> ClientStep
    ensures { result ≡ sends_one message bytes }
{
    let counts = Counts {
        bytes,
        ..no_counts()
    };
    sends(SendList::one(alloc, message), counts)
}

/// The operation ends so, resting on the call with this xid, after so many bytes of a READ came. It
/// takes no memory.
pub fn ends(alloc: Global, outcome: Outcome, rests_on: u32, bytes: u64) -> ClientStep
    ensures { result ≡ ends outcome rests_on bytes }
{
    ClientStep {
        send: SendList::none(alloc),
        ended: Some(Ended { outcome, rests_on }),
        counts: Counts {
            bytes,
            ..no_counts()
        },
        found: None,
        missed: false,
    }
}

/// Whether the file is open.
pub fn is_open(opened: &BTreeMap<u64, Local>, file: u64) -> bool
    ensures { result ≡ is_open opened.now.entries file }
{
    opened.contains_key(&file)
}

/// The open file, which is within the limit of a file.
pub fn find_local(opened: &BTreeMap<u64, Local>, file: u64) -> Option<&Local>
    requires { All IsLocalBounded (values_of opened.now.entries) }
    ensures found { option_copied result ≡ local_at opened.now.entries file }
    ensures bounded { IfSome result (λ l. IsLocalBounded l.now) }
{
    opened.get(&file)
}

/// The local content of a file; nothing where it isn't open.
pub fn local_bytes(opened: &BTreeMap<u64, Local>, file: u64) -> &[u8]
    requires { All IsLocalBounded (values_of opened.now.entries) }
    ensures bytes { result.now ≡ local_bytes opened.now.entries file }
    ensures bounded { length result.now ≤ FILE_MOST }
{
    match find_local(opened, file) {
        Some(local) => local.bytes.as_slice(),
        None => &[],
    }
}

/// The content of a file that was open; nothing where it wasn't. It takes no memory.
pub fn bytes_of(local: Option<Local>) -> CutBytes
    ensures { result ≡ unwrap_or (option_map (λ l. l.bytes) local) [] }
{
    match local {
        Some(local) => local.bytes,
        None => CutBytes::empty(),
    }
}

/// The number of a refusal: an accept_stat, or 10 and a reject_stat (RFC 5531, section 9).
pub fn refusal_code(refusal: RpcRefusal) -> u32
    ensures { result ≡ refusal_code refusal }
{
    match refusal {
        RpcRefusal::ProgUnavail => 1,
        RpcRefusal::ProgMismatch { .. } => 2,
        RpcRefusal::ProcUnavail => 3,
        RpcRefusal::GarbageArgs => 4,
        RpcRefusal::SystemErr => 5,
        RpcRefusal::RpcMismatch { .. } => 10,
        RpcRefusal::AuthError(_) => 11,
    }
}
