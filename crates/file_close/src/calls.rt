//! The calls for chunks that go out in a step of a close, and the one that an answer is of:
//! `specs/Closing.antt`.

ghost use Rattle.std.specs.Prelude.{◌≡◌, ◌+◌, ◌-◌, ◌<◌, slice_get, IfOk, OnOk, ◌++◌, [], ◌∷◌};
ghost use Rattle.client_state.specs.View.{HasXids, IsStore, IsChunkBounded};
ghost use Rattle.file_close.specs.Sending.{IsSendingNames};
ghost use Rattle.file_close.specs.Closing.{is_stored, store_at, commit_call, names_next, names_all, without_store};
ghost use Rattle.std.specs.List.{All};
ghost use Rattle.std.specs.Option.{option_copied};
ghost use Rattle.client_state.specs.declared.task.Stage.TheVariants as stage;

use crate::messages;
use client_state::state::ClientState;
use client_state::task::{Upload, UploadCall, Way};
use lb_base::items::Items;
use send_list::SendList;
use std::alloc::{AllocError, Global};
use transfer_rules::bounds::room_beside;
use transfer_rules::chunks::{all_came, next_chunk};
use wire::message::Message;

/// The chunks of a close, the next xid, and the CONDWRITEs that were sent for them by now.
pub struct Names {
    pub store: Upload,
    pub next_xid: u32,
    pub send: SendList<Message>,
}

/// The next chunk is named in the client's version of LBFS, if there is one.
#[tactic(auto, using(client_state::proofs::lemmas::Bounds::chunk_bounded))]
fn name_next(state: &ClientState, names: &mut Names) -> Result<(), AllocError>
    requires xid { names.old.next_xid + 1 < 4294967296 }
    requires lens { All IsChunkBounded names.old.store.chunks }
    ensures { OnOk result (names.new ≡ names_next state.now.waiting.lbfs names.old (slice_get names.old.store.chunks names.old.store.named)) }
{
    let index = names.store.named;
    let Some(chunk) = next_chunk(names.store.chunks.as_slice(), index) else {
        return Ok(());
    };
    let xid = names.next_xid;
    let call = messages::cond_call(state.lbfs(), xid, names.store.temp, &chunk);
    names.send.push(call)?;
    let way = Way::Named;
    names.store.under.push(UploadCall { xid, index, way })?;
    names.store.named = index + 1;
    names.next_xid = xid + 1;
    Ok(())
}

/// All CONDWRITEs that may be under way beside the calls that are.
pub fn name_all(alloc: Global, state: &ClientState, store: Upload) -> Result<Names, AllocError>
    requires within { IsStore store }
    requires xids { HasXids state.now.next_xid (stage.Storing store) }
    ensures all { IfOk result (λ n. n ≡ names_all state.now.waiting.lbfs store state.now.next_xid) }
    ensures kept { IfOk result (λ n. IsSendingNames store.named state.now.next_xid n) }
{
    let room = room_beside(store.under.len());
    let mut names = Names {
        store,
        next_xid: state.next_xid(),
        send: SendList::none(alloc),
    };
    for _i in 0..room {
        match name_next(state, &mut names) {
            Ok(()) => {}
            Err(error) => {
                let Names {
                    store,
                    next_xid: _,
                    send,
                } = names;
                drop(store);
                drop(send);
                return Err(error);
            }
        }
    }
    Ok(names)
}

/// COMMITTMP goes out, in a version of LBFS, behind what goes out already.
pub fn send_commit(
    alloc: Global,
    lbfs: u32,
    xid: u32,
    temp: u32,
    file: u64,
    size: u64,
    send: &mut SendList<Message>,
) -> Result<(), AllocError>
    ensures { OnOk result (send.new ≡ send.old ++ commit_call lbfs xid temp file size ∷ []) }
{
    let call = messages::commit_call(alloc, lbfs, xid, temp, file, size)?;
    send.push(call)?;
    Ok(())
}

/// Whether all chunks of a close are stored.
pub fn is_stored(store: &Upload) -> bool
    ensures { result ≡ is_stored store.now }
{
    all_came(store.under.as_slice(), store.named, store.chunks.len())
}

/// The call of a close under way with this xid.
fn find_store(under: &[UploadCall], xid: u32) -> Option<&UploadCall>
    ensures { option_copied result ≡ store_at under.now xid }
{
    under.iter().find(|c| c.xid == xid)
}

/// A copy of the call of a close under way with this xid.
pub fn store_at(under: &[UploadCall], xid: u32) -> Option<UploadCall>
    ensures { result ≡ store_at under.now xid }
{
    match find_store(under, xid) {
        Some(call) => Some(*call),
        None => None,
    }
}

/// The calls of a close under way with other xids. It takes no memory.
pub fn without_store(under: Items<UploadCall>, xid: u32) -> Items<UploadCall>
    ensures { result ≡ without_store under xid }
{
    let mut left = under.into_vec();
    left.retain(|c| c.xid != xid);
    Items::from_vec(left)
}
