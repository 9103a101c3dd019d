//! What a shell hears in answers beside what its client tells of them: the ids on the pages of a directory, and that
//! of a file that was made. `specs/Hearing.antt` states it.

ghost use Rattle.std.specs.Prelude.{◌≡◌, ◌++◌, None, OnOk, map};
ghost use Rattle.shell_link.specs.Hearing.{made_id, nothing_heard, Heeds, HeedsNfs, HeedsPage, ids_for, listed_as};

use lb_base::items::{Items, Name};
use nfs3_calls::listing::Entry;
use nfs3_calls::message::Nfs;
use shell_walks::remote::Listed;
use std::alloc::{AllocError, Global};
use std::mem;
use wire::fault::WireFault;
use wire::message::{Body, Message};
use xdr_codec::answer::Answer;
use xdr_codec::handle::Handle;

/// What came for one command so far.
#[derive(Drop)]
pub(crate) struct Heard {
    /// The ids on the pages that came; none once memory ran out for one.
    pub ids: Option<Items<u64>>,
    /// The file that the last CREATE made.
    pub made: Option<u64>,
    /// Whether anything came at all.
    pub came: bool,
}

/// Nothing was heard yet.
pub(crate) fn nothing_heard(alloc: Global) -> Heard
    ensures { result ≡ nothing_heard }
{
    Heard {
        ids: Some(Items::new(alloc)),
        made: None,
        came: false,
    }
}

/// The ids of a page go behind those that there are.
fn add_ids(ids: &mut Items<u64>, entries: &[Entry]) -> Result<(), AllocError>
    ensures { OnOk result (ids.new ≡ ids.old ++ map (λ e. e.fileid) entries.now) }
{
    for entry in entries {
        ids.push(entry.fileid)?;
    }
    Ok(())
}

/// The same; none where memory runs out, or did.
fn more_ids(ids: Option<Items<u64>>, entries: &[Entry]) -> Option<Items<u64>>
    ensures { HeedsPage ids entries.now result }
{
    let mut ids = ids?;
    match add_ids(&mut ids, entries) {
        Ok(()) => Some(ids),
        Err(_) => None,
    }
}

/// The file that a handle names, if there is one.
fn made_id(handle: &Option<Handle>) -> Option<u64>
    ensures { result ≡ made_id handle.now }
{
    match handle {
        Some(handle) => handle.file_of(),
        None => None,
    }
}

/// What an answer of the file system tells is heard.
fn heed_nfs(heard: &mut Heard, answer: &Nfs)
    ensures { HeedsNfs heard.old answer.now heard.new }
{
    match answer {
        Nfs::ReadDirAnswer(Answer::Done(page)) => {
            let ids = mem::replace(&mut heard.ids, None);
            heard.ids = more_ids(ids, page.entries.as_slice());
        }
        Nfs::CreateAnswer(Answer::Done(made)) => {
            heard.made = made_id(&made.handle);
        }
        _ => {}
    }
}

/// What a message tells is heard, and that something came.
pub(crate) fn heed(heard: &mut Heard, message: &Result<Message, WireFault>)
    ensures { Heeds heard.old message.now heard.new }
{
    heard.came = true;
    if let Ok(Message::Answer(_, Body::Nfs(answer))) = message {
        heed_nfs(heard, answer);
    }
}

/// The ids of so many names, or none: an answer to an earlier command, which nobody waits for any more, may be among
/// those that were heard.
fn ids_for(alloc: Global, count: usize, ids: Option<Items<u64>>) -> Items<u64>
    ensures { result ≡ ids_for count ids }
{
    match ids {
        Some(ids) if ids.len() == count => ids,
        _ => Items::new(alloc),
    }
}

/// What is in a directory that has these names.
pub(crate) fn listed_as(alloc: Global, names: Items<Name>, ids: Option<Items<u64>>) -> Listed
    ensures { result ≡ listed_as names ids }
{
    let ids = ids_for(alloc, names.len(), ids);
    Listed { names, ids }
}
