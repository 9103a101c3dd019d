//! A listing is bounded at a mount: past so many bytes of its pages one more counts as a page without an
//! entry, which is no directory's end, and which the client takes for a server's fault (`specs/Paging.antt`).
//! A server that never ends a listing so holds little of a mount's memory.

ghost use Rattle.std.specs.Prelude.{◌≡◌};
ghost use Rattle.lbfs_client.specs.Paging.{emptied_answer, emptied_body, emptied, bounded};

use lb_base::items::Items;
use nfs3_calls::message::Nfs;
use std::alloc::Global;
use wire::fault::WireFault;
use wire::message::{Body, Message};
use xdr_codec::answer::Answer;

/// How many bytes the answers to a line may have together, pages of a directory among them.
pub const LISTED_MOST: u64 = 64 << 20;

/// A page has no entry, and isn't the last.
fn empty_answer(alloc: Global, answer: &mut Nfs)
    ensures { answer.new ≡ emptied_answer answer.old }
{
    match answer {
        Nfs::ReadDirAnswer(Answer::Done(page)) => {
            page.entries = Items::new(alloc);
            page.eof = false;
        }
        _ => {}
    }
}

fn empty_body(alloc: Global, body: &mut Body)
    ensures { body.new ≡ emptied_body body.old }
{
    match body {
        Body::Nfs(answer) => empty_answer(alloc, answer),
        _ => {}
    }
}

fn empty(alloc: Global, message: &mut Message)
    ensures { message.new ≡ emptied message.old }
{
    match message {
        Message::Answer(_, body) => empty_body(alloc, body),
        _ => {}
    }
}

/// What came once the answers to the line under way have so many bytes.
pub(crate) fn bound(alloc: Global, listed: u64, message: &mut Result<Message, WireFault>)
    ensures { message.new ≡ bounded listed message.old }
{
    if LISTED_MOST < listed {
        match message {
            Ok(message) => empty(alloc, message),
            Err(_fault) => {}
        }
    }
}
