//! What is said to a server for a session: something to be put out, and a content that is cut and hashed while the
//! session is told something. That goes out meanwhile, in a call of its own, since no thread of the session holds its
//! link then.

ghost use Rattle.turn_post.specs.Passes.{IsPassOf};

use crate::sessions::SharedOf;
use hash_calls::call::TempPiece;
use hash_calls::message::Lb;
use lb_base::items::{Bytes, Items};
use server_core::event::Event;
use server_held::turns::Turns;
use std::alloc::{AllocError, Global};
use std::sync::Wait;
use turn_post::post::Pass;
use wire::message::{Body, LBFS_SPOKEN, Message, RpcRefusal};

/// How many bytes a piece has, and how many there are.
const PIECE: usize = 65_536;

const PIECES: u32 = 256;

/// The zeros of a piece.
fn zeros(alloc: Global) -> Result<Bytes, AllocError> {
    Ok(Items::from_vec(vec![in alloc; 0u8; PIECE]?))
}

/// Something is to be put out to the session.
pub fn say<R: Wait + Copy + Drop, H: Turns + Drop>(
    rt: &R,
    shared: &SharedOf<H, R>,
    pass: Pass<H>,
    session: u32,
) -> Pass<H>
    requires { IsPassOf shared.now.post pass }
    ensures { IsPassOf shared.now.post result }
{
    let event = Event::Got {
        session,
        message: Message::Unfit(7, RpcRefusal::ProcUnavail),
        now: 0,
    };
    let (next, _went) = shared.event(rt, pass, event);
    next
}

/// The client's temporary file 1 gets all pieces; none of it comes on the line.
pub fn store_pieces<R: Wait + Copy + Drop, H: Turns + Drop>(
    rt: &R,
    shared: &SharedOf<H, R>,
    pass: Pass<H>,
    session: u32,
) -> Pass<H>
    requires { IsPassOf shared.now.post pass }
    ensures { IsPassOf shared.now.post result }
{
    let mut pass = pass;
    for at in 0..PIECES {
        if let Ok(bytes) = zeros(shared.alloc()) {
            let piece = TempPiece {
                lbfs: LBFS_SPOKEN,
                fd: 1,
                offset: u64::from(at).saturating_mul(PIECE as u64),
                bytes,
            };
            let event = Event::Got {
                session,
                message: Message::Call(at, Body::Lb(Lb::TmpWrite(piece))),
                now: 0,
            };
            let (next, _went) = shared.event(rt, pass, event);
            pass = next;
        }
    }
    pass
}
