//! What a record is, as far as it is shown. `specs/Said.antt` and `specs/Line.antt` state it.

ghost use Rattle.std.specs.Prelude.{◌≡◌, ℕ, Ok, IfOk, length};
ghost use Rattle.wire.specs.Message.{body_spell};
ghost use Rattle.wire.specs.Parse.{parse_of};
ghost use Rattle.wire.specs.declared.message.Body.{Body};
ghost use Rattle.wire.specs.declared.message.Message.TheVariants as messages;
ghost use Rattle.record_show.specs.Stat.{answer_form};
ghost use Rattle.record_show.specs.Line.{any_call, line_of, answer_line};
ghost use Rattle.record_show.specs.Said.{said_of, IsSaid};

use crate::line::Line;
use crate::stat::read_answer;
use lb_base::items::Items;
use rpc_record::messages::Call;
use std::alloc::{AllocError, Global};
use wire::fault::{WireError, WireFault, place};
use wire::message::{LBFS_SERVED, Message, Program, RpcRefusal, Side, Waiting};
use wire::parse::parse;
use xdr_codec::fault::ReadError;
use xdr_codec::reader::Reader;

/// How many bytes follow the header of a call that was read.
fn argument_bytes(alloc: Global, contents: &[u8]) -> Result<usize, AllocError>
    ensures { IfOk result (λ count. (xid : ℕ) (body : Body) → parse_of any_call contents.now ≡ Ok (messages.Call xid body) → count ≡ length (body_spell body)) }
{
    let mut reader = Reader::new(contents);
    // The header was read before, so only memory can run out.
    match Call::read(alloc, &mut reader) {
        Ok(_) => Ok(reader.left()),
        Err(_) => Err(AllocError),
    }
}

/// The line of an answer, whether or not it is awaited.
fn answer_line(alloc: Global, contents: &[u8]) -> Result<Line, AllocError>
    ensures { IfOk result (λ line. line ≡ answer_line (answer_form.read (record { at = 0; rest = contents.now }))) }
{
    let mut reader = Reader::new(contents);
    match read_answer(alloc, &mut reader) {
        Ok((front, stat)) => Ok(Line::Answer {
            xid: front.xid,
            stat,
            behind: reader.left(),
        }),
        Err(ReadError::Fault(fault)) => Ok(Line::Bad { at: place(fault) }),
        Err(ReadError::Memory) => Err(AllocError),
    }
}

/// What a record is, where every call and no answer is expected.
#[derive(Clone, Copy, Drop)]
enum Said {
    /// A call.
    Call { xid: u32, program: Program },
    /// A call that no server can take.
    Unfit { xid: u32, refusal: RpcRefusal },
    /// No message, from the item at `at` on.
    NoMessage { at: usize },
    /// Neither of these, so an answer.
    NoCall,
    /// Memory ran out.
    Unknown,
}

fn said_by(read: &Result<Message, WireError>) -> Said
    ensures { result ≡ said_of read.now }
{
    match read {
        Ok(Message::Call(xid, body)) => Said::Call {
            xid: *xid,
            program: body.program(),
        },
        Ok(Message::Unfit(xid, refusal)) => Said::Unfit {
            xid: *xid,
            refusal: *refusal,
        },
        Err(WireError::Fault(WireFault::NotRpc { at })) => Said::NoMessage { at: *at },
        Err(WireError::Memory) => Said::Unknown,
        Ok(Message::Answer(_, _) | Message::Refuse(_, _))
        | Err(WireError::Fault(WireFault::UnknownXid { .. } | WireFault::Garbage { .. })) => {
            Said::NoCall
        }
    }
}

fn said_in(alloc: Global, contents: &[u8]) -> Said
    ensures { IsSaid result (parse_of any_call contents.now) }
{
    let expected = Waiting {
        side: Side::Either,
        lbfs: LBFS_SERVED,
        calls: Items::new(alloc),
    };
    let read = parse(alloc, contents, &expected);
    let said = said_by(&read);
    drop(read);
    said
}

/// What is shown of a record. The one error is running out of memory.
pub fn line_of(alloc: Global, contents: &[u8]) -> Result<Line, AllocError>
    ensures { IfOk result (λ line. line ≡ line_of contents.now) }
{
    match said_in(alloc, contents) {
        Said::Call { xid, program } => {
            let arguments = argument_bytes(alloc, contents)?;
            Ok(Line::Call {
                xid,
                program,
                arguments,
            })
        }
        Said::Unfit { xid, refusal } => Ok(Line::Unfit { xid, refusal }),
        Said::NoMessage { at } => Ok(Line::Bad { at }),
        Said::NoCall => answer_line(alloc, contents),
        Said::Unknown => Err(AllocError),
    }
}
