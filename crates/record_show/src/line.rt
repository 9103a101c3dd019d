//! What is shown of a record, and its line. `specs/Line.antt` states both.

ghost use Rattle.std.specs.Prelude.{◌≡◌, ◌++◌, OnOk, string_bytes};
ghost use Rattle.record_show.specs.Line.{line_text};

use crate::names::{procedure_name, program_name, refusal_name, stat_name};
use crate::stat::Stat;
use std::alloc::AllocError;
use std::fmt::Write;
use wire::message::{Program, RpcRefusal};

/// What is shown of a record.
#[derive(Drop)]
pub enum Line {
    /// A call, with the number of bytes of its arguments.
    Call {
        xid: u32,
        program: Program,
        arguments: usize,
    },
    /// A call that no server can take, and the refusal that it asks for.
    Unfit {
        xid: u32,
        refusal: RpcRefusal,
    },
    /// An answer, with the number of bytes behind what it says of its call.
    Answer {
        xid: u32,
        stat: Stat,
        behind: usize,
    },
    /// No message, from the item at `at` on, counted from the record's first byte.
    Bad {
        at: usize,
    },
}

/// Writes the line. The one error is running out of memory.
pub fn put_line(out: &mut String, line: &Line) -> Result<(), AllocError>
    ensures { OnOk result (string_bytes out.new ≡ string_bytes out.old ++ line_text line.now) }
{
    match line {
        Line::Call {
            xid,
            program,
            arguments,
        } => {
            let (name, procedure) = (program_name(*program), procedure_name(*program));
            write!(out, "call {xid} {name} {procedure} {arguments}\n")
        }
        Line::Unfit { xid, refusal } => {
            let name = refusal_name(*refusal);
            write!(out, "unfit {xid} {name}\n")
        }
        Line::Answer { xid, stat, behind } => {
            let name = stat_name(stat);
            write!(out, "answer {xid} {name} {behind}\n")
        }
        Line::Bad { at } => write!(out, "bad {at}\n"),
    }
}
