//! Arguments and results of procedures.

use crate::values::{Put, put_error};
use hash_calls::message::{Back, BackProc, Lb, LbIn, LbProc};
use nfs3_calls::message::{Nfs, NfsProc};
use row_text::bytes::{put_same, read_bytes};
use row_text::out::Out;
use row_text::text::{letter, named, small, split, words};
use std::alloc::Global;
use wire::message::Program;
use xdr_codec::fault::ReadError;
use xdr_codec::program::{ProgramBody, read_args, read_results, write};
use xdr_codec::reader::Reader;

/// The version of LBFS that a program's word names: `lbfs2` is version 2, and `lbfs` version 1.
fn lbfs_of(program: &str) -> u32 {
    named(&[("lbfs2", 2), ("lbfs3", 3), ("lbfs4", 4)], program, 1)
}

/// The procedure of the program, `nfs`, `lbfs` (or `lbfs2` to `lbfs4`) or `back`, that has the number.
pub fn of_number(program: &str, number: u32) -> Option<Program> {
    match letter(program) {
        b'n' => match NfsProc::of_number(number) {
            Some(found) => Some(Program::Nfs(found)),
            None => None,
        },
        b'b' => match BackProc::of_number(number) {
            Some(found) => Some(Program::Back(found)),
            None => None,
        },
        _ => match LbProc::of_number_in(lbfs_of(program), number) {
            Some(found) => Some(Program::Lb(found)),
            None => None,
        },
    }
}

/// What stands in a row: arguments or results, behind a header of `at` bytes.
#[derive(Clone, Copy)]
struct Plan {
    at: u32,
    is_call: bool,
}

/// What the bytes are, as arguments or as results of this procedure, and whether that is spelled so.
fn put_body<M: ProgramBody + Put>(
    alloc: Global,
    plan: Plan,
    procedure: M::Procedure,
    bytes: &[u8],
    out: &mut Out,
) {
    let mut rest = Reader::behind(plan.at as usize, bytes);
    let read: Result<M, ReadError> = if plan.is_call {
        read_args(alloc, procedure, &mut rest)
    } else {
        read_results(alloc, procedure, &mut rest)
    };
    match &read {
        Ok(body) => {
            body.put(out);
            match write(alloc, body) {
                Ok(written) => put_same(out, written.as_slice(), bytes),
                Err(_) => out.lack(),
            }
        }
        Err(error) => put_error(out, error),
    }
    drop(read)
}

/// `AT args|results PROGRAM NUMBER : BYTES`: what stands there behind a header of `AT` bytes, and
/// whether it is spelled so.
pub fn put(alloc: Global, row: &str, out: &mut Out) {
    let (front, bytes) = split(row, ':');
    let [at, kind, program, number, ..] = words(front);
    let bytes = read_bytes(alloc, bytes, out);
    let bytes = bytes.as_slice();
    let plan = Plan {
        at: small(at),
        is_call: letter(kind) == b'a',
    };
    match of_number(program, small(number)) {
        Some(Program::Nfs(procedure)) => put_body::<Nfs>(alloc, plan, procedure, bytes, out),
        Some(Program::Lb(procedure)) => {
            let lbfs = lbfs_of(program);
            put_body::<Lb>(alloc, plan, LbIn { lbfs, procedure }, bytes, out)
        }
        Some(Program::Back(procedure)) => put_body::<Back>(alloc, plan, procedure, bytes, out),
        None => out.text(" no procedure"),
    }
}
