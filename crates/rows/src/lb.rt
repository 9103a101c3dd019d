//! Arguments and results of LBFS and of the callback program as they are printed.

use crate::values::{Put, put_on};
use hash_calls::call::{Committed, Entry, Hashes, Leased, Looked};
use hash_calls::message::{Back, Lb};
use row_text::bytes::put_bytes;
use row_text::out::Out;

impl Put for Leased {
    fn put(&self, out: &mut Out) {
        self.attr.put(out);
        out.numbers(&[self.version, self.term as u64])
    }
}

impl Put for Hashes {
    fn put(&self, out: &mut Out) {
        let count = self.pairs.len() as u64;
        out.numbers(&[self.version, self.term as u64, self.size, count]);
        for pair in self.pairs.as_slice() {
            put_bytes(out, pair.digest.as_slice());
            out.number(pair.size as u64);
        }
        self.eof.put(out)
    }
}

impl Put for Committed {
    fn put(&self, out: &mut Out) {
        out.numbers(&[self.version, self.term as u64])
    }
}

impl Put for Entry {
    fn put(&self, out: &mut Out) {
        self.handle.put(out);
        self.kind.put(out)
    }
}

impl Put for Looked {
    fn put(&self, out: &mut Out) {
        out.numbers(&[self.version, self.term as u64]);
        self.entry.put(out)
    }
}

/// The results of a procedure.
fn put_answer(out: &mut Out, body: &Lb) {
    match body {
        Lb::GetLeaseAnswer(answer) => answer.put(out),
        Lb::GetHashAnswer(answer) => answer.put(out),
        Lb::MkTmpFileAnswer(answer) | Lb::TmpWriteAnswer(answer) | Lb::CondWriteAnswer(answer) => {
            answer.put(out)
        }
        Lb::CommitTmpAnswer(answer) => answer.put(out),
        Lb::LookLeaseAnswer(answer) => answer.put(out),
        _ => (),
    }
}

/// Numbers, and bytes behind them.
fn put_with(out: &mut Out, numbers: &[u64], bytes: &[u8]) {
    out.numbers(numbers);
    put_bytes(out, bytes)
}

impl Put for Lb {
    fn put(&self, out: &mut Out) {
        match self {
            Lb::GetLease(lease) => lease.handle.put(out),
            Lb::GetHash(range) => {
                put_on(out, &[], &range.handle, &[range.offset, range.count as u64])
            }
            Lb::MkTmpFile(temp) => put_on(out, &[temp.fd as u64], &temp.handle, &[]),
            Lb::TmpWrite(piece) => {
                put_with(
                    out,
                    &[piece.fd as u64, piece.offset],
                    piece.bytes.as_slice(),
                )
            }
            Lb::CondWrite(piece) => {
                let told = [piece.fd as u64, piece.offset, piece.count as u64];
                put_with(out, &told, piece.digest.as_slice())
            }
            Lb::CommitTmp(commit) => {
                put_on(out, &[commit.fd as u64], &commit.handle, &[commit.size]);
                if let Some(base) = commit.base {
                    out.number(base)
                }
            }
            Lb::LookLease(look) => {
                look.dir.put(out);
                put_bytes(out, look.name.as_slice())
            }
            body => put_answer(out, body),
        }
    }
}

impl Put for Back {
    fn put(&self, out: &mut Out) {
        if let Back::Recall(handle) = self {
            handle.put(out)
        }
    }
}
