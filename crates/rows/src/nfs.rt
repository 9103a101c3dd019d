//! Arguments and results of NFS version 3 as they are printed.

use crate::values::{Put, put_on};
use nfs3_calls::call::{Granted, Piece};
use nfs3_calls::change::{Before, Moved, Wcc};
use nfs3_calls::fs_info::FsInfo;
use nfs3_calls::listing::Listing;
use nfs3_calls::making::{HowMade, Made, SetAttr, SetTime};
use nfs3_calls::message::Nfs;
use nfs3_calls::place::{Found, Place};
use row_text::bytes::put_bytes;
use row_text::out::Out;

impl Put for Place {
    fn put(&self, out: &mut Out) {
        self.dir.put(out);
        put_bytes(out, self.name.as_slice())
    }
}

impl Put for Found {
    fn put(&self, out: &mut Out) {
        self.handle.put(out);
        self.attr.put(out);
        self.dir.put(out)
    }
}

impl Put for Granted {
    fn put(&self, out: &mut Out) {
        self.attr.put(out);
        self.bits.put(out)
    }
}

impl Put for Piece {
    fn put(&self, out: &mut Out) {
        self.attr.put(out);
        self.count.put(out);
        self.eof.put(out);
        put_bytes(out, self.bytes.as_slice())
    }
}

impl Put for Before {
    fn put(&self, out: &mut Out) {
        let (mtime, ctime) = (self.mtime, self.ctime);
        out.numbers(&[
            self.size,
            mtime.seconds as u64,
            mtime.nanoseconds as u64,
            ctime.seconds as u64,
            ctime.nanoseconds as u64,
        ])
    }
}

impl Put for Wcc {
    fn put(&self, out: &mut Out) {
        self.before.put(out);
        self.after.put(out)
    }
}

impl Put for Moved {
    fn put(&self, out: &mut Out) {
        self.from.put(out);
        self.to.put(out)
    }
}

/// To which a time is to be set.
fn put_time(out: &mut Out, time: SetTime) {
    match time {
        SetTime::Keep => out.number(0),
        SetTime::Server => out.number(1),
        SetTime::Client(time) => { out.numbers(&[2, time.seconds as u64, time.nanoseconds as u64]) }
    }
}

impl Put for SetAttr {
    fn put(&self, out: &mut Out) {
        self.mode.put(out);
        self.uid.put(out);
        self.gid.put(out);
        self.size.put(out);
        put_time(out, self.atime);
        put_time(out, self.mtime)
    }
}

/// How a file is to be made.
fn put_how(out: &mut Out, how: &HowMade) {
    match how {
        HowMade::Unchecked(attr) => {
            out.number(0);
            attr.put(out)
        }
        HowMade::Guarded(attr) => {
            out.number(1);
            attr.put(out)
        }
        HowMade::Exclusive(verifier) => out.numbers(&[2, *verifier]),
    }
}

impl Put for Made {
    fn put(&self, out: &mut Out) {
        self.handle.put(out);
        self.attr.put(out);
        self.dir.put(out)
    }
}

impl Put for Listing {
    fn put(&self, out: &mut Out) {
        self.attr.put(out);
        out.number(self.verifier);
        for entry in self.entries.as_slice() {
            out.say(" true", &[entry.fileid]);
            put_bytes(out, entry.name.as_slice());
            out.number(entry.cookie);
        }
        out.text(" false");
        self.eof.put(out)
    }
}

impl Put for FsInfo {
    fn put(&self, out: &mut Out) {
        self.attr.put(out);
        out.numbers(&[
            self.reading.most as u64,
            self.reading.best as u64,
            self.reading.multiple as u64,
            self.writing.most as u64,
            self.writing.best as u64,
            self.writing.multiple as u64,
            self.dtpref as u64,
            self.maxfilesize,
            self.time_delta.seconds as u64,
            self.time_delta.nanoseconds as u64,
            self.properties as u64,
        ])
    }
}

/// The results of a procedure.
fn put_answer(out: &mut Out, body: &Nfs) {
    match body {
        Nfs::GetAttrAnswer(answer) => answer.put(out),
        Nfs::LookupAnswer(answer) => answer.put(out),
        Nfs::AccessAnswer(answer) => answer.put(out),
        Nfs::ReadAnswer(answer) => answer.put(out),
        Nfs::CreateAnswer(answer) | Nfs::MkDirAnswer(answer) => answer.put(out),
        Nfs::RemoveAnswer(answer) | Nfs::RmDirAnswer(answer) => answer.put(out),
        Nfs::RenameAnswer(answer) => answer.put(out),
        Nfs::ReadDirAnswer(answer) => answer.put(out),
        Nfs::FsInfoAnswer(answer) => answer.put(out),
        _ => (),
    }
}

impl Put for Nfs {
    fn put(&self, out: &mut Out) {
        match self {
            Nfs::GetAttr(handle) | Nfs::FsInfo(handle) => handle.put(out),
            Nfs::Lookup(place) | Nfs::Remove(place) | Nfs::RmDir(place) => place.put(out),
            Nfs::Access(access) => put_on(out, &[], &access.handle, &[access.bits as u64]),
            Nfs::Read(range) => {
                put_on(out, &[], &range.handle, &[range.offset, range.count as u64])
            }
            Nfs::Create(file) => {
                file.place.put(out);
                put_how(out, &file.how)
            }
            Nfs::MkDir(dir) => {
                dir.place.put(out);
                dir.attr.put(out)
            }
            Nfs::Rename(rename) => {
                rename.from.put(out);
                rename.to.put(out)
            }
            Nfs::ReadDir(range) => {
                let told = [range.cookie, range.verifier, range.count as u64];
                put_on(out, &[], &range.dir, &told)
            }
            body => put_answer(out, body),
        }
    }
}
