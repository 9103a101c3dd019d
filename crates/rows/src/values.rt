//! Values as they are printed: their numbers, truth values and bytes in the order of their spelling.

use row_text::bytes::put_bytes;
use row_text::out::Out;
use std::fmt::Debug;
use xdr_codec::answer::Answer;
use xdr_codec::attr::{Attr, Kind};
use xdr_codec::fault::ReadError;
use xdr_codec::handle::Handle;
use xdr_codec::status;

/// What is printed.
pub trait Put {
    /// Prints it, each part behind a blank.
    fn put(&self, out: &mut Out);
}

/// A name behind a blank.
pub fn put_name<T: Debug>(out: &mut Out, name: &T) {
    out.text(" ");
    out.value(name)
}

/// Why nothing was read.
pub fn put_error(out: &mut Out, error: &ReadError) {
    match error {
        ReadError::Memory => out.lack(),
        ReadError::Fault(fault) => put_name(out, fault),
    }
}

impl Put for () {
    fn put(&self, _out: &mut Out) {}
}

impl Put for u32 {
    fn put(&self, out: &mut Out) {
        out.number(*self as u64)
    }
}

impl Put for u64 {
    fn put(&self, out: &mut Out) {
        out.number(*self)
    }
}

impl Put for bool {
    fn put(&self, out: &mut Out) {
        out.text(if *self { " true" } else { " false" })
    }
}

impl Put for [u8; 20] {
    fn put(&self, out: &mut Out) {
        put_bytes(out, self.as_slice())
    }
}

/// A handle of this file system by its file's number, `#2`.
impl Put for Handle {
    fn put(&self, out: &mut Out) {
        match self.file_of() {
            Some(file) => {
                out.text(" #");
                out.bare(file)
            }
            None => put_bytes(out, self.as_slice()),
        }
    }
}

impl<T: Put> Put for Option<T> {
    fn put(&self, out: &mut Out) {
        match self {
            None => out.text(" false"),
            Some(item) => {
                out.text(" true");
                item.put(out)
            }
        }
    }
}

impl<T: Put, F: Put> Put for Answer<T, F> {
    fn put(&self, out: &mut Out) {
        match self {
            Answer::Done(body) => {
                out.text(" 0");
                body.put(out)
            }
            Answer::Failed(status, body) => {
                out.number(status::number(*status) as u64);
                body.put(out)
            }
        }
    }
}

impl Put for Kind {
    fn put(&self, out: &mut Out) {
        out.text(match self {
            Kind::File => " 1",
            Kind::Directory => " 2",
        })
    }
}

impl Put for Attr {
    fn put(&self, out: &mut Out) {
        let (atime, mtime, ctime) = (self.atime, self.mtime, self.ctime);
        self.kind.put(out);
        out.numbers(&[
            self.mode as u64,
            self.nlink as u64,
            self.uid as u64,
            self.gid as u64,
            self.size,
            self.used,
            self.rdev_major as u64,
            self.rdev_minor as u64,
            self.fsid,
            self.fileid,
            atime.seconds as u64,
            atime.nanoseconds as u64,
            mtime.seconds as u64,
            mtime.nanoseconds as u64,
            ctime.seconds as u64,
            ctime.nanoseconds as u64,
        ])
    }
}

/// Numbers, a handle, and numbers behind it.
pub fn put_on(out: &mut Out, before: &[u64], handle: &Handle, behind: &[u64]) {
    out.numbers(before);
    handle.put(out);
    out.numbers(behind)
}
