//! Why a call failed: those statuses of NFS version 3 (RFC 1813, section 2.6: nfsstat3) that the
//! calls here may be answered with, and those of LBFS. OK, the number 0, is none: it is what an
//! answer has that was done. `specs/Status.antt` states their numbers.

ghost use Rattle.std.specs.Prelude.{◌≡◌};
ghost use Rattle.xdr_codec.specs.Status.{status_number, status_of};

/// A status other than OK, by its number. The numbers of other statuses of RFC 1813, as ROFS, stand
/// for nothing: an answer with one of them is refused as `BadValue`.
#[derive(Clone, Copy, Drop)]
pub enum Status {
    /// 1, NFS3ERR_PERM: the asker is not the owner.
    Perm,
    /// 2, NFS3ERR_NOENT: no such name.
    NoEnt,
    /// 5, NFS3ERR_IO: the store failed.
    Io,
    /// 13, NFS3ERR_ACCES: access is denied.
    Acces,
    /// 17, NFS3ERR_EXIST: the name is taken.
    Exist,
    /// 20, NFS3ERR_NOTDIR: not a directory.
    NotDir,
    /// 21, NFS3ERR_ISDIR: a directory.
    IsDir,
    /// 22, NFS3ERR_INVAL: an argument is not valid.
    Inval,
    /// 27, NFS3ERR_FBIG: a file would be too large.
    FBig,
    /// 28, NFS3ERR_NOSPC: the store is full.
    NoSpc,
    /// 63, NFS3ERR_NAMETOOLONG: the name is too long.
    NameTooLong,
    /// 66, NFS3ERR_NOTEMPTY: the directory is not empty.
    NotEmpty,
    /// 70, NFS3ERR_STALE: the handle names nothing any more.
    Stale,
    /// 10001, NFS3ERR_BADHANDLE: the handle was never given.
    BadHandle,
    /// 10003, NFS3ERR_BAD_COOKIE: a directory's cookie is stale.
    BadCookie,
    /// 10004, NFS3ERR_NOTSUPP: the operation is not supported.
    NotSupp,
    /// 10005, NFS3ERR_TOOSMALL: the reply would be larger than was asked for.
    TooSmall,
    /// 10006, NFS3ERR_SERVERFAULT: the server failed otherwise.
    ServerFault,
    /// 10008, NFS3ERR_JUKEBOX: not now; ask again later.
    Jukebox,
    /// 20001, of LBFS: no chunk with this digest is known.
    HashNotFound,
    /// 20002, of LBFS: the temporary file is there already.
    FdInUse,
    /// 20003, of LBFS: no such temporary file.
    BadFd,
    /// 20004, of LBFS: the session has too many temporary files.
    TooManyTemps,
    /// 20005, of LBFS from version 2 on: the file isn't in the version that is to be replaced.
    Conflict,
}

/// The number that stands for the status.
pub fn number(status: Status) -> u32
    ensures { result ≡ status_number status }
{
    match status {
        Status::Perm => 1,
        Status::NoEnt => 2,
        Status::Io => 5,
        Status::Acces => 13,
        Status::Exist => 17,
        Status::NotDir => 20,
        Status::IsDir => 21,
        Status::Inval => 22,
        Status::FBig => 27,
        Status::NoSpc => 28,
        Status::NameTooLong => 63,
        Status::NotEmpty => 66,
        Status::Stale => 70,
        Status::BadHandle => 10001,
        Status::BadCookie => 10003,
        Status::NotSupp => 10004,
        Status::TooSmall => 10005,
        Status::ServerFault => 10006,
        Status::Jukebox => 10008,
        Status::HashNotFound => 20001,
        Status::FdInUse => 20002,
        Status::BadFd => 20003,
        Status::TooManyTemps => 20004,
        Status::Conflict => 20005,
    }
}

/// The status that the number stands for; 0 and numbers that stand for nothing have none.
pub fn from_number(number: u32) -> Option<Status>
    ensures { result ≡ status_of number }
{
    match number {
        1 => Some(Status::Perm),
        2 => Some(Status::NoEnt),
        5 => Some(Status::Io),
        13 => Some(Status::Acces),
        17 => Some(Status::Exist),
        20 => Some(Status::NotDir),
        21 => Some(Status::IsDir),
        22 => Some(Status::Inval),
        27 => Some(Status::FBig),
        28 => Some(Status::NoSpc),
        63 => Some(Status::NameTooLong),
        66 => Some(Status::NotEmpty),
        70 => Some(Status::Stale),
        10001 => Some(Status::BadHandle),
        10003 => Some(Status::BadCookie),
        10004 => Some(Status::NotSupp),
        10005 => Some(Status::TooSmall),
        10006 => Some(Status::ServerFault),
        10008 => Some(Status::Jukebox),
        20001 => Some(Status::HashNotFound),
        20002 => Some(Status::FdInUse),
        20003 => Some(Status::BadFd),
        20004 => Some(Status::TooManyTemps),
        20005 => Some(Status::Conflict),
        _ => None,
    }
}
