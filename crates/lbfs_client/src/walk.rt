//! What a line that takes several operations of the client has left to do. `specs/Walks.antt` and
//! `specs/Mounting.antt` say what comes of it.

ghost use Rattle.std.specs.Prelude.{◌≡◌};
ghost use Rattle.lbfs_client.specs.Walks.{file_with, noting};

use crate::line::Place;
use crate::local::LocalName;
use cut_bytes::CutBytes;

/// What the line under way has left to do, once the operation under way has ended.
#[derive(Drop)]
pub enum Walk {
    /// `put`: these bytes of a file of the host were read, and are to be this file's once the line goes on.
    Reads(Place, CutBytes),
    /// `put`: its file is being written anew, this one if it is known, and gets these bytes then.
    Renews(Option<u64>, CutBytes),
    /// `put`: the file with this id is being closed.
    Closes(u64),
    /// `get`: its file is being opened, and its bytes go into this file of the host then.
    Gets(LocalName),
    /// `join`: a connection is being joined.
    Joins,
}

/// The file of a put, where a step found this one, or none.
fn file_with(file: Option<u64>, found: Option<u64>) -> Option<u64>
    ensures { result ≡ file_with file found }
{
    match file {
        None => found,
        Some(file) => Some(file),
    }
}

impl Walk {
    /// A step found this file by the path of the operation under way, or none.
    pub(crate) fn noting(self, found: Option<u64>) -> Walk
        ensures { result ≡ noting self found }
    {
        match self {
            Walk::Reads(place, bytes) => Walk::Reads(place, bytes),
            Walk::Renews(file, bytes) => Walk::Renews(file_with(file, found), bytes),
            Walk::Closes(file) => Walk::Closes(file),
            Walk::Gets(name) => Walk::Gets(name),
            Walk::Joins => Walk::Joins,
        }
    }
}
