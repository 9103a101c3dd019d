//! What a client has under way. `specs/State.antt` says which calls wait in each stage.

use chunk_cut::chunk::Chunk;
use chunk_slots::Slots;
use cut_bytes::CutBytes;
use lb_base::items::Items;
use path_calls::walk::Walk;

/// What a client has of an open file. It stands under the file's id.
#[derive(Drop)]
pub struct Local {
    /// The version that its content was fetched in; of a file that is written anew the one that the server
    /// told as that began.
    pub version: u64,
    /// Its local content, with its chunks where they were found ahead of its close.
    pub bytes: CutBytes,
}

/// A READ that waits for its answer.
#[derive(Clone, Copy, Drop)]
pub struct ReadCall {
    pub xid: u32,
    /// The place of the chunk that it asks for among the file's chunks.
    pub index: usize,
}

/// An attempt to fetch a file, and what it has of it so far.
#[derive(Drop)]
pub struct Fetch {
    /// Which attempt it is, 1 to 4.
    pub tries: u32,
    /// The xid of its first GETHASH.
    pub first: u32,
    /// The version that its answers tell.
    pub version: u64,
    /// The file's size, in bytes.
    pub size: u64,
    /// The chunks that are told so far, from the file's first on.
    pub chunks: Items<Chunk>,
    /// The bytes of each chunk, where they have come. There are none before all chunks are told.
    pub slots: Slots,
    /// How many chunks were asked for, in order.
    pub asked: usize,
    /// The READs under way.
    pub under: Items<ReadCall>,
}

/// How a chunk is sent.
#[derive(Clone, Copy, Drop)]
pub enum Way {
    /// By its digest: a CONDWRITE.
    Named,
    /// By its bytes: a TMPWRITE.
    Whole,
}

/// A call for a chunk of a close that waits for its answer.
#[derive(Clone, Copy, Drop)]
pub struct UploadCall {
    pub xid: u32,
    /// The place of the chunk among those of the local content.
    pub index: usize,
    pub way: Way,
}

/// How far the chunks of a close have come.
#[derive(Drop)]
pub struct Upload {
    /// The number of the temporary file that takes them.
    pub temp: u32,
    /// The chunks of the local content.
    pub chunks: Items<Chunk>,
    /// How many of them were named, in order.
    pub named: usize,
    /// The calls under way.
    pub under: Items<UploadCall>,
}

/// How far an operation has come.
#[derive(Drop)]
pub enum Stage {
    /// An open: a GETLEASE is under way with this xid, for the version of a content that is kept.
    Asking(u32),
    /// A rewrite: a GETLEASE is under way with this xid, for the file's version.
    Rewriting(u32),
    /// An open: the first GETHASH of an attempt is under way.
    Hashing {
        /// Which attempt it is, 1 to 4.
        tries: u32,
        xid: u32,
    },
    /// An open: a further GETHASH is under way.
    Listing {
        xid: u32,
        fetch: Fetch,
    },
    /// An open: the chunks are being read.
    Reading(Fetch),
    /// A close: a MKTMPFILE is under way, for a temporary file of this number.
    Making {
        xid: u32,
        temp: u32,
    },
    /// A close: the chunks are being stored in the temporary file.
    Storing(Upload),
    /// A close: a COMMITTMP with this xid is under way.
    Committing(u32),
    /// A command on names: the next call of its walk is under way.
    Walking {
        xid: u32,
        walk: Walk,
    },
}

/// An operation under way: an open, a rewrite, a close, or a command on names.
#[derive(Drop)]
pub struct Task {
    /// The file that is opened, written anew or closed. 0 while names are looked up.
    pub file: u64,
    pub stage: Stage,
}
