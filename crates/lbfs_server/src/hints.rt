//! Where the bytes of chunks may be found once a server begins again: among the files that its store gave. So
//! a client that changed a file needn't send all of it. Hints, which nobody trusts.

ghost use Rattle.std.specs.Prelude.{◌≡◌};

use server_core::server::Server;
use std::alloc::{AllocError, Global};
use store::record::Kept;

/// The ids of the files whose contents are among these records, in their order.
pub(crate) fn content_ids(alloc: Global, records: &Vec<Kept>) -> Result<Vec<u64>, AllocError> {
    let mut ids = Vec::new(alloc);
    for record in records.iter() {
        if let Kept::Content(content) = record {
            ids.push(content.id)?;
        }
    }
    Ok(ids)
}

/// The server's index gets the places of the chunks of these files, one file after the other: where it
/// can't hold all, those of the last stay. What memory runs out for is left out.
pub(crate) fn learn_all(server: &mut Server, files: &[u64])
    ensures { server.new ≡ record server.old { index = server.new.index } }
{
    for file in files.iter() {
        let _left_out = server.learn(*file);
    }
}
