//! What handles name, and names in directories (`specs/Telling.antt`).

ghost use Rattle.std.specs.Prelude.{◌≡◌, IfOk};
ghost use Rattle.tree_calls.specs.Telling.{id_of};
ghost use Rattle.tree_calls.specs.Waiting.{spot_of};

use lb_base::items::Name;
use std::alloc::{AllocError, Global};
use tree_reading::call::Spot;
use xdr_codec::handle::Handle;
use xdr_codec::status::Status;

/// The id that a handle of this file system has. It takes no memory.
pub fn id_of(handle: &Handle) -> Result<u64, Status>
    ensures { result ≡ id_of handle.now }
{
    match handle.file_of() {
        Some(id) => Ok(id),
        None => Err(Status::BadHandle),
    }
}

/// A name in a directory. The one error is running out of memory.
pub fn spot_of(alloc: Global, dir: u64, name: &Name) -> Result<Spot, AllocError>
    ensures { IfOk result (λ s. s ≡ spot_of dir name.now) }
{
    let name = name.try_clone(alloc)?;
    Ok(Spot { dir, name })
}
