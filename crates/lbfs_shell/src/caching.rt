//! What stands already where a shell is to keep its cache file. It is looked at before there is a connection:
//! what is no cache file is nobody's to replace. `specs/Caching.antt` says what is found.

ghost use Rattle.std.specs.Prelude.{◌≡◌};
ghost use Rattle.lbfs_shell.specs.Caching.{Looks, found_of, unsaved_text};

use lb_base::items::Bytes;
use shell_walks::folder::{Folder, LocalFault};
use shell_walks::telling::fault_words;
use std::alloc::Global;

/// What stands there.
#[derive(Clone, Copy)]
pub(crate) enum Found {
    /// A cache file, or nothing.
    Ours,
    /// Something else.
    Other,
    /// It can't be told.
    Hidden(LocalFault),
}

/// What stands there, by what was read.
fn found_of(read: Result<Bytes, LocalFault>) -> Found
    ensures { result ≡ found_of read }
{
    match read {
        Ok(bytes) => {
            if cache_file::is_cache(bytes.as_slice()) {
                Found::Ours
            } else {
                Found::Other
            }
        }
        Err(LocalFault::Missing) => Found::Ours,
        Err(LocalFault::TooBig) => Found::Other,
        Err(fault) => Found::Hidden(fault),
    }
}

/// Looks at the file of this name.
pub(crate) fn look<F: Folder>(alloc: Global, folder: &mut F, name: &str) -> Found
    ensures { Looks F.reads folder.old name.now result folder.new }
{
    let read = folder.read(alloc, name);
    found_of(read)
}

/// What is said of a cache file that wasn't written. What is no cache file by then stays.
pub(crate) fn unsaved_words(fault: LocalFault) -> &'static [u8]
    ensures { result.now ≡ unsaved_text fault }
{
    match fault {
        LocalFault::Exists | LocalFault::TooBig => {
            b"it is no cache file, and stays as it is; the cache wasn't written"
        }
        fault => fault_words(fault),
    }
}
