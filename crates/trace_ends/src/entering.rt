//! What the server's journal gained in a step, which tells how many entries it made: the file that was
//! changed, and the step of each entry. `changed_file` and `newest_entries` in `specs/Core.antt` say
//! which they are.

ghost use Rattle.std.specs.Prelude.{◌≡◌, ◌++◌, replicate, OnOk};
ghost use Rattle.std.specs.Option.{option_copied};
ghost use Rattle.trace_ends.specs.Core.{is_of_file, newest_entries, changed_entry, changed_file};

use server_core::journal::Entry;
use std::alloc::AllocError;
use tree_reading::entry::EntryKind;

/// Whether an entry is about a file's content, and not about a name.
fn is_of_file(kind: EntryKind) -> bool
    ensures { result ≡ is_of_file kind }
{
    !matches!(kind, EntryKind::Name)
}

/// The first entry that is about a file's content.
fn changed_entry(entries: &[Entry]) -> Option<&Entry>
    ensures { option_copied result ≡ changed_entry entries.now }
{
    for entry in entries {
        if is_of_file(entry.kind) {
            return Some(entry);
        }
    }
    None
}

/// The last `made` entries.
fn newest_entries(entries: &[Entry], made: u32) -> &[Entry]
    ensures { result.now ≡ newest_entries entries.now made }
{
    &entries[entries.len().saturating_sub(made as usize)..]
}

/// The first of the last `made` entries that is about a file's content.
pub fn entry_by(entries: &[Entry], made: u32) -> Option<&Entry>
    ensures { option_copied result ≡ changed_entry (newest_entries entries.now made) }
{
    changed_entry(newest_entries(entries, made))
}

/// The first file whose content the last `made` entries are about.
pub fn changed_by(entries: &[Entry], made: u32) -> Option<u64>
    ensures { result ≡ changed_file (newest_entries entries.now made) }
{
    match entry_by(entries, made) {
        Some(entry) => Some(entry.file),
        None => None,
    }
}

/// Adds the step of each change that was made.
pub fn enter(entries: &mut Vec<u64>, made: u32, step: u64) -> Result<(), AllocError>
    ensures { OnOk result (entries.new.items ≡ entries.old.items ++ replicate made step) }
{
    for _i in 0..made {
        entries.push(step)?;
    }
    Ok(())
}
