//! The files that were there at first: `content_of` of `specs/Register.antt`.

ghost use Rattle.std.specs.Prelude.{true, false, ◌≡◌, ◌≤◌, ◌↔◌, IsTrue, length, nat_lt};
ghost use Rattle.std.specs.List.{AllWithin};
ghost use Rattle.std.specs.List.Sorted.{IsNonDecreasingBy};
ghost use Rattle.std.specs.Option.{option_copied};
ghost use Rattle.register_model.specs.Register.{content_of};

use crate::op::Opening;

/// The content of a file among those of the start, in whatever order they stand.
pub fn content_of(opening: &[Opening], file: u64) -> Option<&[u8]>
    ensures { option_copied result ≡ content_of opening.now file }
{
    for found in opening {
        if found.file == file {
            return Some(found.content.as_slice());
        }
    }
    None
}

/// Whether the files stand in the order of their ids.
pub fn is_by_file(opening: &[Opening]) -> bool
    ensures { IsTrue result ↔ IsNonDecreasingBy (λ f. f.file) opening.now }
{
    for i in 1..opening.len() {
        if opening[i].file < opening[i - 1].file {
            return false;
        }
    }
    true
}

/// The first file that has no lower id, where they stand in the order of their ids.
fn first_file_from(opening: &[Opening], file: u64) -> usize
    requires { IsNonDecreasingBy (λ f. f.file) opening.now }
    ensures bound { result ≤ length opening.now }
    ensures below { AllWithin (λ f. nat_lt f.file file ≡ true) opening.now 0 result }
    ensures from { AllWithin (λ f. nat_lt f.file file ≡ false) opening.now result (length opening.now) }
{
    opening.partition_point(|found| found.file < file)
}

/// The content of a file, where they stand in the order of their ids.
pub fn content_in_order(opening: &[Opening], file: u64) -> Option<&[u8]>
    requires { IsNonDecreasingBy (λ f. f.file) opening.now }
    ensures { option_copied result ≡ content_of opening.now file }
{
    let first = first_file_from(opening, file);
    let found = opening.get(first)?;
    if found.file == file {
        Some(found.content.as_slice())
    } else {
        None
    }
}
