//! What holds of the names of a store's files. `specs/Names.antt` states it.

ghost use Rattle.std.specs.Prelude.{◌≡◌, Some};
ghost use Rattle.system_files.specs.Names.{name_of, which_of, IsWord};
ghost use Rattle.log_store.specs.declared.which.Which.{Which};

/// The name of a record's file tells the record, so no two records have one file.
pub fn a_name_tells_its_record()
    ensures { (one : Which) → IsWord one → which_of (name_of one) ≡ Some one }
{}
