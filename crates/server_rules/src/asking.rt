//! A change that a store is asked to keep (`IsFault` in `specs/Asking.antt`).

ghost use Rattle.std.specs.Prelude.{◌≡◌, ◌+◌, ◌≤◌, if◌then◌else◌};
ghost use Rattle.std.specs.Option.{option_map};
ghost use Rattle.store.specs.Records.{applied, places};
ghost use Rattle.server_rules.specs.Asking.{IsFault};

use store::record::{Head, RecordChange};
use store::store::Store;

/// Asks a store to keep a change; tells whether it failed.
pub fn ask<S: Store>(
    store: &mut S,
    head: Head,
    first: RecordChange,
    second: Option<RecordChange>,
) -> bool
    requires { places second ≤ S.spare store.old }
    ensures cause { IsFault result (S.faults store.old) (S.faults store.new) }
    ensures records { S.records store.new ≡ (if result then S.records store.old else option_map (λ held. applied head first second held) (S.records store.old)) }
    ensures spare { S.spare store.old ≤ S.spare store.new + places second }
    ensures later { S.faults store.old ≤ S.faults store.new }
{
    match store.apply(head, first, second) {
        Ok(()) => false,
        Err(_) => true,
    }
}
