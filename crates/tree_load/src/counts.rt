//! How many files and directories records have, and how many bytes their contents: `specs/Counts.antt`.

ghost use Rattle.std.specs.Prelude.{◌≡◌, ◌+◌, ◌*◌, ◌<◌, ◌≤◌, ◌^◌};
ghost use Rattle.tree_load.specs.Counts.{counts_of, with_record};

use store::record::{Kept, NodeKind};

/// What records have.
#[derive(Clone, Copy)]
pub struct Counts {
    pub files: u128,
    pub directories: u128,
    pub bytes: u128,
}

/// With one record more.
fn with_record(one: &Kept, counts: Counts) -> Counts
    requires files { counts.files + 1 < 2 ^ 128 }
    requires directories { counts.directories + 1 < 2 ^ 128 }
    requires bytes { counts.bytes + 2 ^ 64 < 2 ^ 128 }
    ensures with { result ≡ with_record one.now counts }
    ensures files { result.files ≤ counts.files + 1 }
    ensures directories { result.directories ≤ counts.directories + 1 }
    ensures bytes { result.bytes ≤ counts.bytes + 2 ^ 64 }
{
    match one {
        Kept::Head(_) => counts,
        Kept::Node(node) => match node.kind {
            NodeKind::File => Counts {
                files: counts.files + 1,
                ..counts
            },
            NodeKind::Directory => Counts {
                directories: counts.directories + 1,
                ..counts
            },
        },
        Kept::Content(content) => Counts {
            bytes: counts.bytes + content.bytes.len() as u128,
            ..counts
        },
    }
}

/// What these records have.
#[tactic(auto, using(crate::proofs::Counted::counts_none, crate::proofs::Counted::counts_back))]
pub fn counts_of(records: &[Kept]) -> Counts
    ensures { result ≡ counts_of records.now }
{
    let mut counts = Counts {
        files: 0,
        directories: 0,
        bytes: 0,
    };
    let mut place = records.len();
    'records: while place > 0 {
        place -= 1;
        counts = with_record(&records[place], counts);
    }
    counts
}
