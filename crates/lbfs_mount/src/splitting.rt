//! The lines in a piece of what comes: `lines_of` of `command_text`, over several pieces.

ghost use Rattle.std.specs.Prelude.{◌≡◌, ℕ, List, [], ◌∷◌, ◌++◌, false, OnOk};
ghost use Rattle.command_text.specs.Parts.{lines_of};
ghost use Rattle.lbfs_mount.specs.Script.{has_feed};

use command_text::parts::cut;
use lb_base::items::{Bytes, Items};
use std::alloc::{AllocError, Global};
use std::collections::VecDeque;
use std::mem;

/// A line ends here: what came before, and these bytes.
fn end_line(
    alloc: Global,
    lines: &mut VecDeque<Bytes>,
    rest: &mut Vec<u8>,
    line: &[u8],
) -> Result<(), AllocError>
    ensures ok { OnOk result ((lines.new.items ≡ lines.old.items ++ (rest.old.items ++ line.now) ∷ []) × (rest.new.items ≡ [])) }
    ensures kept { has_feed rest.old.items ≡ false → has_feed rest.new.items ≡ false }
{
    rest.extend_from_slice(line)?;
    let whole = mem::replace(rest, Vec::new(alloc));
    lines.push_back(Items::from_vec(whole))?;
    Ok(())
}

/// The lines that a piece completes go behind those that there are, and what is left of it behind
/// what came before.
pub(crate) fn split(
    alloc: Global,
    lines: &mut VecDeque<Bytes>,
    rest: &mut Vec<u8>,
    piece: &[u8],
) -> Result<(), AllocError>
    requires { has_feed rest.old.items ≡ false }
    ensures ok { OnOk result ((more : List ℕ) → lines.old.items ++ lines_of (rest.old.items ++ (piece.now ++ more)) ≡ lines.new.items ++ lines_of (rest.new.items ++ more)) }
    ensures kept { has_feed rest.new.items ≡ false }
{
    let mut left = piece;
    'lines: while let Some((line, after)) = cut(b'\n', left) {
        end_line(alloc, lines, rest, line)?;
        left = after;
    }
    rest.extend_from_slice(left)
}

/// The input has ended: what came behind the last line feed is a line, where there is something.
pub(crate) fn end_input(
    alloc: Global,
    lines: &mut VecDeque<Bytes>,
    rest: &mut Vec<u8>,
) -> Result<(), AllocError>
    requires { has_feed rest.old.items ≡ false }
    ensures ok { OnOk result ((lines.old.items ++ lines_of (rest.old.items ++ []) ≡ lines.new.items ++ []) × (rest.new.items ≡ [])) }
    ensures kept { has_feed rest.new.items ≡ false }
{
    if rest.is_empty() {
        return Ok(());
    }
    let last = mem::replace(rest, Vec::new(alloc));
    lines.push_back(Items::from_vec(last))?;
    Ok(())
}
