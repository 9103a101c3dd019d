//! The text of a trace: `generated_text` of `specs/Lines.antt`.

ghost use Rattle.std.specs.Prelude.{◌≡◌, ◌≤◌, ◌++◌, [], ◌∷◌, OnOk, IfOk, string_bytes};
ghost use Rattle.trace_generator.specs.Lines.{header, file_line, file_lines, join_line, join_lines, opening_lines, generated_text, text_of};
ghost use Rattle.trace_generator.specs.declared.TheConstants.{BLOCKS_MOST};

use crate::BLOCKS_MOST;
use crate::blocks::put_block;
use lb_base::items::{Bytes, Items};
use std::alloc::{AllocError, Global};
use std::fmt::Write;

/// A file with its number and the seed of its bytes.
#[tactic(auto, unfolding(crate::specs::Lines::text_of))]
fn put_file(out: &mut String, seed: u64, number: u64) -> Result<(), AllocError>
    ensures { OnOk result (string_bytes out.new ≡ string_bytes out.old ++ text_of (file_line seed number ∷ [])) }
{
    let own = seed.wrapping_add(number);
    write!(out, "file f{number} r:{own}:9000\n")
}

/// The header.
#[tactic(auto, unfolding(crate::specs::Lines::text_of))]
fn put_header(out: &mut String) -> Result<(), AllocError>
    ensures { OnOk result (string_bytes out.new ≡ string_bytes out.old ++ text_of header) }
{
    out.push_str("lbfs-trace 1\nterm 1000\ndrift 50\nclients 4\n")
}

/// Eight files.
#[tactic(auto, using(crate::proofs::Texts::followed, crate::proofs::Texts::none_followed))]
fn put_files(out: &mut String, seed: u64) -> Result<(), AllocError>
    ensures { OnOk result (string_bytes out.new ≡ string_bytes out.old ++ text_of (file_lines seed 8)) }
{
    for place in 0..8 {
        put_file(out, seed, place + 1)?;
    }
    Ok(())
}

/// A client that joins.
#[tactic(auto, unfolding(crate::specs::Lines::text_of))]
fn put_join(out: &mut String, client: u64) -> Result<(), AllocError>
    ensures { OnOk result (string_bytes out.new ≡ string_bytes out.old ++ text_of (join_line client ∷ [])) }
{
    write!(out, "join {client} 0 0\n")
}

/// Four clients join.
#[tactic(auto, using(crate::proofs::Texts::followed, crate::proofs::Texts::none_followed))]
fn put_joins(out: &mut String) -> Result<(), AllocError>
    ensures { OnOk result (string_bytes out.new ≡ string_bytes out.old ++ text_of (join_lines 4)) }
{
    for place in 0..4 {
        put_join(out, place + 1)?;
    }
    Ok(())
}

/// Adds the lines that stand before the blocks.
pub fn put_opening(out: &mut String, seed: u64) -> Result<(), AllocError>
    ensures { OnOk result (string_bytes out.new ≡ string_bytes out.old ++ text_of (opening_lines seed)) }
{
    put_header(out)?;
    put_files(out, seed)?;
    put_joins(out)
}

/// The whole trace of so many blocks. The one error is running out of memory.
pub fn text(alloc: Global, seed: u64, blocks: u64) -> Result<Bytes, AllocError>
    requires { blocks ≤ BLOCKS_MOST }
    ensures { IfOk result (λ text. text ≡ generated_text seed blocks) }
{
    let mut out = String::new(alloc);
    put_opening(&mut out, seed)?;
    for block in 0..blocks {
        put_block(&mut out, seed, block + 1)?;
    }
    Ok(Items::from_vec(out.into_bytes()))
}
