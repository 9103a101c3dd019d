//! The lines of a block: `block_lines` of `specs/Lines.antt`.

ghost use Rattle.std.specs.Prelude.{◌≡◌, ◌<◌, ◌≤◌, ◌^◌, ◌++◌, [], ◌∷◌, OnOk, string_bytes};
ghost use Rattle.trace_generator.specs.Lines.{do_front, do_line, on_file, write_command, pass_line, settle_line, open_lines, all_lines, change_lines, rest_lines, block_lines, text_of};
ghost use Rattle.trace_generator.specs.declared.TheConstants.{BLOCKS_MOST};

use crate::BLOCKS_MOST;
use crate::choosing::{choice, client_of, file_of, offset_of};
use std::alloc::AllocError;
use std::fmt::Write;

/// So many rounds of a session.
#[tactic(auto, unfolding(crate::specs::Lines::text_of))]
fn put_pass(out: &mut String, session: u64, rounds: u64, time: u64) -> Result<(), AllocError>
    ensures { OnOk result (string_bytes out.new ≡ string_bytes out.old ++ text_of (pass_line session rounds time ∷ [])) }
{
    write!(out, "pass {session} {rounds}")?;
    write!(out, " {time} {time}\n")
}

/// A command of a word and a file.
#[tactic(auto, unfolding(crate::specs::Lines::text_of))]
fn put_do(out: &mut String, client: u64, time: u64, word: &str, file: u64) -> Result<(), AllocError>
    ensures { OnOk result (string_bytes out.new ≡ string_bytes out.old ++ text_of (do_line client time (on_file word.now file) ∷ [])) }
{
    write!(out, "do {client} {time} {word} #{file}\n")
}

/// The front of a command's line.
fn put_front(out: &mut String, client: u64, time: u64) -> Result<(), AllocError>
    ensures { OnOk result (string_bytes out.new ≡ string_bytes out.old ++ do_front client time) }
{
    write!(out, "do {client} {time} ")
}

/// A write of the block's number, to the end of its line.
fn put_command(out: &mut String, file: u64, offset: u64, block: u64) -> Result<(), AllocError>
    ensures { OnOk result (string_bytes out.new ≡ string_bytes out.old ++ (write_command file offset block ++ 10 ∷ [])) }
{
    write!(out, "write #{file} {offset} t:{block}\n")
}

/// The line of a write of the block's number.
fn put_write(
    out: &mut String,
    client: u64,
    time: u64,
    file: u64,
    offset: u64,
    block: u64,
) -> Result<(), AllocError>
    ensures { OnOk result (string_bytes out.new ≡ string_bytes out.old ++ text_of (do_line client time (write_command file offset block) ∷ [])) }
{
    put_front(out, client, time)?;
    put_command(out, file, offset, block)
}

/// A change is made.
#[tactic(auto, unfolding(crate::specs::Lines::text_of))]
fn put_settle(out: &mut String, time: u64) -> Result<(), AllocError>
    ensures { OnOk result (string_bytes out.new ≡ string_bytes out.old ++ text_of (settle_line time ∷ [])) }
{
    write!(out, "settle {time}\n")
}

/// The client opens the file.
#[tactic(auto, using(crate::proofs::Texts::followed))]
fn put_open(out: &mut String, client: u64, file: u64, time: u64) -> Result<(), AllocError>
    ensures { OnOk result (string_bytes out.new ≡ string_bytes out.old ++ text_of (open_lines client file time)) }
{
    put_do(out, client, time, "open", file)?;
    put_pass(out, client, 40, time)
}

/// Two rounds of each session.
#[tactic(auto, using(crate::proofs::Texts::followed))]
fn put_all(out: &mut String, time: u64) -> Result<(), AllocError>
    ensures { OnOk result (string_bytes out.new ≡ string_bytes out.old ++ text_of (all_lines time)) }
{
    put_pass(out, 1, 2, time)?;
    put_pass(out, 2, 2, time)?;
    put_pass(out, 3, 2, time)?;
    put_pass(out, 4, 2, time)
}

/// The client writes the block's number to the file, and closes it.
fn put_change(
    out: &mut String,
    client: u64,
    file: u64,
    offset: u64,
    block: u64,
    time: u64,
) -> Result<(), AllocError>
    ensures { OnOk result (string_bytes out.new ≡ string_bytes out.old ++ text_of (change_lines client file offset block time)) }
{
    put_write(out, client, time, file, offset, block)?;
    put_do(out, client, time, "close", file)?;
    put_pass(out, client, 40, time)?;
    put_all(out, time)?;
    put_settle(out, time)?;
    put_pass(out, client, 2, time)
}

/// What follows the open.
fn put_rest(out: &mut String, choice: u64, block: u64) -> Result<(), AllocError>
    requires choice { choice < 2 ^ 32 }
    requires block { block ≤ BLOCKS_MOST }
    ensures { OnOk result (string_bytes out.new ≡ string_bytes out.old ++ text_of (rest_lines choice block)) }
{
    let (client, file, time) = (client_of(choice), file_of(choice), 10 * block);
    if choice / 32 % 2 == 0 {
        put_do(out, client, time, "abandon", file)
    } else {
        put_change(out, client, file, offset_of(choice), block, time)
    }
}

/// Adds the lines of a block, which are at most 11. Blocks are numbered from 1.
#[tactic(auto, using(crate::proofs::Texts::followed), unfolding(crate::specs::Lines::block_lines))]
pub fn put_block(out: &mut String, seed: u64, block: u64) -> Result<(), AllocError>
    requires { block ≤ BLOCKS_MOST }
    ensures { OnOk result (string_bytes out.new ≡ string_bytes out.old ++ text_of (block_lines seed block)) }
{
    let choice = choice(seed, block);
    put_open(out, client_of(choice), file_of(choice), 10 * block)?;
    put_rest(out, choice, block)
}
