//! The command line as `clap` is told it: `program` of `specs/Table.antt`, of the commands in a table.

ghost use Rattle.std.specs.Prelude.{◌≡◌, IfOk, map, string_bytes, true, false};
ghost use Rattle.clap.specs.Words.{FailsBy, HasMatchesOf, app_of, fault_of, is_simple_and_free, rule_of};
ghost use Rattle.program_words.specs.FrontLine.{front};
ghost use Rattle.program_words.specs.Line.{lbfs};
ghost use Rattle.program_words.specs.Table.{command, program, rule};

use clap::{Arg, ArgAction, ArgMatches, Command, Error};
use std::alloc::{AllocError, Global};

/// What `clap` is told of an argument beside its name.
#[derive(Clone, Copy)]
struct Kind {
    /// Whether it is an option, and no word in its place.
    is_option: bool,
    required: bool,
    action: ArgAction,
    /// Whether it takes all words that are left, whatever they begin with.
    rest: bool,
}

/// An option with one value, which may be left out.
const OPTIONAL: Kind = Kind {
    is_option: true,
    required: false,
    action: ArgAction::Set,
    rest: false,
};

/// An option with one value, which is wanted.
const REQUIRED: Kind = Kind {
    is_option: true,
    required: true,
    action: ArgAction::Set,
    rest: false,
};

/// A flag.
const FLAG: Kind = Kind {
    is_option: true,
    required: false,
    action: ArgAction::SetTrue,
    rest: false,
};

/// A word in its place, which is wanted.
const PLACED: Kind = Kind {
    is_option: false,
    required: true,
    action: ArgAction::Set,
    rest: false,
};

/// All words that are left.
const REST: Kind = Kind {
    is_option: false,
    required: false,
    action: ArgAction::Append,
    rest: true,
};

/// A command of the program: its name, and its arguments.
#[derive(Clone, Copy)]
pub(crate) struct Line {
    name: &'static str,
    args: &'static [(&'static str, Kind)],
}

/// The commands for programs: `lbfs` of `specs/Line.antt`.
static LBFS: [Line; 7] = [
    Line {
        name: "replay",
        args: &[("summary", FLAG), ("seed", OPTIONAL), ("blocks", OPTIONAL)],
    },
    Line {
        name: "gen",
        args: &[("seed", PLACED), ("blocks", PLACED)],
    },
    Line {
        name: "cut",
        args: &[],
    },
    Line {
        name: "show",
        args: &[],
    },
    Line {
        name: "serve",
        args: &[
            ("port", REQUIRED),
            ("term", REQUIRED),
            ("sessions", REQUIRED),
            ("store", REQUIRED),
            ("unsynced", FLAG),
        ],
    },
    Line {
        name: "mount",
        args: &[
            ("port", REQUIRED),
            ("drift", REQUIRED),
            ("cache", OPTIONAL),
            ("keep", OPTIONAL),
        ],
    },
    Line {
        name: "check",
        args: &[("store", REQUIRED)],
    },
];

/// The commands for people: `front` of `specs/FrontLine.antt`.
static FRONT: [Line; 2] = [
    Line {
        name: "shell",
        args: &[
            ("port", REQUIRED),
            ("links", OPTIONAL),
            ("cache", OPTIONAL),
            ("quiet", FLAG),
            ("command", REST),
        ],
    },
    Line {
        name: "share",
        args: &[
            ("dir", PLACED),
            ("port", OPTIONAL),
            ("term", OPTIONAL),
            ("unsynced", FLAG),
        ],
    },
];

/// All commands for programs.
#[tactic(auto, unfolding(crate::specs::Line::lbfs, crate::specs::Table::command))]
pub(crate) fn lbfs() -> &'static [Line]
    ensures { program result.now ≡ lbfs }
{
    &LBFS
}

/// All commands for people.
#[tactic(auto, unfolding(crate::specs::FrontLine::front, crate::specs::Table::command))]
pub(crate) fn front() -> &'static [Line]
    ensures { program result.now ≡ front }
{
    &FRONT
}

/// An argument.
fn arg_of<'a>(alloc: Global, name: &'a str, kind: Kind) -> Arg<'a>
    ensures rule { rule_of result ≡ rule kind name.entry.now }
    ensures own { result.global ≡ false }
{
    let arg = Arg::new(alloc, name)
        .required(kind.required)
        .action(kind.action)
        .trailing_var_arg(kind.rest);
    if kind.is_option { arg.long(name) } else { arg }
}

/// A command with its arguments.
#[tactic(auto, unfolding(crate::specs::Table::command))]
fn command_of<'a>(alloc: Global, line: Line) -> Result<Command<'a>, AllocError>
    ensures { IfOk result (λ c. app_of c ≡ command line) }
{
    let all = line.args;
    let mut command = Command::new(alloc, line.name);
    for arg in all {
        command = command.arg(arg_of(alloc, arg.0, arg.1))?;
    }
    Ok(command)
}

/// The program with these commands; its words are those behind its name, and a command stands among them.
fn program_of<'a>(alloc: Global, lines: &[Line]) -> Result<Command<'a>, AllocError>
    ensures { IfOk result (λ c. app_of c ≡ program lines.now) }
{
    let mut program = Command::new(alloc, "lbfs")
        .no_binary_name(true)
        .subcommand_required(true);
    for line in lines {
        let command = command_of(alloc, *line)?;
        program = program.subcommand(command)?;
    }
    Ok(program)
}

/// What `clap` finds in these words, by these commands.
pub(crate) fn matches_of<'a>(
    alloc: Global,
    lines: &[Line],
    words: &'a [String],
) -> Result<ArgMatches<'a>, Error>
    ensures matches { IfOk result (HasMatchesOf (program lines.now) (map (λ w. string_bytes w) words.entry.now)) }
    ensures kinds { is_simple_and_free (program lines.now) ≡ true → FailsBy (fault_of (program lines.now) (map (λ w. string_bytes w) words.entry.now)) result }
{
    let program = program_of(alloc, lines)?;
    program.try_get_matches_from(words)
}
