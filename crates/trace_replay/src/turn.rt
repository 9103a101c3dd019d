//! What a line of a trace asks for, and which lines are refused. `specs/Run.antt` says so of each.

ghost use Rattle.std.specs.Prelude.{◌≡◌, true, false, nat_lt, nat_le, IfOk, Some};
ghost use Rattle.trace_text.specs.Reading.{IsTimely};
ghost use Rattle.trace_ends.specs.Numbers.{numbered};
ghost use Rattle.trace_replay.specs.World.{World};
ghost use Rattle.trace_replay.specs.Run.{sessions_most, raw_joins_within, is_owned_at, is_raw_at, is_there, has_index, asks_if, place_for, file_asks, directory_asks, joins_if, warm_asks, adjust_asks};
ghost use Rattle.trace_replay.specs.Run.{event_asks, asks_at, asks, asks_within, asked, in_header};
ghost use Rattle.trace_replay.specs.Turns.{IsTurnBounded, is_delivery, is_do, is_raw_line, is_warm, stage_after};
ghost use Rattle.trace_ends.specs.View.{core_of};
ghost use Rattle.trace_replay.specs.WorldView.{world_of};
ghost use Rattle.trace_replay.specs.declared.stage.Stage.TheVariants as stage;
ghost use Rattle.trace_replay.specs.declared.turn.Turn.TheVariants as turn;

use crate::paths::place_for;
use crate::stage::Stage;
use crate::state::WorldState;
use chunk_index::place::Place;
use command_text::command::Command;
use command_text::content::{Content, length_within};
use command_text::path::Spot;
use lb_base::items::{Bytes, Name};
use limits::{FILE_MOST, LINES_MOST, SESSIONS_MOST, TREE_MOST};
use session_rules::numbers::place_of;
use trace_ends::adjusting::Adjustment;
use trace_ends::seat::Seat;
use trace_ends::world_core::Core;
use trace_text::line::{Amount, Line, Who};
use trace_text::refusal::{Limit, LineFault};

/// What a line in place asks of the world. Clients and sessions are numbered from 1; `now` is a
/// reading of the clock of the end that acts, in milliseconds.
#[derive(Drop)]
pub enum Turn {
    /// Nothing: the line is skipped.
    Skip,
    /// The clients that come speak this version of LBFS.
    Version(u32),
    /// The server grants leases of so many milliseconds.
    Term(u64),
    /// The clients that come take their clocks and the server's to drift apart by so many milliseconds.
    Drift(u64),
    /// So many clients.
    Clients(u64),
    /// A directory, of this name in the directory of an id.
    Dir {
        dir: u64,
        name: Name,
    },
    /// A file, of this name in the directory of an id.
    File {
        dir: u64,
        name: Name,
        content: Content,
    },
    /// The client joins.
    Join(u64),
    /// The client's command.
    Do {
        client: u64,
        now: u64,
        command: Command,
    },
    /// Bytes on their way up the session reach the server.
    Up {
        session: u64,
        amount: Amount,
        now: u64,
    },
    /// Bytes on their way down the session reach its client.
    Down {
        session: u64,
        amount: Amount,
        now: u64,
    },
    /// A pending change may be made.
    Settle(u64),
    /// The client sees its connection lost.
    Cut(u64),
    /// The server sees the session's connection lost.
    Hang(u64),
    /// A session is made that is no client's.
    RawJoin,
    /// Such a session sends these bytes.
    Raw {
        session: u64,
        bytes: Bytes,
    },
    /// So many rounds of the session, at a reading of the server's clock and one of the client's.
    Pass {
        session: u64,
        rounds: u64,
        server: u64,
        at: u64,
    },
    /// An index or a cache is changed, and nothing else.
    Adjust(Adjustment),
}

/// Which lines may come after a turn.
pub fn stage_after(stage: Stage, turn: &Turn) -> Stage
    ensures { result ≡ stage_after stage turn.now }
{
    match turn {
        Turn::Skip | Turn::Dir { .. } | Turn::File { .. } => stage,
        Turn::Version(_) => Stage::Term,
        Turn::Term(_) => Stage::Drift,
        Turn::Drift(_) => Stage::Clients,
        Turn::Clients(_) => Stage::Files,
        _ => Stage::Events,
    }
}

/// A turn that is taken where something holds.
fn asks_if(holds: bool, turn: Turn) -> Result<Turn, LineFault>
    ensures { result ≡ asks_if holds turn }
{
    if holds {
        Ok(turn)
    } else {
        Err(LineFault::Grammar)
    }
}

/// What a line of the header asks for, in its place.
fn header_asks(stage: Stage, line: &Line) -> Result<Turn, LineFault>
    requires { in_header stage ≡ true }
    ensures { (w : World) → result ≡ asks_at w stage line.now }
{
    match (stage, line) {
        (Stage::Version, Line::Version(lbfs)) => Ok(Turn::Version(*lbfs)),
        (Stage::Term, Line::Term(term)) => Ok(Turn::Term(*term)),
        (Stage::Drift, Line::Drift(drift)) => Ok(Turn::Drift(*drift)),
        (Stage::Clients, Line::Clients(count)) => Ok(Turn::Clients(*count)),
        _ => Err(LineFault::Grammar),
    }
}

/// A content within the limits of a file, and of the tree, which has so many bytes already.
fn sized(dir: u64, name: Name, content: Content, size: u64) -> Result<Turn, LineFault>
    ensures { result ≡ file_asks (Some dir) size name content }
{
    let Some(len) = length_within(&content, FILE_MOST) else {
        return Err(LineFault::Limit(Limit::File));
    };
    if size > TREE_MOST || TREE_MOST - size < len {
        return Err(LineFault::Limit(Limit::Tree));
    }
    Ok(Turn::File { dir, name, content })
}

/// What a file asks for: its name is free, and its content within the limits.
fn file_asks(core: &Core, size: u64, spot: Spot, content: Content) -> Result<Turn, LineFault>
    ensures { result ≡ file_asks (place_for (core_of core.now).server.tree spot) size spot.name content }
{
    match place_for(&core.server, &spot) {
        Some(dir) => sized(dir, spot.name, content, size),
        None => Err(LineFault::Grammar),
    }
}

/// What a directory asks for: its name is free.
fn directory_asks(core: &Core, spot: Spot) -> Result<Turn, LineFault>
    ensures { result ≡ directory_asks (place_for (core_of core.now).server.tree spot) spot.name }
{
    match place_for(&core.server, &spot) {
        Some(dir) => Ok(Turn::Dir {
            dir,
            name: spot.name,
        }),
        None => Err(LineFault::Grammar),
    }
}

/// A client that is there and isn't joined joins, where so many sessions stand and a further one can.
fn joins_if(standing: usize, client: u64, seats: &Vec<Seat>) -> Result<Turn, LineFault>
    ensures { result ≡ joins_if standing client (numbered seats.now.items client) }
{
    let Some(place) = place_of(seats.len(), client) else {
        return Err(LineFault::Grammar);
    };
    if seats[place].linked() {
        return Err(LineFault::Grammar);
    }
    if standing < SESSIONS_MOST {
        Ok(Turn::Join(client))
    } else {
        Err(LineFault::Limit(Limit::Sessions))
    }
}

/// A session that is no client's is made, where so many stand and a further one can.
fn raw_joins_within(standing: usize) -> Result<Turn, LineFault>
    ensures { result ≡ raw_joins_within (nat_lt standing sessions_most) }
{
    if standing >= SESSIONS_MOST {
        return Err(LineFault::Limit(Limit::Sessions));
    }
    Ok(Turn::RawJoin)
}

/// What a client that is there asks for.
fn by_client(core: &Core, client: u64, turn: Turn) -> Result<Turn, LineFault>
    ensures { result ≡ asks_if (is_there (numbered (core_of core.now).seats client)) turn }
{
    let is_there = place_of(core.seats.len(), client).is_some();
    asks_if(is_there, turn)
}

/// What is asked of a session that was made.
fn of_session(core: &Core, session: u64, turn: Turn) -> Result<Turn, LineFault>
    ensures { result ≡ asks_if (is_there (numbered (core_of core.now).sessions session)) turn }
{
    let is_made = place_of(core.sessions.len(), session).is_some();
    asks_if(is_made, turn)
}

/// What is asked of a session that was made and is a client's.
fn of_owned(core: &Core, session: u64, turn: Turn) -> Result<Turn, LineFault>
    ensures { result ≡ asks_if (is_owned_at (numbered (core_of core.now).sessions session)) turn }
{
    match place_of(core.sessions.len(), session) {
        Some(place) => asks_if(!core.sessions[place].is_raw(), turn),
        None => asks_if(false, turn),
    }
}

/// What a session is asked for that is no client's: it sends these bytes.
fn raw_asks(core: &Core, session: u64, bytes: Bytes) -> Result<Turn, LineFault>
    ensures { result ≡ asks_if (is_raw_at (numbered (core_of core.now).sessions session)) (turn.Raw session bytes) }
{
    let Some(place) = place_of(core.sessions.len(), session) else {
        return Err(LineFault::Grammar);
    };
    asks_if(core.sessions[place].is_raw(), Turn::Raw { session, bytes })
}

/// What is asked of an index that is there: the server's, or that of a client who is.
fn of_index(core: &Core, who: Who, adjustment: Adjustment) -> Result<Turn, LineFault>
    ensures { result ≡ asks_if (has_index (core_of core.now) who) (turn.Adjust adjustment) }
{
    let turn = Turn::Adjust(adjustment);
    match who {
        Who::Server => Ok(turn),
        Who::Client(client) => by_client(core, client, turn),
    }
}

/// What a line asks for that changes an index or a cache alone, without a content.
fn adjust_asks(core: &Core, line: &Line) -> Result<Turn, LineFault>
    requires { is_warm line.now ≡ false }
    ensures { result ≡ adjust_asks (core_of core.now) line.now }
{
    match line {
        Line::Forge {
            who,
            key,
            file,
            offset,
            count,
        } => {
            let place = Place {
                file: *file,
                offset: *offset,
                count: *count,
            };
            let (who, key) = (*who, *key);
            of_index(core, who, Adjustment::Forge { who, key, place })
        }
        Line::Clear(who) => of_index(core, *who, Adjustment::Clear(*who)),
        Line::Evict { client, file } => {
            let (client, file) = (*client, *file);
            let evicts = Turn::Adjust(Adjustment::Evict { client, file });
            by_client(core, client, evicts)
        }
        _ => Err(LineFault::Grammar),
    }
}

/// What a client asks for that is to get the items of a cache file of this content.
fn warm_asks(core: &Core, client: u64, content: Content) -> Result<Turn, LineFault>
    ensures { result ≡ warm_asks client content (numbered (core_of core.now).seats client) }
{
    let Some(place) = place_of(core.seats.len(), client) else {
        return Err(LineFault::Grammar);
    };
    if !core.seats[place].may_warm() {
        return Err(LineFault::Grammar);
    }
    if length_within(&content, FILE_MOST).is_none() {
        return Err(LineFault::Limit(Limit::File));
    }
    Ok(Turn::Adjust(Adjustment::Warm { client, content }))
}

/// What a line asks for that has bytes of one way delivered.
fn delivery_asks(core: &Core, line: &Line) -> Result<Turn, LineFault>
    requires { is_delivery line.now ≡ true }
    ensures { result ≡ event_asks (core_of core.now) line.now }
{
    match line {
        Line::Up {
            session,
            amount,
            server,
        } => {
            let (session, amount, now) = (*session, *amount, *server);
            of_session(
                core,
                session,
                Turn::Up {
                    session,
                    amount,
                    now,
                },
            )
        }
        Line::Down {
            session,
            amount,
            at,
        } => {
            let (session, amount, now) = (*session, *amount, *at);
            of_owned(
                core,
                session,
                Turn::Down {
                    session,
                    amount,
                    now,
                },
            )
        }
        _ => Err(LineFault::Grammar),
    }
}

/// What an event asks for that has no command, no content and no bytes.
fn plain_asks(core: &Core, line: &Line) -> Result<Turn, LineFault>
    requires command { is_do line.now ≡ false }
    requires warm { is_warm line.now ≡ false }
    requires raw { is_raw_line line.now ≡ false }
    ensures { result ≡ event_asks (core_of core.now) line.now }
{
    match line {
        Line::Up { .. } | Line::Down { .. } => delivery_asks(core, line),
        Line::Pass {
            session,
            rounds,
            server,
            at,
        } => {
            let (session, rounds, server, at) = (*session, *rounds, *server, *at);
            of_owned(
                core,
                session,
                Turn::Pass {
                    session,
                    rounds,
                    server,
                    at,
                },
            )
        }
        Line::Join { client, .. } => joins_if(core.server.standing(), *client, &core.seats),
        Line::RawJoin { .. } => raw_joins_within(core.server.standing()),
        Line::Settle { server } => Ok(Turn::Settle(*server)),
        Line::Cut { client, .. } => by_client(core, *client, Turn::Cut(*client)),
        Line::Hang { session, .. } => of_session(core, *session, Turn::Hang(*session)),
        Line::Do { .. } | Line::Warm { .. } | Line::Raw { .. } => Err(LineFault::Grammar),
        _ => adjust_asks(core, line),
    }
}

/// What an event asks for, which names a client and a session that are there.
fn event_asks(core: &Core, line: Line) -> Result<Turn, LineFault>
    ensures { result ≡ event_asks (core_of core.now) line }
{
    match line {
        Line::Do {
            client,
            at,
            command,
        } => by_client(
            core,
            client,
            Turn::Do {
                client,
                now: at,
                command,
            },
        ),
        Line::Warm { client, content } => warm_asks(core, client, content),
        Line::Raw { session, bytes } => raw_asks(core, session, bytes),
        line => {
            let asked = plain_asks(core, &line);
            drop(line);
            asked
        }
    }
}

/// What a line behind the header asks for, where a file may come.
fn files_asks(world: &WorldState, line: Line) -> Result<Turn, LineFault>
    ensures { result ≡ asks_at (world_of world.now) stage.Files line }
{
    match line {
        Line::Dir(spot) => directory_asks(&world.core, spot),
        Line::File { spot, content } => file_asks(&world.core, world.size, spot, content),
        line => event_asks(&world.core, line),
    }
}

/// What a line asks for that isn't skipped.
fn asks_at(world: &WorldState, line: Line) -> Result<Turn, LineFault>
    ensures { result ≡ asks_at (world_of world.now) world.now.stage line }
{
    match world.stage {
        Stage::Files => files_asks(world, line),
        Stage::Events => event_asks(&world.core, line),
        stage => header_asks(stage, &line),
    }
}

/// What a line asks for, whatever its number.
fn asks(world: &WorldState, line: Line) -> Result<Turn, LineFault>
    ensures { result ≡ asks (world_of world.now) line }
{
    match line {
        Line::Skipped => Ok(Turn::Skip),
        line => asks_at(world, line),
    }
}

/// A line past the limit of lines is refused by that, unless it is outside the grammar.
fn asks_within(is_within: bool, asked: Result<Turn, LineFault>) -> Result<Turn, LineFault>
    ensures { result ≡ asks_within is_within asked }
{
    if is_within {
        return asked;
    }
    match asked {
        Err(LineFault::Grammar) => Err(LineFault::Grammar),
        _ => Err(LineFault::Limit(Limit::Lines)),
    }
}

/// What the line of this number asks for, or why it is refused.
pub fn asked(world: &WorldState, number: u64, line: Line) -> Result<Turn, LineFault>
    requires { IsTimely line }
    ensures asked { result ≡ asked (world_of world.now) number line }
    ensures bounded { IfOk result IsTurnBounded }
{
    asks_within(number <= LINES_MOST, asks(world, line))
}
