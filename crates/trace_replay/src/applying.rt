//! What the lines of a trace do to a world. `specs/Run.antt` says what each is.

ghost use Rattle.std.specs.Prelude.{◌≡◌, ◌+◌, IfOk, OnOk, length};
ghost use Rattle.command_text.specs.Content.{content_bytes};
ghost use Rattle.server_core.specs.State.{with_term};
ghost use Rattle.trace_ends.specs.View.{core_of};
ghost use Rattle.trace_replay.specs.Run.{with_file, with_directory, with_clients, turned};
ghost use Rattle.trace_replay.specs.Turns.{IsTurnBounded};
ghost use Rattle.trace_replay.specs.WorldView.{world_of};

use crate::opening::OpeningFile;
use crate::state::{Event, WorldState};
use crate::turn::{Turn, stage_after};
use command_text::content::{Content, build};
use lb_base::items::Name;
use shared_bytes::SharedBytes;
use std::alloc::{AllocError, Global};
use trace_ends::session::short_number;
use trace_ends::world_core::Core;
use tree_nodes::content::Content as Whole;
use tree_nodes::node::Body;

/// The size with a content more, and that content for the server. No tree comes to 2^64 bytes, so there
/// it is running out of memory.
fn size_and_content(alloc: Global, size: u64, content: &Content) -> Result<(u64, Whole), AllocError>
    ensures { IfOk result (λ made. made ≡ (size + length (content_bytes content.now), content_bytes content.now)) }
{
    let bytes = build(alloc, content)?;
    let size = size.checked_add(bytes.len() as u64).ok_or(AllocError)?;
    let whole = Whole::new(alloc, SharedBytes::new(alloc, bytes)?)?;
    Ok((size, whole))
}

/// The server grants leases of so many milliseconds. No header has a term of 2^32, so there it is
/// running out of memory.
fn grants(core: &mut Core, term: u64) -> Result<(), AllocError>
    ensures { OnOk result (core_of core.new ≡ record (core_of core.old) { server = with_term core.old.server term }) }
{
    let term = short_number(term)?;
    core.set_term(term);
    Ok(())
}

impl WorldState {
    /// A file of this name and content gets the tree's next id, and version 1.
    fn builds(
        &mut self,
        alloc: Global,
        dir: u64,
        name: Name,
        content: Content,
    ) -> Result<(), AllocError>
        ensures { OnOk result (world_of self.new ≡ with_file (world_of self.old) dir name (content_bytes content)) }
    {
        let (size, whole) = size_and_content(alloc, self.size, &content)?;
        let id = self.core.server.next_id();
        self.core.open(dir, name, Body::File(whole))?;
        self.opening.push(OpeningFile::new(id, content))?;
        self.size = size;
        Ok(())
    }

    /// What a line in place asks for.
    pub fn take(&mut self, alloc: Global, turn: Turn) -> Result<(), AllocError>
        requires { IsTurnBounded turn }
        ensures { OnOk result (world_of self.new ≡ turned (world_of self.old) turn) }
    {
        self.stage = stage_after(self.stage, &turn);
        match turn {
            Turn::Skip => Ok(()),
            Turn::Version(lbfs) => {
                self.core.set_lbfs(lbfs);
                Ok(())
            }
            Turn::Term(term) => grants(&mut self.core, term),
            Turn::Drift(drift) => {
                self.core.set_drift(drift);
                Ok(())
            }
            Turn::Clients(count) => self.core.seat_all(alloc, count),
            Turn::Dir { dir, name } => self.core.open(dir, name, Body::Directory),
            Turn::File { dir, name, content } => self.builds(alloc, dir, name, content),
            Turn::Join(client) => self.happens(alloc, Event::Joins(client)),
            Turn::Do {
                client,
                now,
                command,
            } => self.happens(
                alloc,
                Event::Does {
                    client,
                    now,
                    command,
                },
            ),
            Turn::Up {
                session,
                amount,
                now,
            } => self.up_some(alloc, session, amount, now),
            Turn::Down {
                session,
                amount,
                now,
            } => self.down_some(alloc, session, amount, now),
            Turn::Settle(now) => self.happens(alloc, Event::Settles(now)),
            Turn::Cut(client) => self.happens(alloc, Event::Cuts(client)),
            Turn::Hang(session) => self.happens(alloc, Event::Hangs(session)),
            Turn::RawJoin => self.happens(alloc, Event::RawJoins),
            Turn::Raw { session, bytes } => self.raw_put(session, bytes),
            Turn::Adjust(adjustment) => self.adjusts(alloc, adjustment),
            Turn::Pass {
                session,
                rounds,
                server,
                at,
            } => self.passes(alloc, session, rounds, server, at),
        }
    }
}
