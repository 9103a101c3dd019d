//! What a trace's line changes in an index or a cache alone. `adjusted` in `specs/Core.antt` says what
//! that makes of the two ends: no step, and nothing is sent.

ghost use Rattle.std.specs.Prelude.{◌≡◌, IfOk, OnOk};
ghost use Rattle.cache_file.specs.Items.{items};
ghost use Rattle.client_state.specs.Hints.{warms};
ghost use Rattle.command_text.specs.Content.{content_bytes};
ghost use Rattle.trace_ends.specs.Numbers.{numbered};
ghost use Rattle.trace_ends.specs.Core.{with_client, client_changed, adjusted};
ghost use Rattle.trace_ends.specs.View.{core_of};

use crate::world_core::Core;
use chunk_index::place::Place;
use command_text::content::{Content, build};
use lb_base::items::Bytes;
use session_rules::numbers::place_of;
use std::alloc::{AllocError, Global};
use trace_text::line::Who;

/// A change of an index or a cache alone. Clients are numbered from 1.
pub enum Adjustment {
    /// The index gets this place for the key.
    Forge { who: Who, key: u64, place: Place },
    /// The index has no place any more.
    Clear(Who),
    /// The client drops the content that it keeps of this file.
    Evict { client: u64, file: u64 },
    /// The client gets the items of a cache file that has this content.
    Warm { client: u64, content: Content },
}

// By hand: docs/proving/dropping.md.
impl Drop for Adjustment {
    fn drop(self) {
        match self {
            Adjustment::Warm { client: _, content } => drop(content),
            Adjustment::Forge {
                who: _,
                key: _,
                place: _,
            } => (),
            Adjustment::Clear(_) => (),
            Adjustment::Evict { client: _, file: _ } => (),
        }
    }
}

/// A change of one client's index or cache alone.
#[derive(Clone, Copy)]
pub enum CacheChange {
    /// The index gets this place for the key.
    Forge { key: u64, place: Place },
    /// The index has no place any more.
    Clear,
    /// The client drops the content that it keeps of this file.
    Evict(u64),
}

/// A client, if there is one of this number, has its index or cache changed so.
fn change_client(core: &mut Core, client: u64, change: CacheChange) -> Result<(), AllocError>
    ensures { OnOk result (core_of core.new ≡ with_client (core_of core.old) client (client_changed change) (numbered core.old.seats.items client)) }
{
    match place_of(core.seats.len(), client) {
        Some(at) => core.seats[at].changes(change),
        None => Ok(()),
    }
}

/// A client, if there is one of this number, gets these items of a cache file.
fn warm_client(
    alloc: Global,
    core: &mut Core,
    client: u64,
    items: &[Bytes],
) -> Result<(), AllocError>
    ensures { OnOk result (core_of core.new ≡ with_client (core_of core.old) client (λ s. warms s items.now) (numbered core.old.seats.items client)) }
{
    match place_of(core.seats.len(), client) {
        Some(at) => core.seats[at].warms(alloc, items),
        None => Ok(()),
    }
}

/// The items that stand in a cache file of this content.
fn items_of(alloc: Global, content: &Content) -> Result<Vec<Bytes>, AllocError>
    ensures { IfOk result (λ v. v.items ≡ items (content_bytes content.now)) }
{
    let bytes = build(alloc, content)?;
    cache_file::load(alloc, bytes.as_slice())
}

/// A client, if there is one of this number, gets the items of a cache file of this content.
fn warm(alloc: Global, core: &mut Core, client: u64, content: &Content) -> Result<(), AllocError>
    ensures { OnOk result (core_of core.new ≡ with_client (core_of core.old) client (λ s. warms s (items (content_bytes content.now))) (numbered core.old.seats.items client)) }
{
    let items = items_of(alloc, content)?;
    warm_client(alloc, core, client, &items)
}

/// An index or a cache is changed, and nothing else. The one error is running out of memory.
pub fn adjust(alloc: Global, core: &mut Core, adjustment: &Adjustment) -> Result<(), AllocError>
    ensures { OnOk result (core_of core.new ≡ adjusted (core_of core.old) adjustment.now) }
{
    match adjustment {
        Adjustment::Forge { who, key, place } => {
            let (key, place) = (*key, *place);
            match *who {
                Who::Server => core.server.forge(key, place),
                Who::Client(client) => change_client(
                    core,
                    client,
                    CacheChange::Forge { key, place },
                ),
            }
        }
        Adjustment::Clear(who) => match *who {
            Who::Server => {
                core.server.clear_index();
                Ok(())
            }
            Who::Client(client) => change_client(core, client, CacheChange::Clear),
        },
        Adjustment::Evict { client, file } => change_client(
            core,
            *client,
            CacheChange::Evict(*file),
        ),
        Adjustment::Warm { client, content } => warm(alloc, core, *client, content),
    }
}
