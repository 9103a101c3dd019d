//! What goes out on the link of a mount, and how the link is dropped: `specs/Outlet.antt`.

ghost use Rattle.std.specs.Prelude.{◌≡◌, ◌⊎◌, ◌++◌, ◌&&◌, [], None, OnOk, OnErr, IsErrOf};
ghost use Rattle.std.specs.Io.KnownBytes.{Appends};
ghost use Rattle.lb_base.specs.Causes.{Rose};
ghost use Rattle.lb_base.specs.Known.{AppendsPrefix};
ghost use Rattle.record_ends.specs.Ends.{out_bytes};
ghost use Rattle.record_ends.specs.declared.end.End.TheVariants as ends;
ghost use Rattle.mount_desk.specs.Outlet.{Fails, FarewellEnds, Gives, GivesPart, kept_if};

use lb_base::items::Items;
use lbfs_client::farewell::farewell;
use links::link::Link;
use record_ends::end::End;
use record_ends::outgoing::put_out;
use send_list::{SendList, append};
use std::alloc::{AllocError, Global};
use std::mem;
use wire::message::Message;

/// The link is shut, where there is one, and dropped.
pub(crate) fn close<L: Link + Drop>(link: &mut Option<L>)
    ensures { link.new ≡ None }
{
    if let Some(link) = link {
        link.shut();
    }
    *link = None;
}

/// The link is shut and dropped where the client is done with it.
pub(crate) fn close_unless<L: Link + Drop>(linked: bool, link: &mut Option<L>)
    ensures { link.new ≡ kept_if linked link.old }
{
    if !linked {
        close(link);
    }
}

/// Whether what is said waits for what is said next.
pub(crate) fn may_wait(more: bool, linked: bool) -> bool
    ensures { result ≡ (more && linked) }
{
    more && linked
}

/// What was said goes behind what waits. The one error is running out of memory.
pub(crate) fn add(
    alloc: Global,
    waits: &mut Items<Message>,
    send: Items<Message>,
) -> Result<(), AllocError>
    ensures { OnOk result (waits.new ≡ waits.old ++ send) }
{
    if waits.is_empty() {
        *waits = send;
        return Ok(());
    }
    let mut all = mem::replace(waits, Items::new(alloc)).into_vec();
    let mut more = send.into_vec();
    all.append(&mut more)?;
    *waits = Items::from_vec(all);
    Ok(())
}

/// Messages are given to a link, where there are any.
#[tactic(auto, using(crate::proofs::Outlets::appends_nothing))]
fn give_all<L: Link>(alloc: Global, link: &mut L, send: &Items<Message>) -> Result<(), End>
    ensures ok { OnOk result (Appends (L.held link.old) (L.held link.new) (out_bytes send.now)) }
    ensures err { OnErr result (AppendsPrefix (L.held link.old) (L.held link.new) (out_bytes send.now)) }
    ensures only { OnErr result (IsErrOf result ends.Failed ⊎ IsErrOf result ends.Memory) }
    ensures fault { IsErrOf result ends.Failed → Rose (L.faults link.old) (L.faults link.new) }
{
    if send.is_empty() {
        return Ok(());
    }
    put_out(alloc, link, send.as_slice())
}

/// Messages go out, where a connection is joined.
#[tactic(auto, using(crate::proofs::Outlets::by_give_on))]
fn give_on<L: Link>(alloc: Global, link: &mut Option<L>, send: &Items<Message>) -> Result<(), End>
    ensures ok { OnOk result (Gives L.held link.old link.new send.now) }
    ensures part { OnErr result (GivesPart L.held link.old link.new send.now) }
    ensures only { OnErr result (IsErrOf result ends.Failed ⊎ IsErrOf result ends.Memory) }
    ensures fault { IsErrOf result ends.Failed → Fails L.held L.faults link.old link.new send.now }
{
    match link {
        Some(link) => give_all(alloc, link, send),
        None => Ok(()),
    }
}

/// What waits goes out, where a connection is joined.
pub(crate) fn give_waits<L: Link>(
    alloc: Global,
    link: &mut Option<L>,
    waits: &mut Items<Message>,
) -> Result<(), End>
    ensures ok { OnOk result (Gives L.held link.old link.new waits.old) }
    ensures part { OnErr result (GivesPart L.held link.old link.new waits.old) }
    ensures only { OnErr result (IsErrOf result ends.Failed ⊎ IsErrOf result ends.Memory) }
    ensures fault { IsErrOf result ends.Failed → Fails L.held L.faults link.old link.new waits.old }
    ensures none { waits.new ≡ [] }
{
    let all = mem::replace(waits, Items::new(alloc));
    let given = give_on(alloc, link, &all);
    drop(all);
    given
}

/// What waits goes out and a farewell behind it, where a connection is joined.
pub(crate) fn give_farewell<L: Link>(
    alloc: Global,
    link: &mut Option<L>,
    waits: &mut Items<Message>,
) -> Result<(), End>
    ensures { FarewellEnds L.held L.faults link.old link.new waits.old result }
{
    match append(alloc, waits, SendList::one(alloc, farewell())) {
        Ok(()) => give_waits(alloc, link, waits),
        Err(_want) => Err(End::Memory),
    }
}
