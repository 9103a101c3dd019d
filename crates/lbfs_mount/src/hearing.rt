//! The thread of a connection: it takes the records that come, each in a turn of its own. So what the
//! server asks is answered also while no line runs. What is said of records that came at once goes out at
//! once. `specs/Heard.antt` says which records are heard.

ghost use Rattle.lbfs_mount.specs.Heard.{HearsTo};

use links::clock::Clock;
use links::link::Link;
use mount_desk::shared::Shared;
use mount_desk::turns::Turns;
use record_ends::inbox::Inbox;
use std::sync::Wait;

/// Takes the records of a connection, until no more come or the client is done with it.
pub(crate) fn hear_all<W: Wait, D: Turns + Drop, L: Link + Drop, C: Clock>(
    rt: &W,
    shared: &Shared<D>,
    connection: u64,
    link: &mut L,
    inbox: &mut Inbox,
    clock: &C,
)
    ensures { HearsTo D.hears D.stops connection (L.left link.old) (L.left link.new) (L.faults link.old) (L.faults link.new) inbox.old inbox.new }
{
    for _turn in rt.forever() {
        match inbox.next(shared.alloc(), link) {
            Ok(record) => {
                let bytes = record.as_slice();
                let more = !inbox.is_empty();
                let goes_on = shared.hear(rt, connection, bytes, more, clock.now());
                drop(record);
                if !goes_on {
                    return;
                }
            }
            Err(end) => {
                shared.stop(rt, connection, end, clock.now());
                return;
            }
        }
    }
    unreachable!()
}
