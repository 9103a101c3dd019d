//! The bytes that messages go out as. `specs/Ends.antt` states which they are.

ghost use Rattle.std.specs.Prelude.{◌≡◌, ◌≤◌, ◌⊎◌, IfOk, OnOk, OnErr, IsErrOf};
ghost use Rattle.std.specs.Io.KnownBytes.{Appends};
ghost use Rattle.lb_base.specs.Causes.{Rose};
ghost use Rattle.lb_base.specs.Known.{AppendsPrefix};
ghost use Rattle.record_ends.specs.Ends.{out_bytes};
ghost use Rattle.record_ends.specs.declared.end.End.TheVariants as ends;

use crate::end::End;
use links::link::{Link, send_all};
use rpc_record::refusal::MarkError;
use std::alloc::Global;
use wire::message::Message;
use wire::spell::spell_marked;

/// The bytes of messages, one behind the other. A message that stands alone isn't copied.
fn spelled(alloc: Global, messages: &[Message]) -> Result<Vec<u8>, MarkError>
    ensures { IfOk result (λ bytes. bytes.items ≡ out_bytes messages.now) }
{
    let mut all = Vec::new(alloc);
    for message in messages.iter() {
        let one = spell_marked(alloc, message)?;
        if all.is_empty() {
            all = one.into_vec();
        } else {
            all.extend_from_slice(one.as_slice())?;
        }
    }
    Ok(all)
}

/// Gives all messages to the link at once, each as one record of one fragment.
///
/// Of a link that tells what it was given, `Ok` says that it was given the bytes of all messages, in
/// order, and `Err` that it was given a front of them. The one error beside `Failed`, which comes
/// only where the link's count rose, is running out of memory; a message that no record can hold is told as
/// that.
pub fn put_out<L: Link>(alloc: Global, link: &mut L, messages: &[Message]) -> Result<(), End>
    ensures ok { OnOk result (Appends (L.held link.old) (L.held link.new) (out_bytes messages.now)) }
    ensures err { OnErr result (AppendsPrefix (L.held link.old) (L.held link.new) (out_bytes messages.now)) }
    ensures only { OnErr result (IsErrOf result ends.Failed ⊎ IsErrOf result ends.Memory) }
    ensures fault { IsErrOf result ends.Failed → Rose (L.faults link.old) (L.faults link.new) }
    ensures come { L.left link.new ≡ L.left link.old }
    ensures later { L.faults link.old ≤ L.faults link.new }
{
    let bytes = spelled(alloc, messages)?;
    send_all(link, &bytes)?;
    Ok(())
}
