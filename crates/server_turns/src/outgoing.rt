//! What goes out to a session: what was taken from its box in a turn, once the store is sure of what was
//! made by then. So nobody is told what a cut of power could undo. What answers on temporary files alone
//! waits for nothing.

ghost use Rattle.std.specs.Prelude.{◌≡◌, true, OnOk, IfOk};
ghost use Rattle.server_turns.specs.Telling.{tells, any_tells};

use hash_calls::message::Lb;
use lb_base::source::Failed;
use std::sync::Wait;
use synced_store::syncs::Syncs;
use wire::message::{Body, Message};
use xdr_codec::answer::Answer;

/// What there is to say to a session, as it was taken in a turn. Nothing of it may go out yet.
pub struct Taken {
    messages: Vec<Message>,
    stands: bool,
}

// By hand: docs/proving/dropping.md.
impl Drop for Taken {
    fn drop(self) {
        let Taken {
            messages,
            stands: _,
        } = self;
        drop(messages);
    }
}

/// What may go out to a session: where a message of it tells what the store has (`tells`), a `sync` behind its
/// turn has answered `Ok`. It is made by `Taken::sync` alone.
pub struct Sure {
    messages: Vec<Message>,
    stands: bool,
}

// By hand, as above.
impl Drop for Sure {
    fn drop(self) {
        let Sure {
            messages,
            stands: _,
        } = self;
        drop(messages);
    }
}

/// Whether a message is a call.
fn is_call(message: &Message) -> bool {
    match message {
        Message::Call(_, _) => true,
        _ => false,
    }
}

/// Whether a message tells what the store has: all do but the answers on a client's temporary files. Of these
/// the refusal of a MKTMPFILE does, since it may tell that the file is gone.
fn tells(message: &Message) -> bool
    ensures { result ≡ tells message.now }
{
    match message {
        Message::Answer(_, Body::Lb(answer)) => !matches!(
            answer,
            Lb::MkTmpFileAnswer(Answer::Done(_)) | Lb::TmpWriteAnswer(_) | Lb::CondWriteAnswer(_)
        ),
        _ => true,
    }
}

/// Whether any message does.
fn any_tells(messages: &[Message]) -> bool
    ensures { result ≡ any_tells messages.now }
{
    match messages {
        [message, rest @ ..] => tells(message) || any_tells(rest),
        [] => false,
    }
}

impl Taken {
    /// These messages, and whether more may follow.
    pub(crate) fn new(messages: Vec<Message>, stands: bool) -> Taken
        ensures { (result.messages ≡ messages) × (result.stands ≡ stands) }
    {
        Taken { messages, stands }
    }

    /// How many of the messages are calls, which the client is to answer.
    pub fn calls(&self) -> u64 {
        let mut calls: u64 = 0;
        for message in self.messages.iter() {
            if is_call(message) {
                calls = calls.saturating_add(1);
            }
        }
        calls
    }

    /// Makes the store sure of all that was made before what is to be said was taken; where nothing tells of it,
    /// of nothing. `Failed` comes where the store is in doubt.
    pub(crate) fn sync<W: Wait, Y: Syncs>(self, rt: &W, syncs: &Y) -> Result<Sure, Failed>
        ensures sure { OnOk result (any_tells self.messages.items ≡ true → Y.is_sure syncs.now) }
        ensures same { IfOk result (λ sure. (sure.messages ≡ self.messages) × (sure.stands ≡ self.stands)) }
    {
        let Taken { messages, stands } = self;
        if any_tells(&messages) {
            if let Err(failed) = syncs.sync(rt) {
                drop(messages);
                return Err(failed);
            }
        }
        Ok(Sure { messages, stands })
    }
}

impl Sure {
    /// The messages.
    pub fn messages(&self) -> &[Message]
        ensures { result.now ≡ self.now.messages.items }
    {
        self.messages.as_slice()
    }

    /// Whether more may follow.
    pub fn stands(&self) -> bool
        ensures { result ≡ self.now.stands }
    {
        self.stands
    }
}
