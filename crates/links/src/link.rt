//! Links to a peer: bytes that come in, and bytes that go out. When a fault may be answered states
//! `Causes.antt` of `lb_base`, and what is known of bytes that were given over several calls
//! `Known.antt` there.

ghost use Rattle.std.specs.Prelude.{◌≡◌, ℕ, ◌≤◌, ◌<◌, List, length, Option, IfOk, OnOk, OnErr, IsErrOf};
ghost use Rattle.std.specs.Io.KnownBytes.{ReadConsumes, WriteAppends, Appends};
ghost use Rattle.lb_base.specs.Causes.{Rose};
ghost use Rattle.lb_base.specs.Known.{AppendsPart};
ghost use Rattle.lb_base.specs.declared.sink.GiveError.TheVariants as errors;

use lb_base::sink::GiveError;
use lb_base::source::Failed;

/// A link to a peer.
pub trait Link {
    /// The bytes that are left to come, where it tells.
    ghost left: { Self → Option (List ℕ) };

    /// The bytes that it was given, where it tells.
    ghost held: { Self → Option (List ℕ) };

    /// How many faults there were.
    ghost faults: { Self → ℕ };

    /// Takes the next bytes into the front of `into`, and answers how many. 0 where there is room
    /// is the end of input. After `Failed` no byte is lost.
    fn take(&mut self, into: &mut [u8]) -> Result<usize, Failed>
        ensures within { IfOk result (λ n. n ≤ length into.new) }
        ensures bytes { ReadConsumes (left self.old) (left self.new) result into.new }
        ensures out { held self.new ≡ held self.old }
        ensures later { faults self.old ≤ faults self.new }
        ensures cause { OnErr result (Rose (faults self.old) (faults self.new)) };

    /// Gives the bytes at the front of `from`, and answers how many it took: at least one where
    /// there is one. After an `Err` nothing was taken.
    fn give(&mut self, from: &[u8]) -> Result<usize, GiveError>
        ensures within { IfOk result (λ n. n ≤ length from.now) }
        ensures some { IfOk result (λ n. 0 < length from.now → 0 < n) }
        ensures bytes { WriteAppends (held self.old) (held self.new) result from.now }
        ensures come { left self.new ≡ left self.old }
        ensures later { faults self.old ≤ faults self.new }
        ensures cause { IsErrOf result errors.Failed → Rose (faults self.old) (faults self.new) };

    /// Ends the link both ways, for its twins too. What was given stays so.
    fn shut(&mut self)
        ensures come { left self.new ≡ left self.old }
        ensures out { held self.new ≡ held self.old }
        ensures later { faults self.old ≤ faults self.new };

    /// A second link to the same peer, for a thread that takes while another gives. What is left to
    /// come is then the twin's; after `Failed` it is as before.
    fn twin(&mut self) -> Result<Self, Failed>
        ensures come { IfOk result (λ twin. left twin ≡ left self.old) }
        ensures stays { OnErr result (left self.new ≡ left self.old) }
        ensures out { held self.new ≡ held self.old }
        ensures later { faults self.old ≤ faults self.new }
        ensures cause { OnErr result (Rose (faults self.old) (faults self.new)) };
}

/// Gives the bytes in as many calls as it takes. Of a link that tells what it was given, `Ok` says
/// that all of them were, in order, and `Err` that a front of them was, and not all. `Failed` comes
/// only where the link's count rose.
pub fn send_all<L: Link>(link: &mut L, bytes: &[u8]) -> Result<(), GiveError>
    ensures ok { OnOk result (Appends (L.held link.old) (L.held link.new) bytes.now) }
    ensures err { OnErr result (AppendsPart (L.held link.old) (L.held link.new) bytes.now) }
    ensures come { L.left link.new ≡ L.left link.old }
    ensures later { L.faults link.old ≤ L.faults link.new }
    ensures fault { IsErrOf result errors.Failed → Rose (L.faults link.old) (L.faults link.new) }
{
    let mut given = 0;
    while given < bytes.len() {
        let more = link.give(&bytes[given..])?;
        given += more;
    }
    Ok(())
}
