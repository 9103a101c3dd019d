//! What stands under the lock of a mount: its desk, and that the desk's client took no turns but those of
//! `specs/Course.antt`. The lock tells nothing of what it lends, but for what its type says; so this is what
//! is known of the client once no thread shares it any more. Whose desk it is, is asked of it then.

ghost use Rattle.std.specs.Prelude.{◌≡◌, ℕ, ◌==◌, ◌&&◌, not, true, false};
ghost use Rattle.mount_desk.specs.Calls.{DeskGoesOn, DeskHears, DeskJoins, DeskLeaves, DeskRuns, DeskStops, DeskTakes};
ghost use Rattle.mount_desk.specs.Course.{Begun, Course};

use crate::answer_line::AnswerLine;
use crate::desk::{Desk, Left};
use crate::turns::Turns;
use cut_bytes::CutBytes;
use cut_bytes::ahead::Ahead;
use lbfs_client::line::MountLine;
use lbfs_client::mounted::Mounted;
use links::files::Files;
use links::link::Link;
use record_ends::end::End;
use shared_bytes::SharedBytes;
use std::alloc::{AllocError, Global};

/// A desk whose client took its turns, unless memory ran out.
#[derive(Drop)]
pub struct KeptDesk<F: Files, L> {
    desk: Desk<F, L>,
    /// How far the client takes its clock and the server's to drift apart while a lease lasts.
    drift: u64,
    ghost course: { ∥ (desk.starved ≡ false → Course drift desk.most desk.listed desk.mounted) ∥₁ },
}

/// Whether all is known of a client that has this drift and this bound: those that are asked for, and memory
/// didn't run out.
fn is_known(has_drift: u64, drift: u64, has_most: u64, most: u64, starved: bool) -> bool
    ensures { result ≡ (((has_drift == drift) && (has_most == most)) && not starved) }
{
    has_drift == drift && has_most == most && !starved
}

impl<F: Files + Drop, L: Link + Drop> KeptDesk<F, L> {
    /// A client of which no connection is joined, with this drift, and which is to keep no more than so many
    /// bytes.
    pub fn new(alloc: Global, mounted: Mounted<F>, drift: u64, most: u64) -> KeptDesk<F, L>
        requires { Begun drift mounted }
        ensures { (result.drift ≡ drift) × (result.desk.mounted ≡ mounted) × (result.desk.most ≡ most) × (result.desk.starved ≡ false) }
    {
        KeptDesk {
            desk: Desk::new(alloc, mounted, most),
            drift,
        }
    }

    /// The client and the files of the host, and whether all is known of the client: what its turns were, with
    /// this drift and this bound. It isn't where memory ran out.
    pub fn into_parts(self, drift: u64, most: u64) -> (Mounted<F>, bool)
        ensures parts { (result.0 ≡ self.desk.mounted) × (result.1 ≡ (((self.drift == drift) && (self.desk.most == most)) && not self.desk.starved)) }
        ensures course { ∥ ((listed : ℕ) × (result.1 ≡ true → Course drift most listed result.0)) ∥₁ }
    {
        let KeptDesk {
            desk,
            drift: has_drift,
        } = self;
        let (mounted, starved, has_most) = desk.into_parts();
        let known = is_known(has_drift, drift, has_most, most, starved);
        (mounted, known)
    }
}

impl<F: Files + Drop, L: Link + Drop> Turns for KeptDesk<F, L> {
    type L = L;

    type Desk = Desk<F, L>;

    ghost desk_of = { λ d. d.desk };

    ghost takes = { λ old line new. DeskTakes old line new };

    ghost runs = { λ old line now wants new. DeskRuns L.held L.faults old line now wants new };

    ghost continues = { λ old now new. DeskGoesOn L.held L.faults old now new };

    ghost joins = { λ old link now number new. DeskJoins L.held L.faults old link now number new };

    ghost hears = { λ old connection bytes more now goes_on new. DeskHears L.held L.faults old connection bytes more now goes_on new };

    ghost stops = { λ old connection end now new. DeskStops L.held L.faults old connection end now new };

    ghost leaves = { λ old left new. DeskLeaves L.held L.faults old left new };

    fn has_news(&self) -> bool {
        self.desk.has_news()
    }

    fn wakes(&self) -> bool {
        self.desk.has_news() || self.desk.may_lend()
    }

    fn take_line(&mut self) -> Result<AnswerLine, AllocError> {
        self.desk.take_line()
    }

    fn run(&mut self, alloc: Global, line: MountLine, now: u64) -> bool {
        self.desk.run(alloc, line, now)
    }

    fn read_bytes(&self) -> Option<SharedBytes> {
        self.desk.read_bytes()
    }

    fn lend(&mut self, alloc: Global, back: Option<Ahead>) -> Option<Ahead> {
        self.desk.lend(alloc, back)
    }

    fn go_on(&mut self, alloc: Global, found: Option<CutBytes>, now: u64) {
        self.desk.go_on(alloc, found, now);
    }

    fn join(&mut self, alloc: Global, link: L, now: u64) -> u64 {
        self.desk.join(alloc, link, now)
    }

    fn hear(&mut self, alloc: Global, connection: u64, bytes: &[u8], more: bool, now: u64) -> bool {
        self.desk.hear(alloc, connection, bytes, more, now)
    }

    fn stop(&mut self, alloc: Global, connection: u64, end: End, now: u64) {
        self.desk.stop(alloc, connection, end, now);
    }

    fn leave(&mut self, alloc: Global) -> Left {
        self.desk.leave(alloc)
    }
}
