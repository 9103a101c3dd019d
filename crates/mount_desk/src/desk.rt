//! What the threads of a mount share: the client, the link on which its messages go, and the line of
//! what ended last. `specs/Turns.antt` says what a turn makes of the client.

ghost use Rattle.std.specs.Prelude.{◌≡◌, ◌⊎◌, ◌+◌, ◌-◌, ◌^◌, ◌++◌, ◌||◌, [], min, Some, None, is_some, IfOk, OnErr, true, false};
ghost use Rattle.std.specs.Option.{option_or};
ghost use Rattle.lbfs_client.specs.Mounting.{Continues, joined_step};
ghost use Rattle.mount_desk.specs.Outlet.{HearsOut, LeavesOut, LosesOut, SaysOut, SaysOutOf, SendsOut, TurnsOut, outlet, stands, text_of};
ghost use Rattle.mount_desk.specs.Turns.{GoesOut, Hears, Hints, MayLearn, MayOffer, IsTold, Loses, RunsHinted, Sends, SendsOf, Turns, bounded_if, counted, wants_link};

use crate::answer_line::AnswerLine;
use crate::giving::{add, close, close_unless, give_farewell, give_waits, may_wait};
use command_text::command::Command;
use cut_bytes::CutBytes;
use cut_bytes::ahead::Ahead;
use lb_base::items::{Bytes, Items};
use lbfs_client::line::MountLine;
use lbfs_client::mounted::Mounted;
use lbfs_client::said::Said;
use links::files::Files;
use links::link::Link;
use record_ends::end::End;
use shared_bytes::SharedBytes;
use std::alloc::{AllocError, Global};
use wire::message::Message;

/// A mounted client with its connection. Once memory ran out nothing is known of the client any
/// more, and the mount ends.
#[derive(Drop)]
pub struct Desk<F: Files, L> {
    mounted: Mounted<F>,
    /// Where messages go, while a connection is joined.
    link: Option<L>,
    /// The number of the connection that was joined last, from 1.
    connection: u64,
    /// What was said, and is to go out with what is said of the records that came with its cause.
    waits: Items<Message>,
    /// The line of what ended, until it is taken.
    line: Option<AnswerLine>,
    /// Whether memory ran out.
    starved: bool,
    /// The file that was closed last, whose places the client's index gets with the next line.
    stored: Option<u64>,
    /// How many bytes came since the line began.
    listed: u64,
    /// How many bytes the client may keep.
    most: u64,
}

/// What came of a mount's farewell. `Desk::leave` alone makes one, so whoever has one has had it given.
#[derive(Clone, Copy)]
pub struct Left {
    given: Result<(), End>,
}

/// The file that a line closes by itself.
fn closed_by(line: &MountLine) -> Option<u64> {
    match line {
        MountLine::Plain(Command::Close(file)) => Some(*file),
        _ => None,
    }
}

/// The client's index gets the places of the file that was closed last.
#[tactic(auto, using(crate::proofs::Hintings::may_learn, crate::proofs::Hintings::nothing_learned))]
fn learn_stored<F: Files>(alloc: Global, mounted: &mut Mounted<F>, stored: Option<u64>)
    ensures { MayLearn mounted.old mounted.new }
{
    match stored {
        Some(file) => {
            let _done = mounted.learn(alloc, file);
        }
        None => {}
    }
}

/// The client's index is offered the file of the host that a `get` is to replace: a fetch of what the
/// server has then brings only the chunks that aren't there. Where the content is fresh nothing is fetched, and
/// the file isn't read.
#[tactic(auto, using(crate::proofs::Hintings::may_offer, crate::proofs::Hintings::nothing_offered))]
fn offer_local<F: Files>(alloc: Global, mounted: &mut Mounted<F>, line: &MountLine, now: u64)
    ensures { MayOffer mounted.old mounted.new }
{
    match line {
        MountLine::Get { place, local } => {
            if !mounted.has_fresh(place, now) {
                let _done = mounted.offer(alloc, local);
            }
        }
        _ => {}
    }
}

/// Where a line has ended the client keeps no more than so many bytes.
fn keep_within<F: Files>(line: &Option<Bytes>, mounted: &mut Mounted<F>, most: u64)
    ensures { mounted.new ≡ bounded_if (is_some line.now) most mounted.old }
{
    if line.is_some() {
        mounted.keep_within(most);
    }
}

/// The line of what ended is kept until it is taken.
fn keep(held: &mut Option<AnswerLine>, line: Option<Bytes>)
    requires { IsTold line }
    ensures { text_of held.new ≡ option_or line (text_of held.old) }
{
    if let Some(text) = line {
        *held = Some(AnswerLine::of(text));
    }
}

impl<F: Files + Drop, L: Link + Drop> Desk<F, L> {
    /// A client of which no connection is joined, and which is to keep no more than so many bytes.
    pub(crate) fn new(alloc: Global, mounted: Mounted<F>, most: u64) -> Desk<F, L>
        ensures { (result.mounted ≡ mounted) × (result.starved ≡ false) × (result.most ≡ most) × (result.listed ≡ 0) }
    {
        Desk {
            mounted,
            link: None,
            connection: 0,
            waits: Items::new(alloc),
            line: None,
            starved: false,
            stored: None,
            listed: 0,
            most,
        }
    }

    /// The client and the files of the host, whether memory ran out, and how many bytes may be kept.
    pub(crate) fn into_parts(self) -> (Mounted<F>, bool, u64)
        ensures { result ≡ (self.mounted, self.starved, self.most) }
    {
        let Desk {
            mounted,
            link,
            waits,
            line,
            starved,
            most,
            ..
        } = self;
        drop(link);
        drop(waits);
        drop(line);
        (mounted, starved, most)
    }

    /// Whether this is the connection that is joined.
    fn is_open(&self, connection: u64) -> bool
        ensures { result ≡ stands self.now.connection connection self.now.link self.now.starved }
    {
        self.connection == connection && self.link.is_some() && !self.starved
    }

    /// Hints for the client's index before a line: of the file that was closed last, and of the host's
    /// file that a `get` names.
    fn hint(&mut self, alloc: Global, line: &MountLine, now: u64)
        ensures hints { Hints self.old.mounted self.new.mounted }
        ensures rest { (self.new.starved ≡ self.old.starved) × (self.new.connection ≡ self.old.connection) × (self.new.most ≡ self.old.most) × (self.new.listed ≡ self.old.listed) }
        ensures out { outlet self.new.link self.new.waits self.new.line ≡ outlet self.old.link self.old.waits self.old.line }
    {
        learn_stored(alloc, &mut self.mounted, self.stored);
        offer_local(alloc, &mut self.mounted, line, now);
        self.stored = closed_by(line);
    }

    /// What a call of the client says is sent, and its line kept; or memory ran out. Where more records are
    /// there it waits for what is said of these.
    fn pass_on(&mut self, alloc: Global, said: Result<Said, AllocError>, more: bool, now: u64)
        requires { IfOk said (λ s. IsTold s.line) }
        ensures sent { self.new.starved ≡ false → SendsOf self.old.most self.old.mounted said now self.new.mounted }
        ensures out { self.new.starved ≡ false
            → SaysOutOf L.held L.faults self.old.most self.old.mounted said now self.new.mounted
            (outlet self.old.link self.old.waits self.old.line)
            (outlet self.new.link self.new.waits self.new.line) more }
        ensures fed { self.new.starved ≡ false → self.old.starved ≡ false }
        ensures number { (self.new.connection ≡ self.old.connection) × (self.new.most ≡ self.old.most) × (self.new.listed ≡ self.old.listed) }
    {
        match said {
            Ok(said) => self.take_said(alloc, said, more, now),
            Err(_want) => self.starved = true,
        }
    }

    /// The line of what was said is kept. Once it has ended the client drops what is too much; then what
    /// was said is sent.
    fn take_said(&mut self, alloc: Global, said: Said, more: bool, now: u64)
        requires { IsTold said.line }
        ensures sent { self.new.starved ≡ false → Sends self.old.most self.old.mounted said now self.new.mounted }
        ensures out { self.new.starved ≡ false
            → SaysOut L.held L.faults self.old.most self.old.mounted said now self.new.mounted
            (outlet self.old.link self.old.waits self.old.line)
            (outlet self.new.link self.new.waits self.new.line) more }
        ensures fed { self.new.starved ≡ false → self.old.starved ≡ false }
        ensures number { (self.new.connection ≡ self.old.connection) × (self.new.most ≡ self.old.most) × (self.new.listed ≡ self.old.listed) }
    {
        let Said { send, line } = said;
        keep_within(&line, &mut self.mounted, self.most);
        keep(&mut self.line, line);
        self.send_out(alloc, send, more, now);
    }

    /// Messages go out, with those that wait, or the link ends as they don't; where more records are there
    /// they wait.
    fn send_out(&mut self, alloc: Global, send: Items<Message>, more: bool, now: u64)
        ensures sent { self.new.starved ≡ false → GoesOut self.old.most self.old.mounted now self.new.mounted }
        ensures out { self.new.starved ≡ false
            → SendsOut L.held L.faults self.old.most self.old.mounted now self.new.mounted
            (outlet self.old.link self.old.waits self.old.line)
            (outlet self.new.link self.new.waits self.new.line) (self.old.waits ++ send) more }
        ensures fed { self.new.starved ≡ false → self.old.starved ≡ false }
        ensures number { (self.new.connection ≡ self.old.connection) × (self.new.most ≡ self.old.most) × (self.new.listed ≡ self.old.listed) }
    {
        match add(alloc, &mut self.waits, send) {
            Ok(()) => self.send_waits(alloc, more, now),
            Err(_want) => self.starved = true,
        }
    }

    /// What waits goes out, or the link ends as it doesn't; where more records are there it waits on.
    fn send_waits(&mut self, alloc: Global, more: bool, now: u64)
        ensures sent { self.new.starved ≡ false → GoesOut self.old.most self.old.mounted now self.new.mounted }
        ensures out { self.new.starved ≡ false
            → SendsOut L.held L.faults self.old.most self.old.mounted now self.new.mounted
            (outlet self.old.link self.old.waits self.old.line)
            (outlet self.new.link self.new.waits self.new.line) self.old.waits more }
        ensures fed { self.new.starved ≡ false → self.old.starved ≡ false }
        ensures number { (self.new.connection ≡ self.old.connection) × (self.new.most ≡ self.old.most) × (self.new.listed ≡ self.old.listed) }
    {
        if more {
            return;
        }
        match give_waits(alloc, &mut self.link, &mut self.waits) {
            Ok(()) => {}
            Err(end) => self.lose(alloc, end, now),
        }
    }

    /// The link has ended so. Nothing more goes out on it.
    fn lose(&mut self, alloc: Global, end: End, now: u64)
        ensures lost { self.new.starved ≡ false → Loses self.old.most self.old.mounted end now self.new.mounted }
        ensures out { self.new.starved ≡ false → LosesOut self.old.most self.old.mounted end now self.new.mounted (text_of self.old.line) (text_of self.new.line) }
        ensures link { (self.new.link ≡ None) × (self.new.waits ≡ self.old.waits) }
        ensures fed { self.new.starved ≡ false → self.old.starved ≡ false }
        ensures number { (self.new.connection ≡ self.old.connection) × (self.new.most ≡ self.old.most) × (self.new.listed ≡ self.old.listed) }
    {
        close(&mut self.link);
        match self.mounted.ended(alloc, end, now) {
            Ok(said) => {
                let Said { send, line } = said;
                drop(send);
                keep_within(&line, &mut self.mounted, self.most);
                keep(&mut self.line, line);
            }
            Err(_want) => self.starved = true,
        }
    }

    /// Whether there is something for whoever waits for a line.
    pub(crate) fn has_news(&self) -> bool
        ensures { result ≡ (is_some self.now.line || self.now.starved) }
    {
        self.line.is_some() || self.starved
    }

    /// The line of what ended. The error says that memory ran out.
    pub(crate) fn take_line(&mut self) -> Result<AnswerLine, AllocError>
        ensures line { IfOk result (λ line. (self.old.line ≡ Some line) × (self.new.line ≡ None)) }
        ensures none { OnErr result ((self.old.starved ≡ true) ⊎ (self.old.line ≡ None)) }
        ensures rest { (self.new.mounted ≡ self.old.mounted)
            × (self.new.starved ≡ self.old.starved)
            × (self.new.connection ≡ self.old.connection) × (self.new.most ≡ self.old.most)
            × (self.new.listed ≡ self.old.listed) }
    {
        if self.starved {
            return Err(AllocError);
        }
        match self.line.take() {
            Some(line) => Ok(line),
            None => Err(AllocError),
        }
    }

    /// A line of the script begins. It answers whether a connection is to be joined for it.
    pub(crate) fn run(&mut self, alloc: Global, line: MountLine, now: u64) -> bool
        ensures turn { self.new.starved ≡ false → Turns self.old.most (λ m said. RunsHinted self.old.mounted line now m said) now self.new.mounted }
        ensures out { self.new.starved ≡ false
            → TurnsOut L.held L.faults self.old.most
            (λ m said. RunsHinted self.old.mounted line now m said) now self.new.mounted
            (outlet self.old.link self.old.waits self.old.line)
            (outlet self.new.link self.new.waits self.new.line) (λ m. false) }
        ensures wants { result ≡ wants_link line self.old.mounted.client.linked }
        ensures listed { self.new.listed ≡ 0 }
        ensures fed { self.new.starved ≡ false → self.old.starved ≡ false }
        ensures number { (self.new.connection ≡ self.old.connection) × (self.new.most ≡ self.old.most) }
    {
        let wants = matches!(line, MountLine::Join) && !self.mounted.linked();
        self.listed = 0;
        self.hint(alloc, &line, now);
        let said = self.mounted.line(alloc, line, now);
        self.stored = self.mounted.closing().or(self.stored);
        self.pass_on(alloc, said, false, now);
        wants
    }

    /// An owner of the bytes that a put has read of a file of the host, and with which it waits to go on, if one
    /// does.
    pub(crate) fn read_bytes(&self) -> Option<SharedBytes> {
        match self.mounted.read_bytes() {
            Some(bytes) => bytes.shared().share().ok(),
            None => None,
        }
    }

    /// Whether so much came of a file that is being fetched that some should be lent.
    pub(crate) fn may_lend(&self) -> bool {
        self.mounted.may_lend()
    }

    /// What came of a file that is being fetched is lent to be hashed, where it is much. It is given back with the
    /// next call.
    pub(crate) fn lend(&mut self, alloc: Global, back: Option<Ahead>) -> Option<Ahead>
        ensures { self.new ≡ self.old }
    {
        self.mounted.lend(alloc, back)
    }

    /// A put that waits goes on, with what was found of its bytes ahead, if anything was.
    pub(crate) fn go_on(&mut self, alloc: Global, found: Option<CutBytes>, now: u64)
        ensures turn { self.new.starved ≡ false → Turns self.old.most (λ m said. Continues self.old.mounted now m said) now self.new.mounted }
        ensures out { self.new.starved ≡ false
            → TurnsOut L.held L.faults self.old.most
            (λ m said. Continues self.old.mounted now m said) now self.new.mounted
            (outlet self.old.link self.old.waits self.old.line)
            (outlet self.new.link self.new.waits self.new.line) (λ m. false) }
        ensures fed { self.new.starved ≡ false → self.old.starved ≡ false }
        ensures number { (self.new.connection ≡ self.old.connection) × (self.new.most ≡ self.old.most) × (self.new.listed ≡ self.old.listed) }
    {
        let said = self.mounted.go_on(alloc, found, now);
        self.stored = self.mounted.closing().or(self.stored);
        self.pass_on(alloc, said, false, now);
    }

    /// A connection is joined, on this link. Its number is what the thread that takes its records is
    /// known by. What was to go out on the one before doesn't.
    pub(crate) fn join(&mut self, alloc: Global, link: L, now: u64) -> u64
        ensures turn { self.new.starved ≡ false → Turns self.old.most (λ m said. joined_step self.old.mounted ≡ (m, said)) now self.new.mounted }
        ensures out { self.new.starved ≡ false
            → TurnsOut L.held L.faults self.old.most
            (λ m said. joined_step self.old.mounted ≡ (m, said)) now self.new.mounted
            (outlet (Some link) [] self.old.line)
            (outlet self.new.link self.new.waits self.new.line) (λ m. false) }
        ensures listed { self.new.listed ≡ self.old.listed }
        ensures fed { self.new.starved ≡ false → self.old.starved ≡ false }
        ensures number { (result ≡ self.new.connection) × (self.new.connection ≡ min (self.old.connection + 1) (2 ^ 64 - 1)) × (self.new.most ≡ self.old.most) }
    {
        close(&mut self.link);
        self.link = Some(link);
        self.waits = Items::new(alloc);
        self.connection = self.connection.saturating_add(1);
        let said = self.mounted.joined(alloc);
        self.pass_on(alloc, said, false, now);
        self.connection
    }

    /// A record came on a connection, behind which more are there or not. It answers whether more may come
    /// there.
    pub(crate) fn hear(
        &mut self,
        alloc: Global,
        connection: u64,
        bytes: &[u8],
        more: bool,
        now: u64,
    ) -> bool
        ensures other { stands self.old.connection connection self.old.link self.old.starved ≡ false → self.new ≡ self.old }
        ensures turn { ((self.new.mounted ≡ self.old.mounted)
            × (self.new.starved ≡ self.old.starved) × (self.new.listed ≡ self.old.listed)) ⊎
            ((self.new.listed ≡ counted self.old.listed bytes.now)
            × (self.new.starved ≡ false
            → Hears self.old.most self.old.listed self.old.mounted bytes.now now
            self.new.mounted)) }
        ensures count { stands self.old.connection connection self.old.link self.old.starved ≡ true → self.new.listed ≡ counted self.old.listed bytes.now }
        ensures out { stands self.old.connection connection self.old.link self.old.starved
            ≡ true → self.new.starved ≡ false
            → HearsOut L.held L.faults self.old.most self.old.listed self.old.mounted bytes.now
            now self.new.mounted
            (outlet self.old.link self.old.waits self.old.line)
            (outlet self.new.link self.new.waits self.new.line) more }
        ensures goes_on { result ≡ stands self.new.connection connection self.new.link self.new.starved }
        ensures fed { self.new.starved ≡ false → self.old.starved ≡ false }
        ensures number { (self.new.connection ≡ self.old.connection) × (self.new.most ≡ self.old.most) }
    {
        if !self.is_open(connection) {
            return false;
        }
        self.listed = self.listed.saturating_add(bytes.len() as u64);
        let said = self.mounted.got(alloc, self.listed, bytes, now);
        self.stored = self.mounted.closing().or(self.stored);
        // A client that is done with its link says what it had to say, and no more.
        let linked = self.mounted.linked();
        let waits = may_wait(more, linked);
        self.pass_on(alloc, said, waits, now);
        let stays = self.mounted.linked();
        close_unless(stays, &mut self.link);
        self.is_open(connection)
    }

    /// No more records come on a connection.
    pub(crate) fn stop(&mut self, alloc: Global, connection: u64, end: End, now: u64)
        ensures other { stands self.old.connection connection self.old.link self.old.starved ≡ false → self.new ≡ self.old }
        ensures turn { ((self.new.mounted ≡ self.old.mounted)
            × (self.new.starved ≡ self.old.starved) × (self.new.listed ≡ self.old.listed)) ⊎
            ((self.new.listed ≡ self.old.listed)
            × (self.new.starved ≡ false
            → Loses self.old.most self.old.mounted end now self.new.mounted)) }
        ensures out { stands self.old.connection connection self.old.link self.old.starved
            ≡ true → self.new.starved ≡ false
            → LosesOut self.old.most self.old.mounted end now self.new.mounted
            (text_of self.old.line) (text_of self.new.line) }
        ensures link { stands self.old.connection connection self.old.link self.old.starved ≡ true → self.new.link ≡ None }
        ensures fed { self.new.starved ≡ false → self.old.starved ≡ false }
        ensures number { (self.new.connection ≡ self.old.connection) × (self.new.most ≡ self.old.most) }
    {
        if self.is_open(connection) {
            self.lose(alloc, end, now);
        }
    }

    /// The mount ends: what waits goes out and a farewell behind it, where there is a link, which is then shut.
    /// It answers what came of that; the client is told nothing, since it takes no turn behind it.
    pub(crate) fn leave(&mut self, alloc: Global) -> Left
        ensures out { LeavesOut L.held L.faults self.old.link self.old.waits result.given }
        ensures link { self.new.link ≡ None }
        ensures rest { (self.new.mounted ≡ self.old.mounted)
            × (self.new.starved ≡ self.old.starved)
            × (self.new.connection ≡ self.old.connection) × (self.new.most ≡ self.old.most)
            × (self.new.listed ≡ self.old.listed) }
    {
        let given = give_farewell(alloc, &mut self.link, &mut self.waits);
        close(&mut self.link);
        Left { given }
    }
}
