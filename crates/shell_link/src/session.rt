//! A client on its connection. `specs/Asking.antt` says what a command comes to.

ghost use Rattle.std.specs.Prelude.{◌≡◌, ◌≤◌, Bool, true, false, None, IfOk, length};
ghost use Rattle.limits.specs.declared.TheConstants.{FILE_MOST};
ghost use Rattle.cache_file.specs.Items.{items, spelled};
ghost use Rattle.cache_file.specs.Saved.{saved};
ghost use Rattle.client_state.specs.State.{State, start_with};
ghost use Rattle.client_state.specs.Ending.{cut, joined};
ghost use Rattle.wire.specs.declared.message.TheConstants.{LBFS_SPOKEN};
ghost use Rattle.command_text.specs.declared.command.Command.{Command};
ghost use Rattle.shell_link.specs.Asking.{answer_of, makes, told_of, kept, Sends, Runs, Once, Tries, AsksOn, AsksFirst, Asks, AsksHinted, unlinked};
ghost use Rattle.shell_link.specs.Asking.{fetched_of, is_local, MayLearn, MayOffer, MayWarm, rereads, NotesNothing, Leaves};
ghost use Rattle.shell_link.specs.Hearing.{nothing_heard};
ghost use Rattle.shell_link.specs.declared.session.TheConstants.{DRIFT};

use crate::hearing::{Heard, heed, nothing_heard};
use crate::outcomes::{
    again_of, answer_of, fresh_if, is_local, is_lost, makes, rereads, said_of, stops, wants_look,
};
use client_state::step::{ClientStep, Ended, Outcome};
use command_text::command::Command;
use command_text::path::PathCommand;
use lb_base::items::{Bytes, Items};
use lbfs_client::farewell::farewell;
use limits::FILE_MOST;
use links::clock::Clock;
use links::link::Link;
use open_close::client::Client;
use record_ends::end::End;
use record_ends::inbox::Inbox;
use record_ends::outgoing::put_out;
use send_list::{SendList, append};
use shared_bytes::SharedBytes;
use shell_walks::dials::Dials;
use shell_walks::remote::{Answer, Remote, Why};
use std::alloc::{AllocError, Global};
use std::mem;
use wire::fault::WireFault;
use wire::message::{LBFS_SPOKEN, Message};
use wire::parse::message_of;

/// The drift of a shell's client, in milliseconds. Behind each command it gives up its leases, since nobody would
/// answer a RECALL then; so it is to note none, and no term is above this one.
const DRIFT: u64 = 4_294_967_295;

/// Where the bytes of a connection come and go.
#[derive(Drop)]
struct Line<L> {
    link: L,
    inbox: Inbox,
}

/// A client, its connection, and what gives it another.
#[derive(Drop)]
pub struct Session<'e, D: Dials, C> {
    client: Client,
    line: Option<Line<D::L>>,
    /// Whether a connection was joined on which nothing came yet.
    is_fresh: bool,
    /// The file that was closed last, whose places the client's index gets before the next command.
    stored: Option<u64>,
    /// Whether a command was asked for since the last farewell.
    is_used: bool,
    dialler: &'e D,
    clock: &'e C,
}

/// Gives messages to the line, where there are any. It answers whether they went out.
fn give<L: Link>(alloc: Global, line: &mut Option<Line<L>>, messages: SendList<Message>) -> bool {
    let mut list = Items::new(alloc);
    if append(alloc, &mut list, messages).is_err() {
        return false;
    }
    if list.is_empty() {
        return true;
    }
    match line {
        Some(line) => put_out(alloc, &mut line.link, list.as_slice()).is_ok(),
        None => false,
    }
}

/// The client is told that its connection is lost.
fn lose(alloc: Global, client: &mut Client, ended: Option<Ended>) -> Option<Ended>
    ensures { (client.new ≡ (cut client.old).0) × (result ≡ kept ended (cut client.old).1.ended) }
{
    let (messages, later) = client.cut(alloc).into_parts();
    drop(messages);
    match ended {
        Some(ended) => {
            drop(later);
            Some(ended)
        }
        None => later,
    }
}

/// What a step says goes out, or the connection is lost.
fn send<L: Link>(
    alloc: Global,
    client: &mut Client,
    line: &mut Option<Line<L>>,
    step: ClientStep,
) -> Option<Ended>
    ensures { Sends client.old step.ended client.new result }
{
    let (messages, ended) = step.into_parts();
    if give(alloc, line, messages) {
        ended
    } else {
        lose(alloc, client, ended)
    }
}

/// The next record of the line as a message, or as none; nothing where no more come.
fn next_message<L: Link>(
    alloc: Global,
    client: &Client,
    line: &mut Option<Line<L>>,
) -> Option<Result<Message, WireFault>> {
    let Some(line) = line else {
        return None;
    };
    match line.inbox.next(alloc, &mut line.link) {
        Ok(record) => message_of(alloc, record.as_slice(), client.waiting()).ok(),
        Err(End::Spoilt) => Some(Err(WireFault::NotRpc { at: 0 })),
        Err(_) => None,
    }
}

/// The client takes a command, and what it says goes out.
fn begin<L: Link>(
    alloc: Global,
    client: &mut Client,
    line: &mut Option<Line<L>>,
    command: Command,
    now: u64,
) -> Option<Ended>
    ensures { Runs client.old command nothing_heard client.new result }
{
    let step = client.command(alloc, command, now);
    send(alloc, client, line, step)
}

/// What a message tells is heard, the client hears it, and what it says goes out.
fn hear<L: Link>(
    alloc: Global,
    client: &mut Client,
    line: &mut Option<Line<L>>,
    heard: &mut Heard,
    message: Result<Message, WireFault>,
    now: u64,
) -> Option<Ended>
    ensures { (o : State) (k : Command) → Runs o k heard.old client.old None → Runs o k heard.new client.new result }
{
    heed(heard, &message);
    let step = client.got(alloc, message, now);
    send(alloc, client, line, step)
}

/// The client hears the next message, or that its connection is lost.
fn go_on<L: Link>(
    alloc: Global,
    client: &mut Client,
    line: &mut Option<Line<L>>,
    heard: &mut Heard,
    now: u64,
) -> Option<Ended>
    ensures { (o : State) (k : Command) → Runs o k heard.old client.old None → Runs o k heard.new client.new result }
{
    match next_message(alloc, client, line) {
        Some(message) => hear(alloc, client, line, heard, message, now),
        None => lose(alloc, client, None),
    }
}

/// How a command ended, as a shell is told it.
fn tell(alloc: Global, makes: bool, heard: Heard, mut ended: Ended) -> Answer
    ensures { result ≡ answer_of makes heard ended.outcome }
{
    let outcome = mem::replace(&mut ended.outcome, Outcome::Done);
    answer_of(alloc, makes, heard, outcome)
}

/// What is told where a command has ended, or where more was heard than can be counted.
fn told(alloc: Global, makes: bool, heard: Heard, ended: Option<Ended>) -> Answer
    ensures { result ≡ told_of makes heard ended }
{
    match ended {
        Some(ended) => tell(alloc, makes, heard, ended),
        None => Answer::Failed(Why::Memory),
    }
}

/// The client takes a command, and hears what comes until it has ended.
fn run<L: Link, C: Clock>(
    alloc: Global,
    client: &mut Client,
    line: &mut Option<Line<L>>,
    command: Command,
    clock: &C,
) -> (Heard, Option<Ended>)
    ensures { Runs client.old command result.0 client.new result.1 }
{
    let mut heard = nothing_heard(alloc);
    let mut ended = begin(alloc, client, line, command, clock.now());
    for _turn in 0..u64::MAX {
        if ended.is_some() {
            return (heard, ended);
        }
        ended = go_on(alloc, client, line, &mut heard, clock.now());
    }
    (heard, ended)
}

/// A line is shut, where there is one.
fn shut<L: Link + Drop>(line: &mut Option<Line<L>>) {
    if let Some(line) = line {
        line.link.shut();
    }
    *line = None;
}

/// The line of a client that has no connection any more is shut.
fn shut_unlinked<L: Link + Drop>(client: &Client, line: &mut Option<Line<L>>) {
    if !client.linked() {
        shut(line);
    }
}

/// A client whose line is shut hears that it has no connection any more.
fn unlink(alloc: Global, client: &mut Client)
    ensures { client.new ≡ unlinked client.old }
{
    if client.linked() {
        drop(lose(alloc, client, None));
    }
}

/// A new line to the server.
fn dial<D: Dials>(alloc: Global, dialler: &D) -> Option<Line<D::L>>
where
    D::L: Drop,
{
    let inbox = Inbox::new(alloc).ok()?;
    let link = dialler.dial().ok()?;
    Some(Line { link, inbox })
}

/// The client's index gets the places of what it keeps of a file.
fn learn(alloc: Global, client: &mut Client, stored: Option<u64>)
    ensures { MayLearn client.old client.new }
{
    if let Some(file) = stored {
        let _learned = client.learn(alloc, file);
    }
}

/// The server is told that all leases of this connection are given up. Where that doesn't go out the connection is
/// lost, and the next command joins another.
fn say_farewell<L: Link>(alloc: Global, client: &mut Client, line: &mut Option<Line<L>>)
    ensures { Leaves client.old client.new }
{
    if !give(alloc, line, SendList::one(alloc, farewell())) {
        drop(lose(alloc, client, None));
    }
}

/// Bytes of the host's are offered to the client.
fn offer(alloc: Global, client: &mut Client, bytes: Bytes)
    requires { length bytes ≤ FILE_MOST }
    ensures { MayOffer client.old bytes client.new }
{
    if let Ok(content) = SharedBytes::new(alloc, bytes) {
        let _offered = client.offer(alloc, content);
    }
}

/// The items of a cache file are the client's, where there is memory for them.
fn warm(alloc: Global, client: &mut Client, bytes: &[u8]) -> bool
    ensures { MayWarm client.old bytes.now result client.new }
{
    let Ok(items) = cache_file::load(alloc, bytes) else {
        return false;
    };
    match client.warm(alloc, &items) {
        Ok(_left_out) => true,
        Err(_want) => false,
    }
}

/// The file that a command closes.
fn closed_by(command: &Command) -> Option<u64> {
    match command {
        Command::Close(file) => Some(*file),
        _ => None,
    }
}

impl<'e, D: Dials, C: Clock> Session<'e, D, C>
where
    D::L: Drop,
{
    /// A client that isn't connected yet, and notes no lease. The one error is running out of
    /// memory.
    #[tactic(auto, using(crate::proofs::Noting::notes_nothing))]
    pub fn new(alloc: Global, dialler: &'e D, clock: &'e C) -> Result<Session<'e, D, C>, AllocError>
        ensures start { IfOk result (λ s. s.client ≡ start_with DRIFT LBFS_SPOKEN) }
        ensures none { IfOk result (λ s. s.is_fresh ≡ false) }
        ensures notes { NotesNothing DRIFT }
    {
        Ok(Session {
            client: Client::new(alloc, DRIFT, LBFS_SPOKEN)?,
            line: None,
            is_fresh: false,
            stored: None,
            is_used: false,
            dialler,
            clock,
        })
    }

    /// Joins a connection, in place of the one that there was. It answers whether there is one now.
    pub fn join(&mut self, alloc: Global) -> bool
        ensures joined { result ≡ true → self.new.client ≡ joined self.old.client }
        ensures unlinked { result ≡ false → self.new.client ≡ unlinked self.old.client }
        ensures fresh { result ≡ true → self.new.is_fresh ≡ true }
        ensures kept { result ≡ false → self.new.is_fresh ≡ self.old.is_fresh }
    {
        shut(&mut self.line);
        match dial(alloc, self.dialler) {
            Some(line) => {
                self.line = Some(line);
                self.client.joined(alloc);
                self.is_fresh = true;
                true
            }
            None => {
                unlink(alloc, &mut self.client);
                false
            }
        }
    }

    /// Runs a command on the connection that there is.
    fn once(&mut self, alloc: Global, command: Command) -> Answer
        ensures { Once self.old.is_fresh self.old.client command result self.new.client self.new.is_fresh }
    {
        let makes = makes(&command);
        let (heard, ended) = run(alloc, &mut self.client, &mut self.line, command, self.clock);
        self.is_fresh = fresh_if(heard.came, self.is_fresh);
        shut_unlinked(&self.client, &mut self.line);
        told(alloc, makes, heard, ended)
    }

    /// Runs a command on a connection that is tried first. A relay takes connections whether or not a server is
    /// behind it, and a change that was asked for and lost may be done, or not, and nobody could tell.
    fn tried(&mut self, alloc: Global, command: Command) -> Answer
        ensures { Tries self.old.is_fresh self.old.client command result self.new.client self.new.is_fresh }
    {
        let looked = self.once(alloc, Command::Named(PathCommand::LookRoot));
        match stops(&looked) {
            Some(why) => Answer::Failed(why),
            None => self.once(alloc, command),
        }
    }

    /// Runs a command on a connection that is to be tried first, or isn't.
    fn on(&mut self, alloc: Global, tries: bool, command: Command) -> Answer
        ensures { AsksOn tries self.old.is_fresh self.old.client command result self.new.client self.new.is_fresh }
    {
        if tries {
            self.tried(alloc, command)
        } else {
            self.once(alloc, command)
        }
    }

    /// Runs a command for which a server is asked, on a new connection where there is none.
    #[tactic(auto, using(crate::proofs::Again::at_asked, crate::proofs::Again::at_joined, crate::proofs::Again::at_unjoined))]
    fn asked(&mut self, alloc: Global, command: Command) -> Answer
        requires { is_local command ≡ false }
        ensures { AsksFirst self.old.is_fresh self.old.client command result self.new.client self.new.is_fresh }
    {
        if self.client.linked() {
            let tries = wants_look(self.is_fresh, &command);
            return self.on(alloc, tries, command);
        }
        if self.join(alloc) {
            let tries = wants_look(true, &command);
            self.on(alloc, tries, command)
        } else {
            self.once(alloc, command)
        }
    }

    /// Runs a command: one on an open file as it is, and any other where a server is.
    #[tactic(auto, using(crate::proofs::Again::at_local))]
    fn first(&mut self, alloc: Global, command: Command) -> Answer
        ensures { AsksFirst self.old.is_fresh self.old.client command result self.new.client self.new.is_fresh }
    {
        if is_local(&command) {
            self.once(alloc, command)
        } else {
            self.asked(alloc, command)
        }
    }

    /// A command that may be asked again is, where its answer was that the connection is lost, a new one is
    /// joined, and a server is behind that.
    #[tactic(auto, using(crate::proofs::Again::only_first, crate::proofs::Again::stayed))]
    fn repeat(&mut self, alloc: Global, command: Command, answer: Answer) -> Answer
        ensures { (o : State) (was : Bool) → rereads command ≡ true → AsksFirst was o command answer self.old.client self.old.is_fresh
            → Asks was o command result self.new.client self.new.is_fresh }
    {
        if self.client.linked() || !is_lost(&answer) {
            return answer;
        }
        if self.join(alloc) {
            drop(answer);
            self.tried(alloc, command)
        } else {
            answer
        }
    }

    /// Runs a command, and once more where it may be asked again.
    fn heard(&mut self, alloc: Global, command: Command) -> Answer
        ensures { Asks self.old.is_fresh self.old.client command result self.new.client self.new.is_fresh }
    {
        let again = again_of(alloc, &command);
        let answer = self.first(alloc, command);
        match again {
            Some(command) => self.repeat(alloc, command, answer),
            None => answer,
        }
    }
}

impl<'e, D: Dials, C: Clock> Remote for Session<'e, D, C>
where
    D::L: Drop,
{
    ghost asks = { λ s c a t. AsksHinted s.is_fresh s.client c a t.client t.is_fresh };

    ghost offers = { λ s bytes t. MayOffer s.client bytes t.client × (t.is_fresh ≡ s.is_fresh) };

    ghost warms = { λ s bytes done t. MayWarm s.client bytes done t.client × (t.is_fresh ≡ s.is_fresh) };

    ghost saves = { λ s old bytes. bytes ≡ spelled (saved s.client.cache (items old)) };

    ghost farewells = { λ s t. Leaves s.client t.client × (t.is_fresh ≡ s.is_fresh) };

    ghost content = { λ s file. fetched_of s.client.opened file };

    fn ask(&mut self, alloc: Global, command: Command) -> Answer {
        self.is_used = true;
        self.client.keep_within(FILE_MOST);
        learn(alloc, &mut self.client, self.stored);
        self.stored = closed_by(&command);
        let changes_nothing = rereads(&command);
        let answer = self.heard(alloc, command);
        said_of(changes_nothing, answer)
    }

    fn content(&self, file: u64) -> &[u8] {
        match self.client.local(file) {
            Some(bytes) => bytes,
            None => &[],
        }
    }

    fn version(&self, file: u64) -> u64 {
        match self.client.version(file) {
            Some(version) => version,
            None => 0,
        }
    }

    fn offer(&mut self, alloc: Global, bytes: Bytes) {
        offer(alloc, &mut self.client, bytes);
    }

    fn warm(&mut self, alloc: Global, bytes: &[u8]) -> bool {
        warm(alloc, &mut self.client, bytes)
    }

    fn kept(&self, alloc: Global, old: &[u8]) -> Result<Bytes, AllocError> {
        cache_file::save(alloc, self.client.cache(), old)
    }

    fn farewell(&mut self, alloc: Global) {
        if self.is_used && self.client.linked() {
            say_farewell(alloc, &mut self.client, &mut self.line);
        }
        self.is_used = false;
        shut_unlinked(&self.client, &mut self.line);
    }
}
