//! The temporary files of all sessions. `specs/Temps.antt` says what each call makes of them, and why
//! it is refused.

ghost use Rattle.std.specs.Prelude.{◌≡◌, ◌≤◌, [], IfOk, IfSome, OnOk, OnErr, IsErrOf, is_some, length, None, Some, true};
ghost use Rattle.std.specs.BTreeMap.Range.{entries_between};
ghost use Rattle.std.specs.declared.ops.Bound.TheVariants.{Included};
ghost use Rattle.std.specs.List.{All};
ghost use Rattle.std.specs.Ordering.{nat_cmp};
ghost use Rattle.std.specs.Option.{option_copied, option_map};
ghost use Rattle.temp_files.specs.declared.fault.TempError.TheVariants as refusal;
ghost use Rattle.temp_files.specs.Covered.{ComesTo};
ghost use Rattle.temp_files.specs.Pieces.{StandApart};
ghost use Rattle.temp_files.specs.Temps.{key_of, temp_at, with_temp, without_temp, without_session, temps_of, temps_most, empty_temp, room_fault, piece_fault, with_more, size_fault, whole_of};
ghost use Rattle.temp_files.specs.Temps.{pieces_of, IsTempKeyed, Tells};

use crate::fault::TempError;
use crate::pieces::SIZE_MOST;
use crate::room::{Room, Usage, cost_of};
use crate::temp::Temp;
use lb_base::items::Bytes;
use server_rules::sessions::stays;
use shared_bytes::SharedBytes;
use std::alloc::{AllocError, Global};
use std::collections::BTreeMap;
use std::marker::Model;

/// The most temporary files of a session.
const TEMPS_MOST: usize = limits::TEMPS_MOST;

/// Temporary files by their keys.
type Keyed = BTreeMap<u64, Temp>;

/// A temporary file's key: its session, and its number behind it.
fn key_of(session: u32, fd: u32) -> u64
    ensures { result ≡ key_of session fd }
{
    u64::from(session) * 4_294_967_296 + u64::from(fd)
}

/// The temporary file that a session has under a number.
fn find(temps: &Keyed, session: u32, fd: u32) -> Option<&Temp>
    ensures { option_copied result ≡ temp_at temps.now.entries session fd }
{
    temps.get(&key_of(session, fd))
}

/// How many temporary files have keys from the first up to the last.
fn count_between(temps: &Keyed, first: u64, last: u64) -> usize
    requires { first ≤ last }
    ensures { result ≡ length (entries_between nat_cmp (Included first) (Included last) temps.now.entries) }
{
    temps.range(first..=last).count()
}

/// How many temporary files a session has: their keys stand one behind the other.
#[tactic(auto, using(crate::proofs::Counts::counted))]
fn count_of(temps: &Keyed, session: u32) -> usize
    requires { All IsTempKeyed temps.now.entries }
    ensures { result ≡ temps_of temps.now.entries session }
{
    count_between(temps, key_of(session, 0), key_of(session, u32::MAX))
}

/// Why the session can't have a further temporary file under this number. It takes no memory.
fn room_fault(temps: &Keyed, session: u32, fd: u32) -> Result<(), TempError>
    requires { All IsTempKeyed temps.now.entries }
    ensures { Tells result (room_fault temps.now.entries session fd) }
{
    if temps.contains_key(&key_of(session, fd)) {
        return Err(TempError::FdInUse);
    }
    if count_of(temps, session) >= TEMPS_MOST {
        return Err(TempError::TooManyTemps);
    }
    Ok(())
}

/// Why a piece of so many bytes can't be put at this place of a temporary file. It takes no memory.
fn piece_fault(
    temps: &Keyed,
    session: u32,
    fd: u32,
    offset: u64,
    count: u64,
) -> Result<(), TempError>
    ensures told { Tells result (piece_fault (temp_at temps.now.entries session fd) offset count) }
    ensures sure { ¬ IsErrOf result refusal.Memory }
{
    match find(temps, session, fd) {
        Some(temp) => temp.check(offset, count),
        None => Err(TempError::BadFd),
    }
}

/// Puts a piece into a temporary file where it may be. The one error is running out of memory, and all then
/// stays as it was.
fn put(
    temps: &mut Keyed,
    session: u32,
    fd: u32,
    offset: u64,
    bytes: Bytes,
) -> Result<(), AllocError>
    requires fits { piece_fault (temp_at temps.old.entries session fd) offset (length bytes) ≡ None }
    requires keyed { All IsTempKeyed temps.old.entries }
    ensures ok { OnOk result (temps.new.entries ≡ with_more temps.old.entries (temp_at temps.old.entries session fd) offset bytes) }
    ensures err { OnErr result (temps.new.entries ≡ temps.old.entries) }
    ensures keyed { All IsTempKeyed temps.new.entries }
{
    match temps.get_mut(&key_of(session, fd)) {
        Some(temp) => temp.put(offset, bytes),
        None => Ok(()),
    }
}

/// Whether the pieces of a temporary file cover 0 to the size once each and nothing beyond.
fn covers(temps: &Keyed, session: u32, fd: u32, size: u64) -> Result<bool, TempError>
    ensures told { Tells result (size_fault (temp_at temps.now.entries session fd) size) }
    ensures sure { ¬ IsErrOf result refusal.Memory }
    ensures exact { IfOk result (λ b. b ≡ is_some (whole_of (temp_at temps.now.entries session fd) size)) }
    ensures apart { StandApart 0 (pieces_of (temp_at temps.now.entries session fd)) }
{
    match find(temps, session, fd) {
        None => Err(TempError::BadFd),
        Some(temp) => {
            let covers = temp.covers(size);
            if size > SIZE_MOST {
                return Err(TempError::FBig);
            }
            Ok(covers)
        }
    }
}

/// An owner of the content of a temporary file whose pieces cover 0 to the size. The one error is
/// running out of memory; all stays as it was.
fn share_of(
    alloc: Global,
    temps: &mut Keyed,
    session: u32,
    fd: u32,
    size: u64,
) -> Result<SharedBytes, AllocError>
    requires { is_some (whole_of (temp_at temps.old.entries session fd) size) ≡ true }
    ensures exact { IfOk result (λ bytes. Some bytes ≡ whole_of (temp_at temps.old.entries session fd) size) }
    ensures same { temps.new.entries ≡ temps.old.entries }
{
    match temps.get_mut(&key_of(session, fd)) {
        Some(temp) => temp.share(alloc, size as usize),
        None => unreachable!(),
    }
}

/// Takes out a temporary file whose pieces cover 0 to the size, and gives two owners of its content.
/// The one error is running out of memory, and all then stays as it was.
fn take_whole(
    alloc: Global,
    temps: &mut Keyed,
    session: u32,
    fd: u32,
    size: u64,
) -> Result<(SharedBytes, SharedBytes), AllocError>
    requires { is_some (whole_of (temp_at temps.old.entries session fd) size) ≡ true }
    ensures exact { IfOk result (λ p. Some p.0 ≡ whole_of (temp_at temps.old.entries session fd) size) }
    ensures again { IfOk result (λ p. p.1 ≡ p.0) }
    ensures ended { OnOk result (temps.new.entries ≡ without_temp temps.old.entries session fd) }
    ensures err { OnErr result (temps.new.entries ≡ temps.old.entries) }
{
    let first = share_of(alloc, temps, session, fd, size)?;
    let second = first.share()?;
    temps.remove(&key_of(session, fd));
    Ok((first, second))
}

/// An owner of the whole content of a temporary file, where it has one. It stays.
fn share(
    alloc: Global,
    temps: &mut Keyed,
    session: u32,
    fd: u32,
    size: u64,
) -> Result<Option<SharedBytes>, TempError>
    ensures exact { IfOk result (λ whole. IfSome whole (λ bytes. Some bytes ≡ whole_of (temp_at temps.old.entries session fd) size)) }
    ensures same { temps.new.entries ≡ temps.old.entries }
{
    let covers = covers(temps, session, fd, size)?;
    if !covers {
        return Ok(None);
    }
    let whole = share_of(alloc, temps, session, fd, size)?;
    Ok(Some(whole))
}

/// Takes out a temporary file, and gives two owners of its whole content where there is one.
fn take(
    alloc: Global,
    temps: &mut Keyed,
    session: u32,
    fd: u32,
    size: u64,
) -> Result<Option<(SharedBytes, SharedBytes)>, TempError>
    requires { All IsTempKeyed temps.old.entries }
    ensures told { Tells result (size_fault (temp_at temps.old.entries session fd) size) }
    ensures exact { IfOk result (λ whole. option_map (λ p. p.0) whole ≡ whole_of (temp_at temps.old.entries session fd) size) }
    ensures again { IfOk result (λ whole. option_map (λ p. p.1) whole ≡ option_map (λ p. p.0) whole) }
    ensures covered { IfOk result (λ whole. ComesTo (pieces_of (temp_at temps.old.entries session fd)) size (option_map (λ p. p.0) whole)) }
    ensures ended { OnOk result (temps.new.entries ≡ without_temp temps.old.entries session fd) }
    ensures err { OnErr result (temps.new.entries ≡ temps.old.entries) }
    ensures keyed { All IsTempKeyed temps.new.entries }
{
    let covers = covers(temps, session, fd, size)?;
    if !covers {
        temps.remove(&key_of(session, fd));
        return Ok(None);
    }
    let whole = take_whole(alloc, temps, session, fd, size)?;
    Ok(Some(whole))
}

/// What all temporary files cost in memory, and which part of that is a session's, where each session has
/// such a share. Those of one session stand behind each other.
fn held_by(temps: &Keyed, session: u32, share: u64) -> Usage {
    let (mut all, mut above, mut own) = (0u64, 0u64, 0u64);
    let (mut one, mut its) = (session, 0u64);
    for (_key, temp) in temps.iter() {
        if temp.session() != one {
            above = above.saturating_add(its.saturating_sub(share));
            one = temp.session();
            its = 0;
        }
        let cost = temp.cost();
        all = all.saturating_add(cost);
        if one == session {
            own = own.saturating_add(cost);
        } else {
            its = its.saturating_add(cost);
        }
    }
    above = above.saturating_add(its.saturating_sub(share));
    Usage { all, above, own }
}

/// Takes room for a piece of so many bytes. The one error is that there is none.
fn take_room(room: &mut Room, temps: &Keyed, session: u32, count: usize) -> Result<(), AllocError> {
    let more = cost_of(1, count as u64);
    if room.take_plenty(more) {
        return Ok(());
    }
    let held = held_by(temps, session, room.share());
    room.take(held, more)
}

/// The temporary files of all sessions. A session's own are told apart by numbers that its client
/// picks; it has at most sixteen, each of at most 67,108,864 bytes.
///
/// Contracts see them in a list by rising keys, each a session and a number behind it.
pub struct Temps {
    alloc: Global,
    files: Keyed,
    room: Room,
}

impl Drop for Temps {
    fn drop(self) {
        let Temps {
            alloc: _,
            files,
            room: _,
        } = self;
        drop(files);
    }
}

impl Model for Temps {
    ghost use Rattle.std.specs.Prelude.{ℕ, List};
    ghost use Rattle.std.specs.List.{All};
    ghost use Rattle.temp_files.specs.Temps.{Temp as Known, IsTempKeyed};

    ghost Value = { List (ℕ × Known) };

    ghost view = { λ t. t.files.entries };

    ghost invariant = { λ t. All IsTempKeyed t.files.entries };
}

impl Temps {
    /// No temporary files. It takes no memory.
    pub fn new(alloc: Global) -> Temps
        ensures { result ≡ [] }
    {
        Temps {
            alloc,
            files: BTreeMap::new(alloc),
            room: Room::unbounded(),
        }
    }

    /// Lets all temporary files together hold so much memory at most from now on: a piece for which
    /// there is no room is refused by `Memory`. Half of it is shared out among 64 sessions, each of which
    /// may always hold its share. Nothing changes.
    pub fn bound(&mut self, most: u64)
        ensures { self.new ≡ self.old }
    {
        self.room.bound(most);
    }

    /// The temporary file that a session has under a number. It takes no memory.
    pub fn find(&self, session: u32, fd: u32) -> Option<&Temp>
        ensures { option_copied result ≡ temp_at self.now session fd }
    {
        find(&self.files, session, fd)
    }

    /// Makes a temporary file with nothing in it, for the file with the id `target`: `FdInUse` where
    /// the session has one under the number, `TooManyTemps` where it has sixteen, `Memory` where that
    /// runs out. All stays as it was where the call is refused.
    pub fn make(&mut self, session: u32, fd: u32, target: u64) -> Result<(), TempError>
        ensures told { Tells result (room_fault self.old session fd) }
        ensures ok { OnOk result (self.new ≡ with_temp self.old (empty_temp session fd target)) }
        ensures err { OnErr result (self.new ≡ self.old) }
    {
        room_fault(&self.files, session, fd)?;
        let temp = Temp::new(self.alloc, session, fd, target);
        self.files.insert(key_of(session, fd), temp)?;
        Ok(())
    }

    /// The refusal that putting so many bytes at a place would meet, running out of memory left
    /// aside. It takes no memory.
    pub fn check(&self, session: u32, fd: u32, offset: u64, count: u64) -> Result<(), TempError>
        ensures told { Tells result (piece_fault (temp_at self.now session fd) offset count) }
        ensures sure { ¬ IsErrOf result refusal.Memory }
    {
        piece_fault(&self.files, session, fd, offset, count)
    }

    /// Puts a piece at a place of a temporary file: `BadFd` where there is no such file, `Inval`
    /// where the piece is empty or ends beyond 2 ^ 64 - 1, `FBig` where it ends beyond 67,108,864
    /// bytes, `Inval` where it meets another piece, `Memory` where that runs out, or all temporary files
    /// hold as much as they may. All stays as it was where the call is refused.
    pub fn put(&mut self, session: u32, fd: u32, offset: u64, bytes: Bytes) -> Result<(), TempError>
        ensures told { Tells result (piece_fault (temp_at self.old session fd) offset (length bytes)) }
        ensures ok { OnOk result (self.new ≡ with_more self.old (temp_at self.old session fd) offset bytes) }
        ensures err { OnErr result (self.new ≡ self.old) }
    {
        piece_fault(&self.files, session, fd, offset, bytes.len() as u64)?;
        take_room(&mut self.room, &self.files, session, bytes.len())?;
        put(&mut self.files, session, fd, offset, bytes)?;
        Ok(())
    }

    /// Ends a temporary file, and gives two owners of its whole content, where its pieces cover 0 to
    /// the size once each and nothing beyond, and else none: `BadFd` where there is no such file,
    /// `FBig` where the size is beyond 67,108,864 bytes. Memory that the content lacks is taken first
    /// (`Memory` where it runs out), and then each piece dropped as its bytes are moved. All stays as it
    /// was where the call is refused.
    pub fn take(
        &mut self,
        session: u32,
        fd: u32,
        size: u64,
    ) -> Result<Option<(SharedBytes, SharedBytes)>, TempError>
        ensures told { Tells result (size_fault (temp_at self.old session fd) size) }
        ensures exact { IfOk result (λ whole. option_map (λ p. p.0) whole ≡ whole_of (temp_at self.old session fd) size) }
        ensures again { IfOk result (λ whole. option_map (λ p. p.1) whole ≡ option_map (λ p. p.0) whole) }
        ensures covered { IfOk result (λ whole. ComesTo (pieces_of (temp_at self.old session fd)) size (option_map (λ p. p.0) whole)) }
        ensures ended { OnOk result (self.new ≡ without_temp self.old session fd) }
        ensures err { OnErr result (self.new ≡ self.old) }
    {
        take(self.alloc, &mut self.files, session, fd, size)
    }

    /// An owner of the whole content of a temporary file, where its pieces cover 0 to the size once
    /// each and nothing beyond; none where they don't, where there is no such file, or where memory
    /// runs out. The pieces are joined for it, and all stays as it was.
    pub fn share(&mut self, session: u32, fd: u32, size: u64) -> Option<SharedBytes>
        ensures exact { IfSome result (λ bytes. Some bytes ≡ whole_of (temp_at self.old session fd) size) }
        ensures same { self.new ≡ self.old }
    {
        match share(self.alloc, &mut self.files, session, fd, size) {
            Ok(whole) => whole,
            Err(_) => None,
        }
    }

    /// Ends a temporary file, if there is one under the number. It takes no memory.
    pub fn end(&mut self, session: u32, fd: u32)
        ensures { self.new ≡ without_temp self.old session fd }
    {
        self.files.remove(&key_of(session, fd));
    }

    /// Ends all temporary files of a session. It takes no memory.
    pub fn drop_session(&mut self, session: u32)
        ensures { self.new ≡ without_session self.old session }
    {
        self.files.retain(|_, temp| stays(temp.session(), session));
    }
}
