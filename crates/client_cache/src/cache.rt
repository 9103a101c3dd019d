//! The cache. `specs/Cache.antt` says what each call makes of it, and what it lends.

ghost use Rattle.std.specs.Prelude.{◌≡◌, ◌≤◌, ◌==◌, [], length, slice_get, nat_le, IfOk, OnOk, OnErr, IsSome};
ghost use Rattle.std.specs.Option.{option_copied};
ghost use Rattle.lru.specs.LruCache.{lru_cache};
ghost use Rattle.client_cache.specs.Cache.{kept_of, content_of, fresh_of, bytes_at, reserved, with_content, with_note, without_note, without_content, notes, is_fresh, lent, shown, contents_in};
ghost use Rattle.client_cache.specs.Cache.{kept_bytes, files_most};

use crate::kept::{Content, Kept, Note};
use chunk_index::place::Place;
use cut_bytes::CutBytes;
use lru::LruCache;
use shared_bytes::SharedBytes;
use std::alloc::{AllocError, Global};
use std::marker::Model;
use std::num::NonZeroUsize;
use transfer_rules::kept::evict;
use transfer_rules::pieces::range_end;

/// The most files of which something is kept.
const FILES_MOST: usize = 256;

/// What is kept, by files.
type Keyed = LruCache<u64, Kept>;

/// What a client keeps of at most 256 files, the most recent first. Contracts see a list of entries,
/// each a file's id and what is kept of it.
pub struct Cache {
    entries: Keyed,
}

/// By hand, so that the crates above prove nothing of how the parts are dropped.
impl Drop for Cache {
    fn drop(self) {
        let Cache { entries } = self;
        drop(entries);
    }
}

impl Model for Cache {
    ghost use Rattle.std.specs.Prelude.{◌≡◌, ◌≤◌, ℕ, List, length};
    ghost use Rattle.client_cache.specs.declared.kept.Kept.{Kept};
    ghost use Rattle.client_cache.specs.Cache.{files_most};

    ghost Value = { List (ℕ × Kept) };

    ghost view = { λ c. c.entries.entries };

    ghost invariant = { λ c. (length c.entries.entries ≤ files_most) × (c.entries.cap ≡ files_most) };
}

/// Whether a content is fresh by a note: it has the note's version, and the note hasn't ended.
fn is_fresh(content: &Content, note: Note, now: u64) -> bool
    ensures { result ≡ is_fresh content.now note now }
{
    content.version == note.version && u128::from(now) < note.until
}

/// Gives a file an entry, which goes first.
fn give_entry(entries: &mut Keyed, file: u64) -> Result<(), AllocError>
    requires within { length entries.old.entries ≤ files_most }
    requires cap { entries.old.cap ≡ files_most }
    ensures ok { OnOk result (entries.new ≡ lru_cache (reserved entries.old.entries file) files_most) }
    ensures err { OnErr result (entries.new ≡ entries.old) }
{
    if entries.promote(&file) {
        return Ok(());
    }
    let nothing = Kept {
        content: None,
        note: None,
    };
    entries.put(file, nothing)?;
    Ok(())
}

/// Puts a content into a file's entry, which goes first.
fn set_content(entries: &mut Keyed, file: u64, version: u64, bytes: CutBytes)
    requires there { IsSome (kept_of entries.old.entries file) }
    requires within { length entries.old.entries ≤ files_most }
    ensures { entries.new ≡ lru_cache (with_content entries.old.entries file version bytes) entries.old.cap }
{
    if let Some(kept) = entries.get_mut(&file) {
        kept.content = Some(Content { version, bytes });
    }
}

/// Puts a note, or none, into a file's entry, if it has one.
fn set_note(entries: &mut Keyed, file: u64, note: Option<Note>)
    ensures { entries.new ≡ lru_cache (notes entries.old.entries file note (kept_of entries.old.entries file)) entries.old.cap }
{
    if let Some(kept) = entries.peek_mut(&file) {
        kept.note = note;
    }
}

/// Takes the content out of a file's entry, if it has one.
fn drop_content(entries: &mut Keyed, file: u64)
    ensures { entries.new ≡ lru_cache (without_content entries.old.entries file) entries.old.cap }
{
    if let Some(kept) = entries.peek_mut(&file) {
        evict(&mut kept.content);
    }
}

/// The content at a place among those that are kept, with its file.
fn content_at(entries: &Keyed, place: usize) -> Option<(u64, &CutBytes)>
    ensures { shown result ≡ slice_get (contents_in entries.now.entries) place }
{
    let mut left = place;
    for (file, kept) in entries.iter() {
        if let Some(content) = &kept.content {
            if left == 0 {
                return Some((*file, &content.bytes));
            }
            left -= 1;
        }
    }
    None
}

/// Whether the contents that are kept have at most so many bytes.
fn has_at_most(entries: &Keyed, most: u64) -> bool
    ensures { result ≡ nat_le (kept_bytes entries.now.entries) most }
{
    let mut left = most;
    for (_file, kept) in entries.iter() {
        if let Some(content) = &kept.content {
            let len = content.bytes.len() as u64;
            if len > left {
                return false;
            }
            left -= len;
        }
    }
    true
}

impl Cache {
    /// An empty cache. The one error is running out of memory.
    pub fn new(alloc: Global) -> Result<Cache, AllocError>
        ensures { IfOk result (λ cache. cache ≡ []) }
    {
        let entries = LruCache::sparse(alloc, NonZeroUsize::new(FILES_MOST).unwrap())?;
        Ok(Cache { entries })
    }

    /// The content that is kept of a file, with its version. Whoever is to have it for longer takes a
    /// further owner of it. It takes no memory.
    pub fn content(&self, file: u64) -> Option<(u64, &CutBytes)>
        ensures { lent result ≡ content_of self.now file }
    {
        let content = self.entries.peek(&file)?.content.as_ref()?;
        Some((content.version, &content.bytes))
    }

    /// The content that is kept of a file, where its version is its note's and the note hasn't ended
    /// at this reading of the client's clock, in milliseconds. It takes no memory.
    pub fn fresh(&self, file: u64, now: u64) -> Option<&[u8]>
        ensures { option_copied result ≡ fresh_of self.now file now }
    {
        let kept = self.entries.peek(&file)?;
        match (&kept.content, kept.note) {
            (Some(content), Some(note)) if is_fresh(content, note, now) => {
                Some(content.bytes.as_slice())
            }
            _ => None,
        }
    }

    /// The bytes at a place, where the content of its file is kept and has the range. It takes no
    /// memory.
    pub fn bytes_at(&self, place: Place) -> Option<&[u8]>
        ensures { option_copied result ≡ bytes_at self.now place }
    {
        let content = self.entries.peek(&place.file)?.content.as_ref()?;
        let bytes = content.bytes.as_slice();
        let end = range_end(place.offset, place.count, bytes.len() as u64)?;
        Some(&bytes[place.offset as usize..end as usize])
    }

    /// The content that stands at this place among those that are kept, the most recent first, with its
    /// file; none exactly past the last. It takes no memory, and changes no order.
    pub fn at(&self, place: usize) -> Option<(u64, &CutBytes)>
        ensures shown { shown result ≡ slice_get (contents_in self.now) place }
        ensures most { length (contents_in self.now) ≤ files_most }
    {
        content_at(&self.entries, place)
    }

    /// Whether no file has an entry. It takes no memory.
    pub fn is_empty(&self) -> bool
        ensures { result ≡ (length self.now == 0) }
    {
        self.entries.is_empty()
    }

    /// Whether the contents that are kept have at most so many bytes, all together. It takes no memory.
    pub fn has_at_most(&self, most: u64) -> bool
        ensures { result ≡ nat_le (kept_bytes self.now) most }
    {
        has_at_most(&self.entries, most)
    }

    /// Gives a file an entry, with nothing in it where it had none, and a note's place with it. The
    /// entry goes first, and where there are more than 256, the last is dropped with its note. The
    /// one error is running out of memory, and the cache then stays as it was.
    pub fn reserve(&mut self, file: u64) -> Result<(), AllocError>
        ensures ok { OnOk result (self.new ≡ reserved self.old file) }
        ensures there { OnOk result (IsSome (kept_of self.new file)) }
        ensures err { OnErr result (self.new ≡ self.old) }
    {
        give_entry(&mut self.entries, file)
    }

    /// Keeps the content of a file in a version, in place of the one that was kept, and brings its
    /// entry to the front. It takes no memory: the file has an entry.
    pub fn keep(&mut self, file: u64, version: u64, bytes: SharedBytes)
        requires { IsSome (kept_of self.old file) }
        ensures kept { self.new ≡ with_content self.old file version bytes }
        ensures there { IsSome (kept_of self.new file) }
    {
        self.keep_cut(file, version, CutBytes::whole(bytes));
    }

    /// As `keep`, of a content whose chunks may have been found ahead, which stay with it.
    pub fn keep_cut(&mut self, file: u64, version: u64, bytes: CutBytes)
        requires { IsSome (kept_of self.old file) }
        ensures kept { self.new ≡ with_content self.old file version bytes }
        ensures there { IsSome (kept_of self.new file) }
    {
        set_content(&mut self.entries, file, version, bytes);
    }

    /// Notes a lease: the version that it was granted with, and the reading of the client's clock at
    /// which it is taken to have ended, in milliseconds. Nothing is noted where the file has no entry. It
    /// takes no memory.
    pub fn note_lease(&mut self, file: u64, version: u64, until: u128)
        ensures { self.new ≡ with_note self.old file version until }
    {
        set_note(&mut self.entries, file, Some(Note { version, until }));
    }

    /// Clears a file's note, if it has one. It takes no memory.
    pub fn recall(&mut self, file: u64)
        ensures { self.new ≡ without_note self.old file }
    {
        set_note(&mut self.entries, file, None);
    }

    /// Drops the content that is kept of a file, if any is. Its note stays. It takes no memory.
    pub fn evict(&mut self, file: u64)
        ensures { self.new ≡ without_content self.old file }
    {
        drop_content(&mut self.entries, file);
    }
}
