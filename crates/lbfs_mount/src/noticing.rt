//! A mount's cache file is read and written, and what is to be said of it is: `NoticeEnds` of
//! `specs/Cached.antt`.

ghost use Rattle.std.specs.Prelude.{◌≡◌, ℕ, ◌≤◌, Option, IfSome, is_some, true};
ghost use Rattle.lbfs_client.specs.Caching.{Loads};
ghost use Rattle.lbfs_client.specs.Host.{Host};
ghost use Rattle.lbfs_client.specs.declared.answer.Answer.{Answer};
ghost use Rattle.lbfs_mount.specs.Cached.{NoticeEnds};
ghost use Rattle.lbfs_mount.specs.Saved.{SavesIf};
ghost use Rattle.mount_desk.specs.Course.{Begun, nothing_done};

use crate::mount_error::MountError;
use crate::running::write_answer;
use lb_base::sink::Sink;
use lbfs_client::answer::Answer;
use lbfs_client::mounted::Mounted;
use links::files::Files;
use mount_desk::answer_line::AnswerLine;
use std::alloc::Global;

/// Writes an answer as a line.
fn write_line<K: Sink>(alloc: Global, answer: &Answer, sink: &mut K) -> Result<(), MountError>
    ensures ends { NoticeEnds true (K.held sink.old) (K.held sink.new) (K.faults sink.old) (K.faults sink.new) result }
    ensures later { K.faults sink.old ≤ K.faults sink.new }
{
    match answer.line(alloc) {
        Ok(text) => write_answer(sink, &AnswerLine::of(text)),
        Err(_want) => Err(MountError::Memory),
    }
}

/// Writes what is to be said, if anything is.
fn write_notice<K: Sink>(
    alloc: Global,
    told: &Option<Answer>,
    sink: &mut K,
) -> Result<(), MountError>
    ensures ends { NoticeEnds true (K.held sink.old) (K.held sink.new) (K.faults sink.old) (K.faults sink.new) result }
    ensures later { K.faults sink.old ≤ K.faults sink.new }
{
    match told {
        Some(answer) => write_line(alloc, answer, sink),
        None => Ok(()),
    }
}

/// The cache file is read, where there is one, and what is wrong with it is written. With it comes whether what
/// stands there may be replaced.
pub(crate) fn load<F: Files, K: Sink>(
    alloc: Global,
    mounted: &mut Mounted<F>,
    cache: Option<&str>,
    sink: &mut K,
) -> (Result<(), MountError>, bool)
    ensures begun { (drift : ℕ) → (host : Host) → mounted.old ≡ nothing_done drift host → Begun drift mounted.new }
    ensures loaded { IfSome cache.entry (λ name. (told : Option Answer) × Loads mounted.old name.now told result.1 mounted.new) }
    ensures ends { NoticeEnds (is_some cache.entry) (K.held sink.old) (K.held sink.new) (K.faults sink.old) (K.faults sink.new) result.0 }
    ensures later { K.faults sink.old ≤ K.faults sink.new }
{
    match cache {
        Some(name) => {
            let (told, replaces) = mounted.load(alloc, name);
            (write_notice(alloc, &told, sink), replaces)
        }
        None => (Ok(()), false),
    }
}

/// The cache file is written, with what is kept within so many bytes, where what stands there may be replaced;
/// that it couldn't be is written too.
fn save_named<F: Files, K: Sink>(
    alloc: Global,
    mounted: &mut Mounted<F>,
    name: &str,
    replaces: bool,
    keep: u64,
    sink: &mut K,
) -> Result<(), MountError>
    ensures saves { SavesIf replaces keep mounted.old name.now mounted.new }
    ensures ends { NoticeEnds true (K.held sink.old) (K.held sink.new) (K.faults sink.old) (K.faults sink.new) result }
    ensures later { K.faults sink.old ≤ K.faults sink.new }
{
    if !replaces {
        return Ok(());
    }
    mounted.keep_within(keep);
    let told = mounted.save(alloc, name);
    write_notice(alloc, &told, sink)
}

/// So where there is a cache file.
pub(crate) fn save<F: Files, K: Sink>(
    alloc: Global,
    mounted: &mut Mounted<F>,
    cache: Option<&str>,
    replaces: bool,
    keep: u64,
    sink: &mut K,
) -> Result<(), MountError>
    ensures saves { IfSome cache.entry (λ name. SavesIf replaces keep mounted.old name.now mounted.new) }
    ensures ends { NoticeEnds (is_some cache.entry) (K.held sink.old) (K.held sink.new) (K.faults sink.old) (K.faults sink.new) result }
    ensures later { K.faults sink.old ≤ K.faults sink.new }
{
    match cache {
        Some(name) => save_named(alloc, mounted, name, replaces, keep, sink),
        None => Ok(()),
    }
}
