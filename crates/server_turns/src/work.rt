//! Who is at work: the listener, as long as it accepts links, and the sessions.

use links::network::Bell;
use std::sync::atomic::{AtomicBool, AtomicUsize, Ordering};

/// Counts who is at work.
#[derive(Drop)]
pub struct Work {
    /// The listener, and each session.
    serving: AtomicUsize,
    /// Whether the listener accepts links.
    accepts: AtomicBool,
}

impl Work {
    /// The listener is, and accepts links.
    pub fn new() -> Work {
        Work {
            serving: AtomicUsize::new(1),
            accepts: AtomicBool::new(true),
        }
    }

    /// A session begins.
    pub fn begin(&self) {
        self.serving.fetch_add(1, Ordering::SeqCst);
    }

    /// A session has ended.
    pub fn end(&self) {
        self.serving.fetch_sub(1, Ordering::SeqCst);
    }

    /// The listener accepts no more links.
    pub fn end_accepting(&self) {
        self.accepts.store(false, Ordering::SeqCst);
        self.end();
    }

    /// Whether nobody is at work any more.
    pub fn is_done(&self) -> bool {
        self.serving.load(Ordering::SeqCst) == 0
    }

    /// Has the listener look, where it waits for a link.
    pub fn ring<B: Bell>(&self, bell: &B) {
        if self.accepts.load(Ordering::SeqCst) {
            bell.ring();
        }
    }
}
