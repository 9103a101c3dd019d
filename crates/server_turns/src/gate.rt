//! What is called before and behind each turn that may change something or takes what is to be said, each look of
//! a thread that may sleep behind it, and before each sleep: so a test can decide whose turn it is.

use server_core::event::Event;

/// Whose turn it is.
#[derive(Clone, Copy)]
pub enum Who {
    /// The listener's, which makes a session.
    Listener,
    /// The ticker's, which makes changes that wait.
    Ticker,
    /// That of the thread which takes the records of a session, also as it hangs it.
    Reader(u32),
    /// That of the thread which puts out what further events have to say to a session.
    Writer(u32),
}

impl Who {
    /// Whose turn an event is.
    pub(crate) fn of(event: &Event) -> Who {
        match event {
            Event::Connect => Who::Listener,
            Event::Settle { .. } => Who::Ticker,
            Event::Got { session, .. } | Event::Hang { session } => Who::Reader(*session),
        }
    }
}

/// Decides whose turn it is: each call but `after` may wait.
pub trait Gate {
    /// A turn is to begin.
    fn before(&self, who: Who);

    /// The turn that began last has ended, and all were woken that it wakes.
    fn after(&self);

    /// A thread is to sleep until it is woken.
    fn sleeps(&self, who: Who);
}

/// All turns are whoever's comes.
#[derive(Clone, Copy)]
pub struct OpenGate;

impl Gate for OpenGate {
    fn before(&self, _who: Who) {}

    fn after(&self) {}

    fn sleeps(&self, _who: Who) {}
}
