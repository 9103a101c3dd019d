//! The lines that a person types to a shell, as text: the words of a line with their quotes and escapes,
//! the command that words say, the path that a word names, and names as they are shown.
//!
//! `specs/Words.antt` has how a line is read, `specs/Quoting.antt` how a name is shown (what is
//! shown is read again: `laws`), `specs/Commands.antt` the commands, `specs/Paths.antt` paths of the server's
//! tree, and `specs/Local.antt` which names may be given to a file of the host.
#![tactic(auto)]

pub mod command;
pub mod laws;
pub mod local;
pub mod mistake;
pub mod path;
pub mod quoting;
pub mod reading;
pub mod temporary;
pub mod words;
