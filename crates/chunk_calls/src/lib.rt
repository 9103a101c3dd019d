//! The calls of LBFS that change no tree, which are all but COMMITTMP, over a tree of files, the
//! temporary files of all sessions and an index of chunks: what each is answered, and what becomes of
//! the temporary files and the index (`specs/Calling.antt`). And the content that a temporary file comes
//! to, which a COMMITTMP takes.
#![tactic(auto)]

pub mod answers;
pub mod calls;
pub mod contents;
pub mod entering;
mod hashes;
mod indexing;
mod writing;
