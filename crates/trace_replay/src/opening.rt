//! The files that a trace opens with, as its lines tell them: in parts. Their bytes are made where
//! the history is given, so that a replay doesn't hold each of them twice. `Opening` in
//! `specs/declared` of `register_model` says what a file is.

ghost use Rattle.std.specs.Prelude.{◌≡◌, IfOk};
ghost use Rattle.command_text.specs.Content.{content_bytes};

use command_text::content::{Content, build};
use lb_base::items::Items;
use register_model::op::Opening;
use std::alloc::{AllocError, Global};
use std::marker::Model;

/// A file that a trace opens with. Contracts see its bytes.
#[derive(Drop)]
pub struct OpeningFile {
    file: u64,
    content: Content,
}

impl Model for OpeningFile {
    ghost use Rattle.command_text.specs.Content.{content_bytes};
    ghost use Rattle.register_model.specs.declared.op.Opening.{Opening as WholeFile};

    ghost Value = { WholeFile };

    ghost view = { λ o. record { file = o.file; content = content_bytes o.content } };
}

impl OpeningFile {
    /// A file of this id and content. It takes no memory.
    pub fn new(file: u64, content: Content) -> OpeningFile
        ensures { result ≡ record { file = file; content = content_bytes content } }
    {
        OpeningFile { file, content }
    }

    /// The file with its bytes. The one error is running out of memory.
    fn build(&self, alloc: Global) -> Result<Opening, AllocError>
        ensures { IfOk result (λ o. o ≡ self.now) }
    {
        let content = build(alloc, &self.content)?;
        Ok(Opening {
            file: self.file,
            content,
        })
    }
}

/// The files with their bytes, in order. The one error is running out of memory.
pub fn build_all(alloc: Global, files: &[OpeningFile]) -> Result<Items<Opening>, AllocError>
    ensures { IfOk result (λ opening. opening ≡ files.now) }
{
    let mut opening = Vec::with_capacity(alloc, files.len())?;
    for file in files {
        opening.push(file.build(alloc)?)?;
    }
    Ok(Items::from_vec(opening))
}
