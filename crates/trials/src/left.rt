//! What is left of a run's outside, and what is printed of it.

use links::mem_files::MemFiles;
use row_text::out::Out;
use trial_outside::port::{PortLink, PortNet};
use trial_outside::screen::{Screen, Typist};
use trial_outside::trial::Trial;
use trial_outside::tried_store::TriedStore;

/// How many answers had appeared at each call of a mount's source; how many faults a server's network had, how many
/// records its store has, and how often that was to be made sure, where it is asked for; and what was written.
pub fn put_written<R>(
    trial: &Trial<'_>,
    source: &Typist<'_>,
    network: &PortNet<R>,
    store: &TriedStore,
    sink: &Screen<'_>,
    out: &mut Out,
) {
    if trial.words.starts_with("mount") {
        out.say(" lines", source.seen.as_slice());
    }
    if trial.words.starts_with("serve") {
        out.say(" faults", &[network.faults]);
        store.put(trial.setting("counted").is_some(), out);
    }
    out.line("");
    out.letters(sink.text.as_slice())
}

/// A link that has no twin, if there is one, and the files of a mount's host.
pub fn put_left<R>(
    trial: &Trial<'_>,
    unpaired: &Option<PortLink<R>>,
    files: &MemFiles,
    out: &mut Out,
) {
    if let Some(link) = unpaired {
        out.say("link without a twin, faults", &[link.faults]);
        out.line("");
    }
    if !trial.words.starts_with("mount") {
        return;
    }
    for file in files.files().iter() {
        out.text("file ");
        out.letters(file.name.as_slice());
        out.text(" ");
        out.letters(file.bytes.as_slice());
        out.text("\n");
    }
}
