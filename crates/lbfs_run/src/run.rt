//! A run of the program over its outside. `asked_of` of `program_words` states what words ask for, and
//! `plain` what `replay`, `gen`, `cut` and `show` come to; the rest stands in `specs/`.

ghost use Rattle.std.specs.Prelude.{◌≡◌, ℕ, ◌≤◌, ◌⊎◌, List, [], ◌∷◌, Option, Some, true, false, codes, is_some, IfSome};
ghost use Rattle.lb_base.specs.Causes.{Rose};
ghost use Rattle.trace_generator.specs.Lines.{generated_text};
ghost use Rattle.trace_generator.specs.declared.TheConstants.{BLOCKS_MOST};
ghost use Rattle.program_words.specs.Words.{IsFew, asked_of, command_in, command_of, is_alone, reads};
ghost use Rattle.program_words.specs.declared.asked.View.{View};
ghost use Rattle.program_words.specs.declared.asked.InputCommand.TheVariants as input;
ghost use Rattle.program_words.specs.declared.asked.SeedCommand.{SeedCommand};
ghost use Rattle.program_words.specs.declared.asked.SeedCommand.TheVariants as seeded;
ghost use Rattle.program_words.specs.declared.asked.Command.TheVariants.{OfInput, OfSeed};
ghost use Rattle.program_words.specs.declared.asked.ServeOptions.{ServeOptions};
ghost use Rattle.program_words.specs.declared.asked.MountOptions.{MountOptions};
ghost use Rattle.program_words.specs.declared.asked.CheckOptions.{CheckOptions};
ghost use Rattle.program_words.specs.declared.asked.Asked.TheVariants as ask;
ghost use Rattle.exit_status.specs.declared.status.Status.TheVariants as status;
ghost use Rattle.lbfs_run.specs.Output.{IsWhole};
ghost use Rattle.lbfs_run.specs.PlainEnds.{IsAnswered, IsAnsweredFrom, IsBegun, IsBegunFrom, IsBroken, IsBrokenFrom, IsPlainEnd, IsReplayed, IsRun};
ghost use Rattle.lbfs_mount.specs.Saved.{IsKept};
ghost use Rattle.lbfs_mount.specs.Heard.{SaysAt};
ghost use Rattle.lbfs_mount.specs.Mounts.{IsFaulty};
ghost use Rattle.lbfs_run.specs.Checking.{CheckEnds};
ghost use Rattle.lbfs_run.specs.Ends.{StoreFails, takes_input};
ghost use Rattle.lbfs_run.specs.Mounting.{MountEnds};
ghost use Rattle.lbfs_run.specs.Serving.{ServeEnds};
ghost use Rattle.lbfs_run.specs.Words.{words_as_bytes};

use crate::checking::run_check;
use crate::mounting::run_mount;
use crate::outside::Outside;
use crate::serving::run_serve;
use exit_status::status::Status;
use lb_base::sink::Sink;
use lb_base::source::Source;
use links::clock::Clock;
use links::files::Files;
use links::network::Network;
use links::rest::Rest;
use program_words::asked::{Asked, Command};
use program_words::words::asked_of;
use std::alloc::Global;
use std::sync::Wait;
use std::thread::Threads;
use synced_store::checks::Checks;
use synced_store::syncs::Synced;

/// A run of a command that needs nothing but the source and the sink, or the refusal of the words. No
/// link is left over.
fn run_plain<S: Source, K: Sink, D, F, N: Network, C, R>(
    alloc: Global,
    command: Option<Command>,
    out: Outside<S, K, D, F, N, C, R>,
) -> (Status, Outside<S, K, D, F, N, C, R>, Option<N::L>)
    requires { IsFew command }
    ensures replayed { (view : View) → command ≡ Some (OfInput (input.Replay view))
        → result.0 ≡ status.Done → (trace : List ℕ) → S.left out.source ≡ Some trace
        → IsRun view (K.held out.sink) (K.held result.1.sink) trace }
    ensures generated { (view : View) (seed blocks : ℕ)
        → command ≡ Some (OfSeed seed blocks (seeded.Replay view)) → result.0 ≡ status.Done
        → IsRun view (K.held out.sink) (K.held result.1.sink) (generated_text seed blocks) }
    ensures accepted { (seed blocks : ℕ) (made : SeedCommand) → command ≡ Some (OfSeed seed blocks made) → result.0 ≡ status.Refused → ⊥ }
    ensures read_again { (view : View) (seed blocks : ℕ)
        → command ≡ Some (OfInput (input.Replay view)) → blocks ≤ BLOCKS_MOST
        → S.left out.source ≡ Some (generated_text seed blocks) → result.0 ≡ status.Refused → ⊥ }
    ensures answered { IsWhole result.0 → IsAnswered command (S.left out.source) (K.held out.sink) (K.held result.1.sink) result.0 }
    ensures taken { IsWhole result.0 → IsAnsweredFrom command (S.left out.source) (S.left result.1.source) (K.held out.sink) (K.held result.1.sink) result.0 }
    ensures unread { reads command ≡ false → result.1.source ≡ out.source }
    ensures read_later { S.faults out.source ≤ S.faults result.1.source }
    ensures write_later { K.faults out.sink ≤ K.faults result.1.sink }
    ensures read_fault { result.0 ≡ status.ReadFault → Rose (S.faults out.source) (S.faults result.1.source) }
    ensures nothing { result.0 ≡ status.ReadFault → result.1.sink ≡ out.sink }
    ensures write_fault { result.0 ≡ status.WriteFault → Rose (K.faults out.sink) (K.faults result.1.sink) }
    ensures broken { result.0 ≡ status.WriteFault → IsBroken command (S.left out.source) (K.held out.sink) (K.held result.1.sink) }
    ensures broken_off { result.0 ≡ status.WriteFault → IsBrokenFrom command (S.left out.source) (S.left result.1.source) (K.held out.sink) (K.held result.1.sink) }
    ensures starved { result.0 ≡ status.Memory → IsBegun command (S.left out.source) (K.held out.sink) (K.held result.1.sink) }
    ensures starved_off { result.0 ≡ status.Memory → (result.1.sink ≡ out.sink) ⊎ IsBegunFrom command (S.left out.source) (S.left result.1.source) (K.held out.sink) (K.held result.1.sink) }
    ensures known { IsPlainEnd result.0 }
    ensures apart { (result.1.store ≡ out.store) × (result.1.files ≡ out.files) × (result.1.network ≡ out.network) }
{
    let Outside {
        mut source,
        mut sink,
        store,
        files,
        network,
        clock,
        rest,
    } = out;
    let status = crate::plain::run(alloc, command, &mut source, &mut sink);
    let out = Outside {
        source,
        sink,
        store,
        files,
        network,
        clock,
        rest,
    };
    (status, out, None)
}

/// Does what was asked for, as `run` says, for those who have no words.
pub fn run_asked<
    H: Threads + Wait + Sync,
    S: Source + Drop,
    K: Sink + Drop,
    D: Synced + Checks + Drop + Send,
    F: Files + Drop + Send,
    N: Network + Drop,
    C: Clock + Sync,
    R: Rest + Sync,
>(
    rt: &H,
    alloc: Global,
    asked: Option<Asked>,
    out: Outside<S, K, D, F, N, C, R>,
) -> (Status, Outside<S, K, D, F, N, C, R>, Option<N::L>)
where
    N::L: Drop + Send,
    requires { IsFew (command_in asked) }
    ensures replayed { (view : View) → command_in asked ≡ Some (OfInput (input.Replay view))
        → result.0 ≡ status.Done → (trace : List ℕ) → S.left out.source ≡ Some trace
        → IsRun view (K.held out.sink) (K.held result.1.sink) trace }
    ensures generated { (view : View) (seed blocks : ℕ)
        → command_in asked ≡ Some (OfSeed seed blocks (seeded.Replay view))
        → result.0 ≡ status.Done
        → IsRun view (K.held out.sink) (K.held result.1.sink) (generated_text seed blocks) }
    ensures accepted { (seed blocks : ℕ) (made : SeedCommand) → command_in asked ≡ Some (OfSeed seed blocks made) → result.0 ≡ status.Refused → ⊥ }
    ensures read_again { (view : View) (seed blocks : ℕ)
        → command_in asked ≡ Some (OfInput (input.Replay view)) → blocks ≤ BLOCKS_MOST
        → S.left out.source ≡ Some (generated_text seed blocks) → result.0 ≡ status.Refused → ⊥ }
    ensures answered { is_alone asked ≡ true → IsWhole result.0 → IsAnswered (command_in asked) (S.left out.source) (K.held out.sink) (K.held result.1.sink) result.0 }
    ensures taken { is_alone asked ≡ true → IsWhole result.0 → IsAnsweredFrom (command_in asked) (S.left out.source) (S.left result.1.source) (K.held out.sink) (K.held result.1.sink) result.0 }
    ensures unread { takes_input asked ≡ false → result.1.source ≡ out.source }
    ensures read_later { S.faults out.source ≤ S.faults result.1.source }
    ensures write_later { K.faults out.sink ≤ K.faults result.1.sink }
    ensures read_fault { result.0 ≡ status.ReadFault → Rose (S.faults out.source) (S.faults result.1.source) }
    ensures nothing { is_alone asked ≡ true → result.0 ≡ status.ReadFault → result.1.sink ≡ out.sink }
    ensures write_fault { result.0 ≡ status.WriteFault → Rose (K.faults out.sink) (K.faults result.1.sink) }
    ensures broken { is_alone asked ≡ true → result.0 ≡ status.WriteFault → IsBroken (command_in asked) (S.left out.source) (K.held out.sink) (K.held result.1.sink) }
    ensures broken_off { is_alone asked ≡ true → result.0 ≡ status.WriteFault → IsBrokenFrom (command_in asked) (S.left out.source) (S.left result.1.source) (K.held out.sink) (K.held result.1.sink) }
    ensures starved { is_alone asked ≡ true → result.0 ≡ status.Memory → IsBegun (command_in asked) (S.left out.source) (K.held out.sink) (K.held result.1.sink) }
    ensures starved_off { is_alone asked ≡ true → result.0 ≡ status.Memory
        → (result.1.sink ≡ out.sink) ⊎ IsBegunFrom (command_in asked) (S.left out.source)
        (S.left result.1.source) (K.held out.sink) (K.held result.1.sink) }
    ensures known { is_alone asked ≡ true → IsPlainEnd result.0 }
    ensures apart { is_alone asked ≡ true → (result.1.store ≡ out.store) × (result.1.files ≡ out.files) × (result.1.network ≡ out.network) }
    ensures serves { (o : ServeOptions) → asked ≡ Some (ask.Serve o)
        → ServeEnds o (N.accepted out.network) (N.accepted result.1.network)
        (N.faults out.network) (N.faults result.1.network) (D.faults out.store)
        (D.faults result.1.store) (N.at result.1.network) (D.records out.store)
        (D.there out.store) (K.held out.sink) (K.held result.1.sink) result.0 }
    ensures unfiled { (o : ServeOptions) → asked ≡ Some (ask.Serve o) → result.1.files ≡ out.files }
    ensures mounts { (o : MountOptions) → asked ≡ Some (ask.Mount o)
        → MountEnds (SaysAt F N.L.held N.L.faults) (is_some o.cache) (S.left out.source) (S.left result.1.source)
        (K.held out.sink) (K.held result.1.sink) (S.faults out.source)
        (S.faults result.1.source) (K.faults out.sink) (N.faults out.network)
        (N.faults result.1.network) (IsFaulty N.L.faults result.2) result.0 }
    ensures saved { (o : MountOptions) → asked ≡ Some (ask.Mount o) → result.0 ≡ status.Done
        → IfSome o.cache (λ name.
        ∥ IsKept o.drift o.keep name
        (record { files = F.files out.files; faults = F.faults out.files })
        (record { files = F.files result.1.files; faults = F.faults result.1.files }) ∥₁) }
    ensures unstored { (o : MountOptions) → asked ≡ Some (ask.Mount o) → result.1.store ≡ out.store }
    ensures checks { (o : CheckOptions) → asked ≡ Some (ask.Check o)
        → CheckEnds o (D.faults out.store) (D.faults result.1.store) (D.records out.store)
        (D.there out.store) (K.held out.sink) (K.held result.1.sink) result.0 }
    ensures unchanged { (o : CheckOptions) → asked ≡ Some (ask.Check o) → (D.records result.1.store ≡ D.records out.store) × (result.1.files ≡ out.files) × (result.1.network ≡ out.network) }
    ensures network_fault { result.0 ≡ status.Network → Rose (N.faults out.network) (N.faults result.1.network) ⊎ IsFaulty N.L.faults result.2 }
    ensures store_fault { result.0 ≡ status.Store → StoreFails (D.faults out.store) (D.faults result.1.store) (D.records out.store) (K.held out.sink) (K.held result.1.sink) }
{
    match asked {
        Some(Asked::Command(command)) => run_plain(alloc, Some(command), out),
        Some(Asked::Serve(options)) => run_serve(rt, alloc, &options, out),
        Some(Asked::Mount(options)) => run_mount(rt, alloc, options, out),
        Some(Asked::Check(options)) => run_check(alloc, &options, out),
        None => run_plain(alloc, None, out),
    }
}

/// Runs the words, which are those behind the program's name, and answers the status. The program ends
/// with its number (`Status::code`), which stands here behind its name.
///
/// Of words that ask for `replay`, `gen`, `cut` or `show`, and of those that ask for nothing: with
/// `Done` (0), `BadWords` (2) and `Refused` (5) all of the output for the words and the input was written
/// (`answered`, where the source tells what is left in it; `taken`, whatever it tells, for bytes that
/// were taken from it), and with `Done` the source stands at its end, where the words have it read; else
/// it is untouched (`unread`). A trace that is run, read or made, is accepted, and its run keeps its
/// promise (`replayed`, `generated`; `headline` of the word `replay` alone); one that is made is never
/// refused (`accepted`), nor is its text where it is read (`read_again`). With `ReadFault` (3) nothing was
/// written (`nothing`). With `WriteFault` (4) a front of the output was written, but not all (`broken`,
/// `broken_off`). With `Memory` (6) nothing was written, or a front of the output (`starved`,
/// `starved_off`). The store, the files and the network are untouched (`apart`).
///
/// `serve` ends in one of the ways of `ServeEnds`, `mount` in one of `MountEnds`, and `check` in one of
/// `CheckEnds`, each with its cause and what was written (`serves`, `mounts`, `checks`). `serve` touches
/// neither the source nor the files, `mount` not the store, and `check` changes nothing (`unread`,
/// `unfiled`, `unstored`, `unchanged`). With `Done` a mount's cache file is written, of what a client kept
/// that had the drift and the bound of the words, or left, where what stood there is no cache file (`saved`).
///
/// Of all words: with `ReadFault` the source failed and its faults rose, with `WriteFault` the sink's, with
/// `Network` (7) the network's, or `mount` dialled a link that has no twin, which is then given back with
/// a fault counted on it; with `Store` (8) the store's rose, or a record of it breaks a rule, and which,
/// was written. With `Memory` it ran out of memory, which no clause gives a cause. Which bytes a source
/// gave and a sink took is known only where they tell, as those in memory do; streams of the system
/// don't.
pub fn run<
    H: Threads + Wait + Sync,
    S: Source + Drop,
    K: Sink + Drop,
    D: Synced + Checks + Drop + Send,
    F: Files + Drop + Send,
    N: Network + Drop,
    C: Clock + Sync,
    R: Rest + Sync,
>(
    rt: &H,
    alloc: Global,
    words: &[String],
    out: Outside<S, K, D, F, N, C, R>,
) -> (Status, Outside<S, K, D, F, N, C, R>, Option<N::L>)
where
    N::L: Drop + Send,
    ensures headline { words_as_bytes words.now ≡ codes "replay" ∷ [] → result.0 ≡ status.Done
        → (input : List ℕ) → S.left out.source ≡ Some input
        → IsReplayed (K.held out.sink) (K.held result.1.sink) input }
    ensures replayed { (view : View) → command_of (words_as_bytes words.now)
        ≡ Some (OfInput (input.Replay view)) → result.0 ≡ status.Done → (trace : List ℕ)
        → S.left out.source ≡ Some trace
        → IsRun view (K.held out.sink) (K.held result.1.sink) trace }
    ensures generated { (view : View) (seed blocks : ℕ)
        → command_of (words_as_bytes words.now) ≡ Some (OfSeed seed blocks (seeded.Replay view))
        → result.0 ≡ status.Done
        → IsRun view (K.held out.sink) (K.held result.1.sink) (generated_text seed blocks) }
    ensures accepted { (seed blocks : ℕ) (made : SeedCommand) → command_of (words_as_bytes words.now) ≡ Some (OfSeed seed blocks made) → result.0 ≡ status.Refused → ⊥ }
    ensures read_again { (view : View) (seed blocks : ℕ)
        → command_of (words_as_bytes words.now) ≡ Some (OfInput (input.Replay view))
        → blocks ≤ BLOCKS_MOST → S.left out.source ≡ Some (generated_text seed blocks)
        → result.0 ≡ status.Refused → ⊥ }
    ensures answered { is_alone (asked_of (words_as_bytes words.now)) ≡ true → IsWhole result.0
        → IsAnswered (command_of (words_as_bytes words.now)) (S.left out.source)
        (K.held out.sink) (K.held result.1.sink) result.0 }
    ensures taken { is_alone (asked_of (words_as_bytes words.now)) ≡ true → IsWhole result.0
        → IsAnsweredFrom (command_of (words_as_bytes words.now)) (S.left out.source)
        (S.left result.1.source) (K.held out.sink) (K.held result.1.sink) result.0 }
    ensures unread { takes_input (asked_of (words_as_bytes words.now)) ≡ false → result.1.source ≡ out.source }
    ensures read_later { S.faults out.source ≤ S.faults result.1.source }
    ensures write_later { K.faults out.sink ≤ K.faults result.1.sink }
    ensures read_fault { result.0 ≡ status.ReadFault → Rose (S.faults out.source) (S.faults result.1.source) }
    ensures nothing { is_alone (asked_of (words_as_bytes words.now)) ≡ true → result.0 ≡ status.ReadFault → result.1.sink ≡ out.sink }
    ensures write_fault { result.0 ≡ status.WriteFault → Rose (K.faults out.sink) (K.faults result.1.sink) }
    ensures broken { is_alone (asked_of (words_as_bytes words.now)) ≡ true
        → result.0 ≡ status.WriteFault
        → IsBroken (command_of (words_as_bytes words.now)) (S.left out.source) (K.held out.sink)
        (K.held result.1.sink) }
    ensures broken_off { is_alone (asked_of (words_as_bytes words.now)) ≡ true
        → result.0 ≡ status.WriteFault
        → IsBrokenFrom (command_of (words_as_bytes words.now)) (S.left out.source)
        (S.left result.1.source) (K.held out.sink) (K.held result.1.sink) }
    ensures starved { is_alone (asked_of (words_as_bytes words.now)) ≡ true
        → result.0 ≡ status.Memory
        → IsBegun (command_of (words_as_bytes words.now)) (S.left out.source) (K.held out.sink)
        (K.held result.1.sink) }
    ensures starved_off { is_alone (asked_of (words_as_bytes words.now)) ≡ true
        → result.0 ≡ status.Memory
        → (result.1.sink ≡ out.sink) ⊎ IsBegunFrom (command_of (words_as_bytes words.now))
        (S.left out.source) (S.left result.1.source) (K.held out.sink) (K.held result.1.sink) }
    ensures known { is_alone (asked_of (words_as_bytes words.now)) ≡ true → IsPlainEnd result.0 }
    ensures apart { is_alone (asked_of (words_as_bytes words.now)) ≡ true → (result.1.store ≡ out.store) × (result.1.files ≡ out.files) × (result.1.network ≡ out.network) }
    ensures serves { (o : ServeOptions)
        → asked_of (words_as_bytes words.now) ≡ Some (ask.Serve o)
        → ServeEnds o (N.accepted out.network) (N.accepted result.1.network)
        (N.faults out.network) (N.faults result.1.network) (D.faults out.store)
        (D.faults result.1.store) (N.at result.1.network) (D.records out.store)
        (D.there out.store) (K.held out.sink) (K.held result.1.sink) result.0 }
    ensures unfiled { (o : ServeOptions) → asked_of (words_as_bytes words.now) ≡ Some (ask.Serve o) → result.1.files ≡ out.files }
    ensures mounts { (o : MountOptions)
        → asked_of (words_as_bytes words.now) ≡ Some (ask.Mount o)
        → MountEnds (SaysAt F N.L.held N.L.faults) (is_some o.cache) (S.left out.source) (S.left result.1.source)
        (K.held out.sink) (K.held result.1.sink) (S.faults out.source)
        (S.faults result.1.source) (K.faults out.sink) (N.faults out.network)
        (N.faults result.1.network) (IsFaulty N.L.faults result.2) result.0 }
    ensures saved { (o : MountOptions) → asked_of (words_as_bytes words.now)
        ≡ Some (ask.Mount o) → result.0 ≡ status.Done
        → IfSome o.cache (λ name.
        ∥ IsKept o.drift o.keep name
        (record { files = F.files out.files; faults = F.faults out.files })
        (record { files = F.files result.1.files; faults = F.faults result.1.files }) ∥₁) }
    ensures unstored { (o : MountOptions) → asked_of (words_as_bytes words.now) ≡ Some (ask.Mount o) → result.1.store ≡ out.store }
    ensures checks { (o : CheckOptions)
        → asked_of (words_as_bytes words.now) ≡ Some (ask.Check o)
        → CheckEnds o (D.faults out.store) (D.faults result.1.store) (D.records out.store)
        (D.there out.store) (K.held out.sink) (K.held result.1.sink) result.0 }
    ensures unchanged { (o : CheckOptions)
        → asked_of (words_as_bytes words.now) ≡ Some (ask.Check o)
        → (D.records result.1.store ≡ D.records out.store) × (result.1.files ≡ out.files)
        × (result.1.network ≡ out.network) }
    ensures network_fault { result.0 ≡ status.Network → Rose (N.faults out.network) (N.faults result.1.network) ⊎ IsFaulty N.L.faults result.2 }
    ensures store_fault { result.0 ≡ status.Store → StoreFails (D.faults out.store) (D.faults result.1.store) (D.records out.store) (K.held out.sink) (K.held result.1.sink) }
{
    match asked_of(alloc, words) {
        Ok(asked) => run_asked(rt, alloc, asked, out),
        Err(_) => (Status::Memory, out, None),
    }
}

/// Runs the words, drops the outside and answers the status. Here, so that it is proved once for all
/// types.
pub fn status_of<
    H: Threads + Wait + Sync,
    S: Source + Drop,
    K: Sink + Drop,
    D: Synced + Checks + Drop + Send,
    F: Files + Drop + Send,
    N: Network + Drop,
    C: Clock + Sync + Drop,
    R: Rest + Sync + Drop,
>(rt: &H, alloc: Global, words: &[String], out: Outside<S, K, D, F, N, C, R>) -> Status
where
    N::L: Drop + Send,
{
    let (status, out, unpaired) = run(rt, alloc, words, out);
    drop(unpaired);
    drop(out);
    status
}
