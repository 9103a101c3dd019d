//! Why a mount ends before its script does. `mount` says when each comes.

/// Why a mount ended before its script did.
#[derive(Clone, Copy)]
pub enum MountError {
    /// The script's source failed; its count of faults rose.
    ReadFault,
    /// The sink failed; its count of faults rose.
    WriteFault,
    /// This line of the script, numbered from 1, is none of a script.
    BadLine { number: u64 },
    /// The network failed where a connection was dialled, or the link where its twin was made.
    Network,
    /// Memory ran out, or no thread could be started.
    Memory,
    /// The script has more bytes than an input may have.
    TooLong,
}
