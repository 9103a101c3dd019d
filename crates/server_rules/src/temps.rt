//! The pieces of a temporary file: which follows on which. It takes no memory.

ghost use Rattle.std.specs.Prelude.{◌≡◌, ◌==◌};

/// Whether a piece that begins at `at` follows on those that end at `end`. Where it begins further on,
/// nobody sent what is between: a content has no byte that wasn't sent.
pub fn follows(end: u64, at: u64) -> bool
    ensures { result ≡ (at == end) }
{
    at == end
}
