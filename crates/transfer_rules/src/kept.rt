//! What is kept of a file's content, where that is evicted.

ghost use Rattle.std.specs.Prelude.{◌≡◌, None};

/// Nothing is kept any longer. It takes no memory.
pub fn evict<T: Drop>(content: &mut Option<T>)
    ensures { content.new ≡ None }
{
    *content = None;
}
