//! The search for the end of the chunk under way: `MayEnd` of `specs/Ends.antt`.

ghost use Rattle.std.specs.Prelude.{◌≡◌, ℕ, ◌+◌, ◌^◌, ◌<◌, ◌≤◌, ◌⊎◌, List, ◌++◌, length, take, IfSome, MatchOption};
ghost use Rattle.chunk_cut.specs.Cutting.{IsUnderWay};
ghost use Rattle.chunk_cut.specs.Ends.{IsLeastEnd, window_before};

use rabin_window::ends::{LEAST, ends_here, is_end};
use rabin_window::{WINDOW_LEN, Window, fp, roll};

// No window that ends nearer than `LEAST` is looked at, so the bytes before are not needed.
const UNWATCHED: u64 = LEAST - WINDOW_LEN as u64;

/// Finds the end of the chunk under way, which has `len` bytes, in the piece that follows: how many
/// bytes of it the chunk still has, or `None` where it goes on past the piece. The window takes the
/// first 48 bytes that are looked at, and behind these none up to the piece's last 48.
pub fn find_end(window: &mut Window, len: u64, piece: &[u8]) -> Option<usize>
    requires { len + length piece.now < 2 ^ 64 }
    ensures within { IfSome result (λ n. (0 < n) × (n ≤ length piece.now)) }
    ensures end { (content : List ℕ) (s : ℕ) → IsUnderWay content s len window.old
        → MatchOption result (IsUnderWay (content ++ piece.now) s
        (len + length piece.now) window.new)
        (λ n. (length window.new ≡ 48)
        × IsLeastEnd (content ++ take n piece.now) s (length (content ++ take n piece.now))) }
{
    let skipped = unwatched(len, piece.len());
    let filled = skipped + WINDOW_LEN.min(piece.len() - skipped);
    'bytes: for i in skipped..filled {
        window.push(piece[i]);
        if is_end(window.value(), len + i as u64 + 1) {
            return Some(i + 1);
        }
    }
    if filled == piece.len() {
        return None;
    }
    match roll_on(len, piece, filled) {
        Some(count) => Some(count),
        None => {
            *window = Window::of(&piece[piece.len() - WINDOW_LEN..]);
            None
        }
    }
}

/// Finds the end behind the first `from` bytes of the piece. With these the chunk has the least number
/// of bytes, and the window lies in the piece: no byte has to be kept for it.
fn roll_on(len: u64, piece: &[u8], from: usize) -> Option<usize>
    requires sizes { len + length piece.now < 2 ^ 64 }
    requires within { (48 ≤ from) × (from ≤ length piece.now) }
    requires least { 2048 ≤ len + from }
    ensures within { IfSome result (λ n. (0 < n) × (n ≤ length piece.now)) }
    ensures end { (content : List ℕ) (s : ℕ)
        → IsUnderWay (content ++ take from piece.now) s (len + from)
        (window_before piece.now from)
        → MatchOption result (IsUnderWay (content ++ piece.now) s (len + length piece.now)
        (window_before piece.now (length piece.now)))
        (λ n. IsLeastEnd (content ++ take n piece.now) s (length (content ++ take n piece.now))) }
{
    let mut print = fp(&piece[from - WINDOW_LEN..from]);
    'bytes: for i in from..piece.len() {
        print = roll(print, piece[i - WINDOW_LEN], piece[i]);
        if ends_here(print, len + i as u64 + 1) {
            return Some(i + 1);
        }
    }
    None
}

/// How many of the bytes that follow, of which there are `count`, are in no window that is looked at.
fn unwatched(len: u64, count: usize) -> usize
    ensures within { result ≤ count }
    ensures before { (len + result ≤ 2000) ⊎ (result ≡ 0) }
    ensures watched { result < count → 2000 ≤ len + result }
{
    let watched = UNWATCHED.saturating_sub(len) as usize;
    watched.min(count)
}
