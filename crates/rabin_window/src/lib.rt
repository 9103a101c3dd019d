//! Rabin's fingerprint of bytes, and of the last 48 bytes of a stream as they come: what the LBFS
//! paper (SOSP 2001, section 3.1) finds the ends of chunks by. It is `fp` of `specs/Fingerprint.antt`.
#![tactic(auto)]

ghost use Rattle.std.specs.Prelude.{◌≡◌, ⊤, ℕ, ◌+◌, ◌*◌, ◌^◌, ◌<◌, List, [], ◌∷◌, ◌++◌, length, drop, take, replicate};
ghost use Rattle.rabin_window.specs.Fingerprint.{fp, high_part, oldest_part};

use std::alloc::AllocError;
use std::marker::Model;

pub mod ends;
mod tables;

use tables::{HIGH, OLDEST};

/// How many bytes a window has.
pub const WINDOW_LEN: usize = limits::WINDOW;

// The low 45 bits: what of a fingerprint stays below the modulus when it moves up by a byte.
const LOW: u64 = 0x1FFF_FFFF_FFFF;

/// The fingerprint of the bytes, a number below 2^53: the remainder of the polynomial of their bits,
/// the first byte's most significant bit the highest, modulo 0x3DA3358B4DC173, which is of degree
/// 53. That of no bytes is 0.
pub fn fp(bytes: &[u8]) -> u64
    ensures { result ≡ fp bytes.now }
{
    let mut print = 0;
    for byte in bytes {
        print = append(print, *byte);
    }
    print
}

/// The fingerprint of 48 bytes when the first of them, `gone`, goes and `byte` comes at the end, from
/// what it was before.
pub fn roll(print: u64, gone: u8, byte: u8) -> u64
    requires { (w : List ℕ) × (length w ≡ 47) × (print ≡ fp (gone ∷ w)) }
    ensures { (w : List ℕ) → length w ≡ 47 → print ≡ fp (gone ∷ w) → result ≡ fp (w ++ byte ∷ []) }
{
    append(without(print, gone), byte)
}

/// The last 48 bytes of a stream, and their fingerprint.
#[derive(Drop)]
pub struct Window {
    // The bytes in a ring: from `oldest` on, and then from the front.
    ring: [u8; WINDOW_LEN],
    oldest: usize,
    print: u64,
}

impl Model for Window {
    ghost use Rattle.std.specs.Prelude.{ℕ, List, ◌++◌, take, drop};
    ghost use Rattle.rabin_window.specs.Ring.{IsRing};

    ghost Value = { List ℕ };

    ghost view = { λ w. drop w.oldest w.ring ++ take w.oldest w.ring };

    ghost invariant = { λ w. IsRing w.ring w.oldest w.print };
}

impl Clone for Window {
    ghost is_clone = { λ old new. new ≡ old };

    ghost is_infallible = { λ _. ⊤ };

    fn clone(&self) -> Result<Window, AllocError> {
        Ok(Window {
            ring: self.ring,
            oldest: self.oldest,
            print: self.print,
        })
    }
}

impl Window {
    /// A window of 48 zeros.
    pub fn new() -> Window
        ensures { result ≡ replicate 48 0 }
    {
        Window {
            ring: [0; WINDOW_LEN],
            oldest: 0,
            print: 0,
        }
    }

    /// The window of these 48 bytes.
    pub fn of(bytes: &[u8]) -> Window
        requires { length bytes.now ≡ 48 }
        ensures { result ≡ bytes.now }
    {
        let mut ring = [0; WINDOW_LEN];
        ring.copy_from_slice(bytes);
        Window {
            ring,
            oldest: 0,
            print: fp(bytes),
        }
    }

    /// Puts a byte at the end, for which the first one goes.
    pub fn push(&mut self, byte: u8)
        ensures { self.new ≡ drop 1 self.old ++ byte ∷ [] }
    {
        let gone = self.ring[self.oldest];
        self.print = roll(self.print, gone, byte);
        self.ring[self.oldest] = byte;
        self.oldest += 1;
        if self.oldest == WINDOW_LEN {
            self.oldest = 0;
        }
    }

    /// The fingerprint of the window, which is below 2^53.
    pub fn value(&self) -> u64
        ensures { result ≡ fp self.now }
    {
        self.print
    }
}

/// The fingerprint of some bytes and one more at the end, from theirs.
fn append(print: u64, byte: u8) -> u64
    requires { print < 2 ^ 53 }
    ensures { (w : List ℕ) → print ≡ fp w → result ≡ fp (w ++ byte ∷ []) }
{
    ((print & LOW) << 8) ^ u64::from(byte) ^ high_part((print >> 45) as usize)
}

/// The fingerprint of a window's other bytes, from that of the window and its oldest byte.
fn without(print: u64, oldest: u8) -> u64
    ensures { (w : List ℕ) → length w ≡ 47 → print ≡ fp (oldest ∷ w) → result ≡ fp w }
{
    print ^ oldest_part(oldest)
}

fn high_part(high: usize) -> u64
    requires { high < 256 }
    ensures { result ≡ high_part high }
{
    HIGH[high]
}

fn oldest_part(oldest: u8) -> u64
    ensures { result ≡ oldest_part oldest }
{
    OLDEST[oldest as usize]
}
