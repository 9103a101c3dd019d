//! Digests that name chunks (FIPS 180-4): SHA-1's, of twenty bytes, and SHA-256's, of thirty-two.
//! `specs/Held.antt` states how one is held.
#![tactic(auto)]

ghost use Rattle.std.specs.Prelude.{◌≡◌, ◌≤◌, length, true};
ghost use Rattle.digests.specs.Held.{is_digest_length};

use std::marker::Model;

/// A digest of either kind, which contracts see as the list of its bytes. It holds them itself, with
/// zeros behind them, so that it is `Copy` and owns nothing.
#[derive(Clone, Copy)]
pub struct Dig {
    held: [u8; 32],
    len: usize,
}

impl Model for Dig {
    ghost use Rattle.std.specs.Prelude.{ℕ, List, ◌++◌, length, take};
    ghost use Rattle.digests.specs.Held.{IsHeld, zeros_behind, len_back, held_back};

    ghost Value = { List ℕ };

    ghost view = { λ d. take d.len d.held };

    ghost invariant = { λ d. IsHeld d.len d.held };

    ghost inverse = { λ bytes. record { held = bytes ++ zeros_behind (length bytes); len = length bytes } };

    ghost inverse_ok = { λ d is i. record { held = held_back d.len d.held is i; len = len_back d.len d.held is i } };
}

impl Dig {
    /// A digest of SHA-1.
    pub fn sha1(bytes: [u8; 20]) -> Dig
        ensures { result ≡ bytes }
    {
        held(&bytes)
    }

    /// A digest of SHA-256.
    pub fn sha256(bytes: [u8; 32]) -> Dig
        ensures { result ≡ bytes }
    {
        held(&bytes)
    }

    /// Its bytes: twenty, or thirty-two.
    #[tactic(auto, using(crate::specs::Held::least))]
    pub fn as_slice(&self) -> &[u8]
        ensures value { result.now ≡ self.now }
        ensures long { is_digest_length (length result.now) ≡ true }
        ensures least { 20 ≤ length result.now }
    {
        &self.held[..self.len]
    }
}

/// These bytes, and zeros behind them.
fn held(bytes: &[u8]) -> Dig
    requires { is_digest_length (length bytes.now) ≡ true }
    ensures { result ≡ bytes.now }
{
    let len = bytes.len();
    let mut held = [0; 32];
    held[..len].copy_from_slice(bytes);
    Dig { held, len }
}
