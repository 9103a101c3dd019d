//! What the seed of a generated trace says of a block: which client opens which file, and where it
//! writes.

ghost use Rattle.std.specs.Prelude.{◌≡◌, ◌+◌, ◌*◌, ◌/◌, ◌%◌, ◌^◌, ◌<◌};

/// The choice of a block.
pub fn choice(seed: u64, block: u64) -> u64
    ensures chosen { result ≡ (seed + block) % 2 ^ 32 }
    ensures bound { result < 2 ^ 32 }
{
    ((seed as u128 + block as u128) % (1 << 32)) as u64
}

/// The client, of four.
pub fn client_of(choice: u64) -> u64
    ensures { result ≡ 1 + choice % 4 }
{
    1 + choice % 4
}

/// The file, of eight; the first is 2.
pub fn file_of(choice: u64) -> u64
    ensures { result ≡ 2 + choice / 4 % 8 }
{
    2 + choice / 4 % 8
}

/// Where it writes in its file of 9,000 bytes.
pub fn offset_of(choice: u64) -> u64
    requires { choice < 2 ^ 32 }
    ensures { result ≡ 37 * choice % 9000 }
{
    37 * choice % 9000
}
