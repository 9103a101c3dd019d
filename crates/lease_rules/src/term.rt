//! For how long a lease is granted (`term_for` in `specs/Leases.antt`).

ghost use Rattle.std.specs.Prelude.{◌≡◌};
ghost use Rattle.lease_rules.specs.Leases.{term_for};

/// The term of a lease on a file, in milliseconds: none, which is 0, where a change of the file
/// waits. So whoever waits for leases to end waits for those alone that were granted before.
pub fn term_for(waits: bool, term: u32) -> u32
    ensures { result ≡ term_for waits term }
{
    if waits {
        return 0;
    }
    term
}
