//! Two rules by which XDR leaves no byte of a record without a meaning (RFC 4506): the bytes that
//! fill an item up to a multiple of four are zeros, and nothing stands behind what fills a record.
//! `bytes_read` of `xdr_codec/specs/Xdr.antt` and `ended` of its `Format.antt` state where each of
//! them holds.

ghost use Rattle.std.specs.Prelude.{◌≡◌, ◌==◌, length};
ghost use Rattle.std.specs.List.{list_all};

/// Whether all of these bytes are zeros, as those of a fill have to be (RFC 4506, section 3).
pub fn is_fill(fill: &[u8]) -> bool
    ensures { result ≡ list_all (λ b. b == 0) fill.now }
{
    for byte in fill {
        if *byte != 0 {
            return false;
        }
    }
    true
}

/// Whether nothing is left of a record.
pub fn is_at_end(rest: &[u8]) -> bool
    ensures { result ≡ (length rest.now == 0) }
{
    rest.is_empty()
}
