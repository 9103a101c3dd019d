//! Names as they are shown: `quoted` of `specs/Quoting.antt`.

ghost use Rattle.std.specs.Prelude.{◌≡◌, ◌<◌, ◌++◌, [], ◌∷◌, IfOk, OnOk};
ghost use Rattle.std.specs.List.{list_all};
ghost use Rattle.shell_words.specs.Quoting.{has_control, is_text, is_plain, stands, is_bare, hex_digit, is_marked, is_shown, spelled, all_spelled, quoted_as, quoted};

use crate::local::text_of;
use lb_base::items::{Bytes, Items};
use std::alloc::{AllocError, Global};

/// Whether these bytes hold a control character of two bytes.
fn has_control(name: &[u8]) -> bool
    ensures { result ≡ has_control 0 name.now }
{
    let mut before = 0u8;
    for byte in name {
        if before == 194 && 128 <= *byte && *byte <= 159 {
            return true;
        }
        before = *byte;
    }
    false
}

/// Whether bytes above 127 are shown as they are.
fn is_text(name: &[u8]) -> bool
    ensures { result ≡ is_text name.now }
{
    text_of(name).is_some() && !has_control(name)
}

/// Whether a byte needs no quotes in any name.
fn is_plain(b: u8) -> bool
    ensures { result ≡ is_plain b }
{
    b.is_ascii_alphanumeric()
        || (b'+' <= b && b <= b'/')
        || b == b':'
        || b == b'='
        || b == b'@'
        || b == b'_'
        || b == b'%'
}

/// Whether a byte needs no quotes.
fn stands(text: bool, b: u8) -> bool
    ensures { result ≡ stands text b }
{
    is_plain(b) || (text && 128 <= b)
}

/// Whether all bytes need none.
fn all_stand(text: bool, name: &[u8]) -> bool
    ensures { result ≡ list_all (λ b. stands text b) name.now }
{
    for byte in name {
        if !stands(text, *byte) {
            return false;
        }
    }
    true
}

/// A hexadecimal digit.
fn hex_digit(d: u8) -> u8
    requires { d < 16 }
    ensures { result ≡ hex_digit d }
{
    if d < 10 { b'0' + d } else { 87 + d }
}

/// Whether a byte is a quote or a backslash.
fn is_marked(b: u8) -> bool
    ensures { result ≡ is_marked b }
{
    b == b'\'' || b == b'\\'
}

/// Whether a byte is shown as it is.
fn is_shown(text: bool, b: u8) -> bool
    ensures { result ≡ is_shown text b }
{
    (32 <= b && b <= 126) || (text && 128 <= b)
}

/// A byte within quotes goes behind what is there.
fn spell(out: &mut Vec<u8>, text: bool, b: u8) -> Result<(), AllocError>
    ensures { OnOk result (out.new.items ≡ out.old.items ++ spelled text b) }
{
    if is_marked(b) {
        out.extend_from_slice(&[b'\\', b])
    } else if is_shown(text, b) {
        out.extend_from_slice(&[b])
    } else {
        out.extend_from_slice(&[b'\\', b'x', hex_digit(b / 16), hex_digit(b % 16)])
    }
}

/// The bytes of a name within quotes.
fn all_spelled(alloc: Global, text: bool, name: &[u8]) -> Result<Vec<u8>, AllocError>
    ensures { IfOk result (λ out. out.items ≡ 39 ∷ all_spelled text name.now) }
{
    let mut out = Vec::new(alloc);
    out.push(b'\'')?;
    for byte in name {
        spell(&mut out, text, *byte)?;
    }
    Ok(out)
}

/// A name in quotes.
fn in_quotes(alloc: Global, text: bool, name: &[u8]) -> Result<Bytes, AllocError>
    ensures { IfOk result (λ out. out ≡ (39 ∷ all_spelled text name.now) ++ 39 ∷ []) }
{
    let mut out = all_spelled(alloc, text, name)?;
    out.push(b'\'')?;
    Ok(Items::from_vec(out))
}

/// A name as it is shown: as it is where that can be read back, else in quotes, with escapes. Bytes of a
/// text are shown as they are, others as `\xNN`. The one error is running out of memory.
pub fn quoted(alloc: Global, name: &[u8]) -> Result<Bytes, AllocError>
    ensures { IfOk result (λ out. out ≡ quoted name.now) }
{
    let text = is_text(name);
    if !name.is_empty() && all_stand(text, name) {
        Items::copy_of(alloc, name)
    } else {
        in_quotes(alloc, text, name)
    }
}
