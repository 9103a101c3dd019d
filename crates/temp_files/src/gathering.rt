//! How pieces are moved to the front (`specs/Laid.antt`). Each is dropped as soon as its bytes are
//! moved, so that they are never all held twice.

ghost use Rattle.std.specs.Prelude.{◌≡◌, ◌<◌, length, IsTrue, vec_capacity};
ghost use Rattle.temp_files.specs.Laid.{AreLengthsOf, IsNext, laid};

use lb_base::items::Bytes;
use std::collections::BTreeMap;

/// From so many pieces on they are gathered at the front.
const GATHERED_FROM: usize = 64;

/// The most bytes of a temporary file.
const SIZE_MOST: usize = limits::FILE_MOST as usize;

/// Pieces by the places of their first bytes.
pub type Placed = BTreeMap<u64, Bytes>;

/// Whether the first of the pieces begins where the front ends, and the front has room for it.
fn is_next(front: &Vec<u8>, rest: &Placed) -> bool
    ensures { IsTrue result → IsNext (length front.now.items) (vec_capacity front.now) rest.now.entries }
{
    let Some((at, bytes)) = rest.first_key_value() else {
        return false;
    };
    if *at != front.len() as u64 {
        return false;
    }
    bytes.len() <= front.capacity() - front.len()
}

/// Moves the first of the pieces, which begins where the front ends, into the front's room.
fn move_first(front: &mut Vec<u8>, lengths: &mut Vec<usize>, rest: &mut Placed)
    requires lengths { AreLengthsOf front.old.items lengths.old.items }
    requires next { IsNext (length front.old.items) (vec_capacity front.old) rest.old.entries }
    requires room { length lengths.old.items < vec_capacity lengths.old }
    ensures lengths { AreLengthsOf front.new.items lengths.new.items }
    ensures same { laid front.new.items lengths.new.items rest.new.entries ≡ laid front.old.items lengths.old.items rest.old.entries }
{
    match rest.pop_first() {
        Some((_at, bytes)) => {
            lengths.push_reserved(bytes.len());
            match front.extend_from_slice(bytes.as_slice()) {
                Ok(()) => {}
                Err(_) => unreachable!(),
            }
        }
        None => {}
    }
}

/// Moves the first of the pieces to the front, where it begins where the front ends and there is
/// room for it, and for its length.
fn gather_one(front: &mut Vec<u8>, lengths: &mut Vec<usize>, rest: &mut Placed)
    requires { AreLengthsOf front.old.items lengths.old.items }
    ensures lengths { AreLengthsOf front.new.items lengths.new.items }
    ensures same { laid front.new.items lengths.new.items rest.new.entries ≡ laid front.old.items lengths.old.items rest.old.entries }
{
    if is_next(front, rest) {
        match lengths.reserve(1) {
            Ok(()) => move_first(front, lengths, rest),
            Err(_) => {}
        }
    }
}

/// Takes the front's room, once there are many pieces. Where there is no memory for it, they stay
/// where they are.
fn make_room(front: &mut Vec<u8>, rest: &Placed)
    ensures { front.new.items ≡ front.old.items }
{
    if front.capacity() == 0 && rest.len() >= GATHERED_FROM {
        match front.reserve_exact(SIZE_MOST) {
            Ok(()) => {}
            Err(_) => {}
        }
    }
}

/// Moves two pieces at most to the front: the one that was put last, and one of those that wait
/// behind the front. So those that came early are moved too, and no call takes longer where more
/// of them wait.
pub fn gather(front: &mut Vec<u8>, lengths: &mut Vec<usize>, rest: &mut Placed)
    requires { AreLengthsOf front.old.items lengths.old.items }
    ensures lengths { AreLengthsOf front.new.items lengths.new.items }
    ensures same { laid front.new.items lengths.new.items rest.new.entries ≡ laid front.old.items lengths.old.items rest.old.entries }
{
    make_room(front, rest);
    gather_one(front, lengths, rest);
    gather_one(front, lengths, rest);
}

/// Moves all pieces to the front, as far as each begins where the one before it ends and there is
/// room.
pub fn gather_all(front: &mut Vec<u8>, lengths: &mut Vec<usize>, rest: &mut Placed)
    requires { AreLengthsOf front.old.items lengths.old.items }
    ensures lengths { AreLengthsOf front.new.items lengths.new.items }
    ensures same { laid front.new.items lengths.new.items rest.new.entries ≡ laid front.old.items lengths.old.items rest.old.entries }
{
    for _at in 0..rest.len() {
        gather_one(front, lengths, rest);
    }
}
