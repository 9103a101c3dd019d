//! Where a folder of the host goes: its directory is made, where there is none (`specs/Placing.antt`).

ghost use Rattle.std.specs.Prelude.{◌≡◌, ◌&&◌, IfOk};
ghost use Rattle.path_commands.specs.Placing.{there_as, LooksThere, is_taken, made_as, PlacesIf, MakesPlace, Places, is_in_the_way, placed, MakesAgain, AgainIf, MakesInstead, OverIf, PlacesOver};
ghost use Rattle.path_commands.specs.Placing.{is_made, is_new, ListsIf, made_news, no_place, not_made, place_news, went_news};

use lb_base::items::{Bytes, Items, Name};
use shell_walks::asking::{Deed, ask_on};
use shell_walks::remote::{Answer, Remote, Why};
use shell_walks::telling::{MADE, REMOVED, path_line, why_of};
use std::alloc::{AllocError, Global};

/// NFS3ERR_EXIST, NFS3ERR_NOTDIR.
const EXIST: u32 = 17;

const NOTDIR: u32 = 20;

/// Whether a directory is there for a folder, and whether it is new; or why there is none.
#[derive(Clone, Copy)]
pub enum Made {
    New,
    There,
    None(Why),
}

/// The same, and whether a file went for it, be it that none was made then.
#[derive(Clone, Copy)]
pub struct Place {
    made: Made,
    went: bool,
}

/// What stands where a directory can't be made.
fn there_as(looked: &Answer) -> Made
    ensures { result ≡ there_as looked.now }
{
    match looked {
        Answer::Seen(seen) => {
            if seen.is_dir {
                Made::There
            } else {
                Made::None(Why::Refused(NOTDIR))
            }
        }
        looked => Made::None(why_of(looked)),
    }
}

/// What stands there is looked at.
fn look_there<R: Remote>(alloc: Global, remote: &mut R, path: &[Name]) -> Result<Made, AllocError>
    ensures { IfOk result (λ m. LooksThere R.asks remote.old path.now m remote.new) }
{
    let looked = ask_on(alloc, remote, Deed::Look, path)?;
    Ok(there_as(&looked))
}

/// Whether something has the name.
fn is_taken(made: &Answer) -> bool
    ensures { result ≡ is_taken made.now }
{
    matches!(made, Answer::Failed(Why::Refused(EXIST)))
}

/// What the making of a directory came to, where nothing has the name.
fn made_as(made: &Answer) -> Made
    ensures { result ≡ made_as made.now }
{
    match made {
        Answer::Done => Made::New,
        made => Made::None(why_of(made)),
    }
}

/// Whether there is a directory behind the making of one.
fn place_if<R: Remote>(
    alloc: Global,
    remote: &mut R,
    is_taken: bool,
    path: &[Name],
    made: &Answer,
) -> Result<Made, AllocError>
    ensures { IfOk result (λ m. PlacesIf R.asks remote.old is_taken path.now made.now m remote.new) }
{
    if is_taken {
        look_there(alloc, remote, path)
    } else {
        Ok(made_as(made))
    }
}

/// A directory is made for a folder.
fn make_named<R: Remote>(alloc: Global, remote: &mut R, path: &[Name]) -> Result<Made, AllocError>
    ensures { IfOk result (λ m. MakesPlace R.asks remote.old path.now m remote.new) }
{
    let made = ask_on(alloc, remote, Deed::MakeDir, path)?;
    place_if(alloc, remote, is_taken(&made), path, &made)
}

/// A directory is made for a folder, where there is none.
fn make_place<R: Remote>(alloc: Global, remote: &mut R, path: &[Name]) -> Result<Made, AllocError>
    ensures { IfOk result (λ m. Places R.asks remote.old path.now m remote.new) }
{
    match path {
        [] => Ok(Made::There),
        [_name, ..] => make_named(alloc, remote, path),
    }
}

/// Whether a file stands there.
fn is_in_the_way(made: Made) -> bool
    ensures { result ≡ is_in_the_way made }
{
    matches!(made, Made::None(Why::Refused(NOTDIR)))
}

/// Whether a file that stands there goes.
fn may_go(made: Made, deletes: bool) -> bool
    ensures { result ≡ (is_in_the_way made && deletes) }
{
    is_in_the_way(made) && deletes
}

/// What came of a directory, and whether a file went for it.
fn placed(went: bool, made: Made) -> Place
    ensures { result ≡ placed went made }
{
    Place { made, went }
}

/// A directory is made in the place of a file that was removed.
fn make_again<R: Remote>(alloc: Global, remote: &mut R, path: &[Name]) -> Result<Place, AllocError>
    ensures { IfOk result (λ p. MakesAgain R.asks remote.old path.now p remote.new) }
{
    let again = make_place(alloc, remote, path)?;
    Ok(placed(true, again))
}

/// The same, where it was removed. Where it wasn't, that is why there is no directory.
fn again_if<R: Remote>(
    alloc: Global,
    remote: &mut R,
    path: &[Name],
    gone: &Answer,
) -> Result<Place, AllocError>
    ensures { IfOk result (λ p. AgainIf R.asks remote.old path.now gone.now p remote.new) }
{
    match gone {
        Answer::Done => make_again(alloc, remote, path),
        gone => Ok(placed(false, Made::None(why_of(gone)))),
    }
}

/// A file goes, and a directory is made in its place.
fn make_instead<R: Remote>(
    alloc: Global,
    remote: &mut R,
    path: &[Name],
) -> Result<Place, AllocError>
    ensures { IfOk result (λ p. MakesInstead R.asks remote.old path.now p remote.new) }
{
    let gone = ask_on(alloc, remote, Deed::Remove, path)?;
    again_if(alloc, remote, path, &gone)
}

/// A directory is made in the place of a file, where that goes.
fn over_if<R: Remote>(
    alloc: Global,
    remote: &mut R,
    may_go: bool,
    path: &[Name],
    before: Made,
) -> Result<Place, AllocError>
    ensures { IfOk result (λ p. OverIf R.asks remote.old may_go path.now before p remote.new) }
{
    if may_go {
        make_instead(alloc, remote, path)
    } else {
        Ok(placed(false, before))
    }
}

/// A directory is made for a folder, where there is none, also where a file stands that may go.
pub fn make_place_over<R: Remote>(
    alloc: Global,
    remote: &mut R,
    path: &[Name],
    deletes: bool,
) -> Result<Place, AllocError>
    ensures { IfOk result (λ p. PlacesOver R.asks remote.old path.now deletes p remote.new) }
{
    let before = make_place(alloc, remote, path)?;
    over_if(alloc, remote, may_go(before, deletes), path, before)
}

/// A directory is listed, where that is wanted; else nothing is asked.
pub fn list_if<R: Remote>(
    alloc: Global,
    remote: &mut R,
    is_wanted: bool,
    path: &[Name],
) -> Result<Answer, AllocError>
    ensures { IfOk result (λ a. ListsIf R.asks remote.old is_wanted path.now a remote.new) }
{
    if is_wanted {
        ask_on(alloc, remote, Deed::List, path)
    } else {
        Ok(Answer::Done)
    }
}

/// Why there is no directory, if there is none.
fn not_made(made: Made) -> Option<Why>
    ensures { result ≡ not_made made }
{
    match made {
        Made::None(why) => Some(why),
        _ => None,
    }
}

/// Why there is no directory, if there is none.
pub fn no_place(place: Place) -> Option<Why>
    ensures { result ≡ no_place place }
{
    not_made(place.made)
}

/// Whether nothing is in a directory yet.
fn is_made(made: Made) -> bool
    ensures { result ≡ is_made made }
{
    !matches!(made, Made::There)
}

/// Whether nothing is in a directory yet.
pub fn is_new(place: Place) -> bool
    ensures { result ≡ is_new place }
{
    is_made(place.made)
}

/// What is said of a file that went for a directory.
fn went_news(alloc: Global, path: &[Name], went: bool) -> Result<Bytes, AllocError>
    ensures { IfOk result (λ news. news ≡ went_news path.now went) }
{
    if went {
        path_line(alloc, path, REMOVED)
    } else {
        Ok(Items::new(alloc))
    }
}

/// What is said of a directory that was made.
fn made_news(alloc: Global, path: &[Name], made: Made) -> Result<Bytes, AllocError>
    ensures { IfOk result (λ news. news ≡ made_news path.now made) }
{
    match made {
        Made::New => path_line(alloc, path, MADE),
        _ => Ok(Items::new(alloc)),
    }
}

/// What a sync says of a directory, and of a file that went for it.
pub fn place_news(
    alloc: Global,
    path: &[Name],
    is_said: bool,
    place: Place,
) -> Result<Bytes, AllocError>
    ensures { IfOk result (λ news. news ≡ place_news path.now is_said place) }
{
    if is_said {
        let mut news = went_news(alloc, path, place.went)?;
        let made = made_news(alloc, path, place.made)?;
        news.extend_from_slice(made.as_slice())?;
        Ok(news)
    } else {
        Ok(Items::new(alloc))
    }
}
