//! READDIR (`specs/Reading.antt`). A page begins at its cookie, with no walk from the start.

ghost use Rattle.std.specs.Prelude.{◌≡◌, ◌+◌, ◌-◌, ◌*◌, ◌/◌, ◌<◌, ◌≤◌, ◌^◌, List, length, take, drop, Ok, IfOk, OnErr};
ghost use Rattle.tree_nodes.specs.Nodes.{names};
ghost use Rattle.tree_nodes.specs.declared.node.Node.{Node};
ghost use Rattle.tree_reading.specs.View.{AreBounded};
ghost use Rattle.tree_reading.specs.Reading.{entry_size, page, listing_of, listed, is_bad_cookie, list, Answers};

use crate::error::TreeError;
use crate::{finding, reading};
use lb_base::items::Items;
use limits::LISTING_MOST;
use nfs3_calls::listing::{Entry, Listing};
use std::alloc::{AllocError, Global};
use tree_nodes::node::Node;
use tree_nodes::nodes::Nodes;
use xdr_codec::status::Status;

/// How many bytes an answer takes without its entries.
const LIST_LEAST: u32 = 104;

/// How many bytes an entry takes in an answer.
fn entry_size(name: &[u8]) -> usize
    ensures { result ≡ entry_size name.now }
{
    24 + 4 * ((name.len() + 3) / 4)
}

/// The entries of nodes in a row, from a cookie on, as many as fit.
#[tactic(auto, using(crate::proofs::Pages::no_node))]
fn page(
    alloc: Global,
    nodes: &Nodes,
    start: usize,
    end: usize,
    cookie: u64,
    room: usize,
) -> Result<Items<Entry>, AllocError>
    requires rises { start ≤ end }
    requires within { end ≤ length nodes.now.nodes }
    requires cookies { cookie + (end - start) < 2 ^ 64 }
    ensures page { IfOk result (λ es. es ≡ page room cookie (take (end - start) (drop start nodes.now.nodes))) }
    ensures takes { OnErr result (0 < length (page room cookie (take (end - start) (drop start nodes.now.nodes)))) }
{
    let mut entries = Vec::new(alloc);
    let mut left = room;
    let mut cookie = cookie;
    let mut at = start;
    'entries: while at < end {
        let Some(node) = nodes.at(at) else {
            return Ok(Items::from_vec(entries));
        };
        let size = entry_size(node.name.as_slice());
        if left < size {
            return Ok(Items::from_vec(entries));
        }
        left -= size;
        cookie += 1;
        at += 1;
        let name = node.name.try_clone(alloc)?;
        entries.push(Entry {
            fileid: node.id,
            name,
            cookie,
        })?;
    }
    Ok(Items::from_vec(entries))
}

/// Whether a cookie was not given by this directory, or before its names changed.
fn is_bad_cookie(nodes: &Nodes, dir: &Node, cookie: u64, verifier: u64) -> bool
    requires { dir.now.id < 2 ^ 64 - 1 }
    ensures { result ≡ is_bad_cookie nodes.now.nodes dir.now cookie verifier }
{
    let (start, end) = nodes.places(dir.id);
    (cookie != 0 && verifier != dir.version) || ((end - start) as u64) < cookie
}

/// How many names a directory has behind a cookie.
#[tactic(auto, using(crate::proofs::Pages::count_behind))]
fn count_behind(nodes: &Nodes, dir: &Node, cookie: u64) -> usize
    requires id { dir.now.id < 2 ^ 64 - 1 }
    requires cookie { cookie ≤ length (names nodes.now.nodes dir.now.id) }
    ensures { result ≡ length (drop cookie (names nodes.now.nodes dir.now.id)) }
{
    let (start, end) = nodes.places(dir.id);
    end - start - cookie as usize
}

/// The entries of a directory behind a cookie, as many as fit.
#[tactic(auto, using(crate::proofs::Pages::behind))]
fn page_behind(
    alloc: Global,
    nodes: &Nodes,
    dir: &Node,
    cookie: u64,
    room: usize,
) -> Result<Items<Entry>, AllocError>
    requires id { dir.now.id < 2 ^ 64 - 1 }
    requires cookie { cookie ≤ length (names nodes.now.nodes dir.now.id) }
    ensures page { IfOk result (λ es. es ≡ page room cookie (drop cookie (names nodes.now.nodes dir.now.id))) }
    ensures takes { OnErr result (0 < length (page room cookie (drop cookie (names nodes.now.nodes dir.now.id)))) }
{
    let (start, end) = nodes.places(dir.id);
    page(alloc, nodes, start + cookie as usize, end, cookie, room)
}

/// What is answered with these entries, where so many names are left.
fn listing_of(
    nodes: &Nodes,
    dir: &Node,
    left: usize,
    entries: Items<Entry>,
) -> Result<Listing, Status>
    requires id { dir.now.id < 2 ^ 64 - 1 }
    requires version { dir.now.version < 2 ^ 32 }
    ensures { (ns : List Node) → left ≡ length ns → result ≡ listing_of nodes.now.nodes dir.now ns entries }
{
    if left != 0 && entries.len() == 0 {
        return Err(Status::TooSmall);
    }
    let eof = entries.len() == left;
    Ok(Listing {
        attr: Some(reading::attr_of(nodes, dir)),
        verifier: dir.version,
        entries,
        eof,
    })
}

/// A page of a directory in an answer of at most so many bytes.
#[tactic(auto, using(crate::proofs::Pages::listing_ok))]
fn listed(
    alloc: Global,
    nodes: &Nodes,
    dir: &Node,
    cookie: u64,
    room: u32,
) -> Result<Listing, TreeError>
    requires id { dir.now.id < 2 ^ 64 - 1 }
    requires version { dir.now.version < 2 ^ 32 }
    requires cookie { cookie ≤ length (names nodes.now.nodes dir.now.id) }
    ensures { Answers (listed nodes.now.nodes dir.now cookie room) result }
{
    if room < LIST_LEAST {
        return Err(TreeError::Refused(Status::TooSmall));
    }
    let left = count_behind(nodes, dir, cookie);
    let entries = page_behind(alloc, nodes, dir, cookie, (room - LIST_LEAST) as usize)?;
    let listing = listing_of(nodes, dir, left, entries)?;
    Ok(listing)
}

/// READDIR: the names behind a cookie, in an answer of at most so many bytes.
#[tactic(auto, using(crate::proofs::lemmas::Found::by_list))]
pub fn list(
    alloc: Global,
    nodes: &Nodes,
    changes: u64,
    dir: u64,
    cookie: u64,
    verifier: u64,
    count: u32,
) -> Result<Listing, TreeError>
    requires { AreBounded nodes.now changes }
    ensures { Answers (list nodes.now.nodes dir cookie verifier count) result }
{
    let dir = finding::directory_within(nodes, changes, dir)?;
    if is_bad_cookie(nodes, dir, cookie, verifier) {
        return Err(TreeError::Refused(Status::BadCookie));
    }
    listed(alloc, nodes, dir, cookie, count.min(LISTING_MOST))
}
