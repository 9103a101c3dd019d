//! All records that break a rule: `broken` in `specs/Rules.antt`, by what stands with each record, as in
//! `rules`.

ghost use Rattle.std.specs.Prelude.{◌≡◌, ◌<◌, ◌≤◌, ◌++◌, None, Some, length, drop, IfOk, OnOk};
ghost use Rattle.tree_reading.specs.Tree.{tree_most};
ghost use Rattle.tree_load.specs.Breaches.{content_rule_by, node_rule_by, stray_by};
ghost use Rattle.tree_load.specs.Known.{IsKnown};
ghost use Rattle.tree_load.specs.Rules.{breach, broken, broken_from, held_to, head_rule, misfit, rule_of, sum_with, unless, widest};

use crate::firsts::Found;
use crate::load::first_head;
use crate::rule::{Broken, Rule};
use crate::rules::{
    Around, Known, fits, found_place, is_at, is_directory_at, is_file_at, is_head_well,
    is_name_well, learn, size_of, stands_with,
};
use limits::{CHANGES_MOST, FILE_MOST, TREE_MOST};
use std::alloc::{AllocError, Global};
use store::record::{ContentRecord, Head, Kept, NodeKind, NodeRecord};

/// A rule where it isn't kept, else what is broken later.
fn unless(is_kept: bool, rule: Rule, later: Option<Rule>) -> Option<Rule>
    ensures { result ≡ unless is_kept rule later }
{
    if is_kept { later } else { Some(rule) }
}

/// What is wrong with a node whose content doesn't fit.
fn misfit(kind: NodeKind) -> Rule
    ensures { result ≡ misfit kind }
{
    match kind {
        NodeKind::File => Rule::NoContent,
        NodeKind::Directory => Rule::HasContent,
    }
}

/// The rule that a node breaks first, by what stands with it.
fn node_rule(head: Head, place: usize, node: &NodeRecord, around: Around) -> Option<Rule>
    ensures { result ≡ node_rule_by head place node.now around }
{
    let fits = fits(node.kind, place, around.content);
    let content = unless(fits, misfit(node.kind), None);
    let reached = unless(around.reaches, Rule::Unreached, content);
    let named = unless(is_at(place, around.named), Rule::NameTwice, reached);
    let spelt = unless(is_name_well(node.name.as_slice()), Rule::Name, named);
    let is_below = node.parent == 1 || is_directory_at(around.above);
    let below = unless(is_below, Rule::NoDirectory, spelt);
    let first = unless(is_at(place, found_place(around.own)), Rule::IdTwice, below);
    unless(2 <= node.id && node.id < head.next, Rule::Id, first)
}

/// What is wrong with a content that is no file's.
fn stray(own: Option<Found>) -> Rule
    ensures { result ≡ stray_by own }
{
    match own {
        Some(_) => Rule::OfDirectory,
        None => Rule::NoFile,
    }
}

/// The rule that a content breaks first, by what stands with it.
fn content_rule(
    head: Head,
    place: usize,
    sum: u64,
    content: &ContentRecord,
    own: Option<Found>,
    first: Option<usize>,
) -> Option<Rule>
    requires { sum ≤ tree_most }
    ensures { result ≡ content_rule_by head place sum content.now own first }
{
    let len = content.bytes.len() as u64;
    let full = unless(
        sum as u128 + len as u128 <= TREE_MOST as u128,
        Rule::TreeFull,
        None,
    );
    let big = unless(len <= FILE_MOST, Rule::TooBig, full);
    let is_counted = 1 <= content.version && content.version <= head.changes;
    let versioned = unless(is_counted, Rule::Version, big);
    let once = unless(is_at(place, first), Rule::ContentTwice, versioned);
    unless(is_file_at(place, own), stray(own), once)
}

/// The rule that a record breaks first, where the contents before it have so many bytes.
#[tactic(auto, using(crate::proofs::Broken::node_same, crate::proofs::Broken::content_same))]
pub(crate) fn rule_of<'a>(
    head: Head,
    records: &[Kept],
    known: &Known<'a>,
    place: usize,
    sum: u64,
    one: &'a Kept,
) -> Option<Rule>
    requires known { IsKnown records.now known.now }
    requires within { place < length records.now }
    requires sum { sum ≤ tree_most }
    ensures { result ≡ rule_of head records.now place sum one.now }
{
    match one {
        Kept::Head(_) => Some(Rule::SecondHead),
        Kept::Node(node) => {
            let around = stands_with(records, known, place, node);
            node_rule(head, place, node, around)
        }
        Kept::Content(content) => {
            let own = known.nodes.get(&content.id).copied();
            let first = known.contents.get(&content.id).copied();
            content_rule(head, place, sum, content, own, first)
        }
    }
}

/// Adds a record that breaks this rule, if it breaks one.
fn add(found: &mut Vec<Broken>, which: usize, rule: Option<Rule>) -> Result<(), AllocError>
    ensures { OnOk result (found.new.items ≡ found.old.items ++ breach which rule) }
{
    if let Some(rule) = rule {
        found.push(Broken { which, rule })?;
    }
    Ok(())
}

/// The bytes of the contents so far, with those of a record that breaks no rule.
#[tactic(auto, using(crate::proofs::Broken::sum_small))]
fn sum_with<'a>(
    head: Head,
    records: &[Kept],
    known: &Known<'a>,
    place: usize,
    sum: u64,
    one: &'a Kept,
    rule: Option<Rule>,
) -> u64
    requires sum { sum ≤ tree_most }
    requires rule { rule ≡ rule_of head records.now place sum one.now }
    ensures sum { result ≡ sum_with rule sum one.now }
    ensures small { result ≤ tree_most }
{
    // The contract alone names it.
    let _known = known;
    match rule {
        None => sum + size_of(one),
        Some(_) => sum,
    }
}

/// Adds all from a record on that break a rule.
fn add_from<'a>(
    head: Head,
    records: &'a [Kept],
    known: &Known<'a>,
    from: usize,
    found: Vec<Broken>,
) -> Result<Vec<Broken>, AllocError>
    requires known { IsKnown records.now known.now }
    ensures { IfOk result (λ v. v.items ≡ found.items ++ broken_from head records.now from 0 (drop from records.now)) }
{
    let mut found = found;
    let mut sum = 0;
    for place in from..records.len() {
        let one = &records[place];
        let rule = rule_of(head, records, known, place, sum, one);
        sum = sum_with(head, records, known, place, sum, one, rule);
        add(&mut found, place, rule)?;
    }
    Ok(found)
}

/// A head that no id and no version is past.
fn widest() -> Head
    ensures { result ≡ widest }
{
    Head {
        next: (1 << 63) + CHANGES_MOST,
        changes: CHANGES_MOST,
    }
}

/// The head that the others are held to.
fn held_to(is_well: bool, head: Head) -> Head
    ensures { result ≡ held_to is_well head }
{
    if is_well { head } else { widest() }
}

/// All records that break a rule, each with the first that it breaks. The one error is running out of memory.
#[tactic(auto, using(crate::proofs::Broken::by_broken))]
pub fn broken(alloc: Global, records: &[Kept]) -> Result<Vec<Broken>, AllocError>
    ensures { IfOk result (λ v. v.items ≡ broken records.now) }
{
    let mut found = Vec::new(alloc);
    if records.is_empty() {
        return Ok(found);
    }
    let known = learn(alloc, records)?;
    match first_head(records) {
        Some(head) => {
            let is_well = is_head_well(head);
            add(&mut found, 0, unless(is_well, Rule::HeadLimits, None))?;
            add_from(held_to(is_well, head), records, &known, 1, found)
        }
        None => {
            add(&mut found, 0, Some(Rule::Headless))?;
            add_from(widest(), records, &known, 0, found)
        }
    }
}
