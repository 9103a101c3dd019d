//! The report on a store: `report` of `specs/Report.antt`.

ghost use Rattle.std.specs.Prelude.{◌≡◌, ◌++◌, Some, IfOk, OnOk, flat_map, map, string_bytes};
ghost use Rattle.store_report.specs.Report.{broken_line, bytes_text, directories_text, files_text, finding_line, first_broken, first_of, id_of, line_of, name_of, other_text, parent_of, report};
ghost use Rattle.store_report.specs.Report.{report_if, subject_name, text_in, whole_text};

use crate::subject::{Subject, rule_text, subject_of};
use lb_base::items::{Bytes, Items};
use std::alloc::{AllocError, Global};
use std::fmt::Write;
use store::record::Kept;
use synced_store::checks::CheckedStore;
use tree_load::breaches::broken;
use tree_load::counts::{Counts, counts_of};
use tree_load::rule::{Broken, Rule};

/// What is said of a store.
#[derive(Drop)]
pub struct Report {
    /// Whether no file breaks a rule.
    pub is_whole: bool,
    pub text: Bytes,
}

/// The id of a record; a head has none.
fn id_of(kept: &Kept) -> u64
    ensures { result ≡ id_of kept.now }
{
    match kept {
        Kept::Head(_) => 0,
        Kept::Node(node) => node.id,
        Kept::Content(content) => content.id,
    }
}

/// Writes the name of a record's file.
fn put_name(out: &mut String, kept: &Kept) -> Result<(), AllocError>
    ensures { OnOk result (string_bytes out.new ≡ string_bytes out.old ++ name_of kept.now) }
{
    let id = id_of(kept);
    match kept {
        Kept::Head(_) => out.push_str("head"),
        Kept::Node(_) => write!(out, "n{id}"),
        Kept::Content(_) => write!(out, "c{id}"),
    }
}

/// Writes the name of the file at fault.
fn put_subject(out: &mut String, subject: Subject, kept: &Kept) -> Result<(), AllocError>
    ensures { OnOk result (string_bytes out.new ≡ string_bytes out.old ++ subject_name subject kept.now) }
{
    let id = id_of(kept);
    match subject {
        Subject::Head => out.push_str("head"),
        Subject::Node => write!(out, "n{id}"),
        Subject::Content => write!(out, "c{id}"),
        Subject::Own => put_name(out, kept),
        Subject::Child => put_name(out, kept),
    }
}

/// The id of a record's directory; only a node has one.
fn parent_of(kept: &Kept) -> u64
    ensures { result ≡ parent_of kept.now }
{
    match kept {
        Kept::Node(node) => node.parent,
        Kept::Head(_) => 0,
        Kept::Content(_) => 0,
    }
}

/// Writes which other file the fault may be of.
fn put_other(out: &mut String, subject: Subject, kept: &Kept) -> Result<(), AllocError>
    ensures { OnOk result (string_bytes out.new ≡ string_bytes out.old ++ other_text subject kept.now) }
{
    match subject {
        Subject::Head => Ok(()),
        Subject::Node => Ok(()),
        Subject::Content => Ok(()),
        Subject::Own => Ok(()),
        Subject::Child => {
            let parent = parent_of(kept);
            write!(out, ": n{parent}")
        }
    }
}

/// Writes the line of a record that breaks a rule.
fn put_line(out: &mut String, rule: Rule, kept: &Kept) -> Result<(), AllocError>
    ensures { OnOk result (string_bytes out.new ≡ string_bytes out.old ++ line_of rule (Some kept.now)) }
{
    put_subject(out, subject_of(rule), kept)?;
    out.push_str(": ")?;
    out.push_str(rule_text(rule))?;
    put_other(out, subject_of(rule), kept)?;
    out.push_str("\n")
}

/// Writes the line of one of the records that break a rule.
fn put_broken(out: &mut String, records: &[Kept], one: &Broken) -> Result<(), AllocError>
    ensures { OnOk result (string_bytes out.new ≡ string_bytes out.old ++ broken_line records.now one.now) }
{
    match records.get(one.which) {
        Some(kept) => put_line(out, one.rule, kept),
        None => Ok(()),
    }
}

/// Writes the lines of the records that break a rule.
fn put_all_broken(out: &mut String, records: &[Kept], all: &[Broken]) -> Result<(), AllocError>
    ensures { OnOk result (string_bytes out.new ≡ string_bytes out.old ++ flat_map (broken_line records.now) all.now) }
{
    for one in all {
        put_broken(out, records, one)?;
    }
    Ok(())
}

/// Writes a line that was found.
fn put_finding(out: &mut String, finding: &String) -> Result<(), AllocError>
    ensures { OnOk result (string_bytes out.new ≡ string_bytes out.old ++ finding_line (string_bytes finding.now)) }
{
    out.push_str(finding.as_str())?;
    out.push_str("\n")
}

/// Writes the lines that were found.
fn put_findings(out: &mut String, findings: &[String]) -> Result<(), AllocError>
    ensures { OnOk result (string_bytes out.new ≡ string_bytes out.old ++ flat_map finding_line (map (λ w. string_bytes w) findings.now)) }
{
    for finding in findings {
        put_finding(out, finding)?;
    }
    Ok(())
}

/// Writes that a store is whole, and how many files it has.
#[tactic(auto, unfolding(crate::specs::Report::files_text))]
fn put_files(out: &mut String, files: u128) -> Result<(), AllocError>
    ensures { OnOk result (string_bytes out.new ≡ string_bytes out.old ++ files_text files) }
{
    write!(out, "whole files {files}")
}

/// Writes how many directories it has.
#[tactic(auto, unfolding(crate::specs::Report::directories_text))]
fn put_directories(out: &mut String, directories: u128) -> Result<(), AllocError>
    ensures { OnOk result (string_bytes out.new ≡ string_bytes out.old ++ directories_text directories) }
{
    write!(out, " directories {directories}")
}

/// Writes how many bytes its contents have.
#[tactic(auto, unfolding(crate::specs::Report::bytes_text))]
fn put_bytes(out: &mut String, bytes: u128) -> Result<(), AllocError>
    ensures { OnOk result (string_bytes out.new ≡ string_bytes out.old ++ bytes_text bytes) }
{
    write!(out, " bytes {bytes}\n")
}

/// Writes that a store is whole, with what it has.
fn put_whole(out: &mut String, counts: Counts) -> Result<(), AllocError>
    ensures { OnOk result (string_bytes out.new ≡ string_bytes out.old ++ whole_text counts) }
{
    put_files(out, counts.files)?;
    put_directories(out, counts.directories)?;
    put_bytes(out, counts.bytes)
}

/// What is said of a store with these findings and these records that break a rule.
fn report_if(
    alloc: Global,
    is_whole: bool,
    findings: &[String],
    records: &[Kept],
    faults: &[Broken],
) -> Result<Report, AllocError>
    ensures { IfOk result (λ r. (r.is_whole, r.text) ≡ report_if is_whole (map (λ w. string_bytes w) findings.now) records.now faults.now) }
{
    let mut out = String::new(alloc);
    if is_whole {
        put_whole(&mut out, counts_of(records))?;
    } else {
        put_findings(&mut out, findings)?;
        put_all_broken(&mut out, records, faults)?;
    }
    Ok(Report {
        is_whole,
        text: Items::from_vec(out.into_bytes()),
    })
}

/// What is said of a store in which this was found. The one error is running out of memory.
#[tactic(auto, using(crate::proofs::Lines::length_texts))]
pub fn report_of(alloc: Global, found: &CheckedStore) -> Result<Report, AllocError>
    ensures { IfOk result (λ r. (r.is_whole, r.text) ≡ report (map (λ w. string_bytes w) found.now.findings.items) found.now.records.items) }
{
    let records = found.records.as_slice();
    let findings = found.findings.as_slice();
    let faults = broken(alloc, records)?;
    let faults = faults.as_slice();
    let is_whole = findings.is_empty() && faults.is_empty();
    report_if(alloc, is_whole, findings, records, faults)
}

/// The line of the first of the records that break a rule, if there is one.
fn line_of_first(
    alloc: Global,
    records: &[Kept],
    faults: &[Broken],
) -> Result<Option<String>, AllocError>
    ensures { IfOk result (λ line. text_in line ≡ first_of records.now faults.now) }
{
    let Some(first) = faults.first() else {
        return Ok(None);
    };
    let mut line = String::new(alloc);
    put_broken(&mut line, records, first)?;
    Ok(Some(line))
}

/// The line of the first record that breaks a rule, where every file is read as its record; else nothing. The
/// one error is running out of memory.
pub fn first_broken(alloc: Global, found: &CheckedStore) -> Result<Option<String>, AllocError>
    ensures { IfOk result (λ line. text_in line ≡ first_broken (map (λ w. string_bytes w) found.now.findings.items) found.now.records.items) }
{
    if !found.findings.is_empty() {
        return Ok(None);
    }
    let records = found.records.as_slice();
    let faults = broken(alloc, records)?;
    line_of_first(alloc, records, faults.as_slice())
}
