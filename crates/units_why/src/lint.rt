//! Findings in all definitions, with their places.

ghost use Rattle.reply.specs.Options.{AreReplyOptionsPrintable};

use crate::ambiguous::put_ambiguous;
use crate::captures::put_captures;
use crate::definitions::Definitions;
use crate::entries::key_text_at;
use crate::evaluator::Evaluator;
use crate::finding::{Finding, LineFinding, Severity, push_finding};
use crate::mark::{Mark, mark_of};
use crate::notice_report::put_notices;
use crate::places::{Places, put_place};
use crate::report::{Report, put_findings};
use crate::shadows::Shadows;
use crate::unmet::put_unmet;
use crate::unused_definitions::put_unused;
use crate::writer::Writer;
use command_line::Findings;
use deck::Deck;
use reply::Options;
use std::alloc::{AllocError, Global};
use std::sync::ledger::Ledger;
use survey::check_places;
use units_io::{Files, Text};

/// Reports the findings in the definitions. The lines without effect come first. Then, in the order of the files and
/// their lines, come each key that has a fault, each definition that a later one replaces or that does not conform to
/// the unit in its comment, each word that could be read in another way, and the optional findings that are requested.
pub(crate) fn lint<F: Files, L: Ledger>(
    definitions: &mut Definitions<L>,
    options: &Options,
    asked: Findings,
    json: bool,
    files: &mut F,
) -> Result<Writer, AllocError>
    requires { AreReplyOptionsPrintable options.now }
{
    let alloc = definitions.evaluator.alloc;
    let findings = all_findings(definitions, options, asked, files)?;
    let places = Places::of(definitions);
    let report = Report {
        alloc,
        places,
        json,
    };
    let mut out = Writer::new(alloc);
    put_notices(report, files, &mut out)?;
    put_findings(report, files, findings.as_slice(), &mut out)?;
    Ok(out)
}

// Returns all findings except the notices of the load.
fn all_findings<F: Files, L: Ledger>(
    definitions: &mut Definitions<L>,
    options: &Options,
    asked: Findings,
    files: &mut F,
) -> Result<Vec<LineFinding>, AllocError>
    requires { AreReplyOptionsPrintable options.now }
{
    let evaluator = &mut definitions.evaluator;
    let alloc = evaluator.alloc;
    let keys = check_places(alloc, &mut *evaluator.table, &mut evaluator.steps)?;
    let mut findings = Vec::new(alloc);
    put_faults(evaluator, options, keys.as_slice(), &mut findings)?;
    put_unmet(definitions, options, keys.as_slice(), files, &mut findings)?;
    let evaluator = &mut definitions.evaluator;
    put_uses(evaluator, options, asked, keys.as_slice(), &mut findings)?;
    put_replaced(alloc, Places::of(definitions), &mut findings)?;
    Ok(findings)
}

// Appends the findings about the words of the definitions at the places `keys`, and the optional findings that are
// requested.
fn put_uses<L: Ledger>(
    evaluator: &mut Evaluator<L>,
    options: &Options,
    asked: Findings,
    keys: &[usize],
    findings: &mut Vec<LineFinding>,
) -> Result<(), AllocError>
    requires { AreReplyOptionsPrintable options.now }
{
    put_ambiguous(evaluator, keys, findings)?;
    if asked.captures {
        put_captures(evaluator, options, keys, findings)?;
    }
    if asked.unused {
        put_unused(evaluator, keys, findings)?;
    }
    Ok(())
}

// Appends a finding for each of the keys at the places `keys` that has a fault.
fn put_faults<L: Ledger>(
    evaluator: &mut Evaluator<L>,
    options: &Options,
    keys: &[usize],
    findings: &mut Vec<LineFinding>,
) -> Result<(), AllocError>
    requires { AreReplyOptionsPrintable options.now }
{
    let alloc = evaluator.alloc;
    let mut line = Vec::new(alloc);
    for place in keys {
        evaluator.put_check(&mut line, options, *place)?;
        if !line.is_empty() {
            let finding = fault_finding(alloc, evaluator.deck(), *place, line.as_slice())?;
            push_finding(findings, *place, finding)?;
            line.clear();
        }
    }
    Ok(())
}

// Returns the finding for a line `KEY: MESSAGE` of a check report.
fn fault_finding(
    alloc: Global,
    deck: &Deck,
    place: usize,
    line: &[u8],
) -> Result<Finding, AllocError> {
    let key = key_text_at(alloc, deck, place)?;
    let message = message_in(line, key.as_bytes());
    Ok(Finding {
        severity: Severity::Error,
        message: Text::from_bytes(alloc, message)?,
        mark: mark_of(alloc, key.as_bytes(), message)?,
    })
}

fn message_in<'a>(line: &'a [u8], key: &[u8]) -> &'a [u8] {
    let line = line.strip_suffix(b"\n").unwrap_or(line);
    let rest = line.strip_prefix(key).unwrap_or(line);
    rest.strip_prefix(b": ").unwrap_or(rest)
}

// Appends a finding for each definition that a later one replaces.
fn put_replaced(
    alloc: Global,
    places: Places<'_>,
    findings: &mut Vec<LineFinding>,
) -> Result<(), AllocError> {
    let shadows = Shadows::of(alloc, places.deck)?;
    for place in 0..places.deck.lines().len() {
        if let Some(last) = shadows.line_in_force(places.deck, place) {
            push_finding(findings, place, replaced_finding(alloc, places, last)?)?;
        }
    }
    Ok(())
}

// Returns the finding for a definition that the one at `last` replaces.
fn replaced_finding(alloc: Global, places: Places<'_>, last: usize) -> Result<Finding, AllocError> {
    let mut message = Writer::new(alloc);
    message.put(b"replaced by the definition at ");
    put_place(&mut message, places, last);
    Ok(Finding {
        severity: Severity::Warning,
        message: message.into_text()?,
        mark: Mark::Name,
    })
}
