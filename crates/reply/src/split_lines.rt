//! Writes the line with the counts of the parts of a list.

ghost use Rattle.std.specs.Prelude.{◌≡◌, ◌++◌, OnOk};
ghost use Rattle.std.specs.Option.{option_copied};
ghost use Rattle.digits_print.specs.Styles.{IsPrintStyle};
ghost use Rattle.reply.specs.Lines as spec;
ghost use Rattle.reply.specs.Targets.{conversion_target_parts, conversion_target_parts_after_cut};

use crate::form::{Form, Layout};
use crate::lines::{put_front, put_tab};
use crate::parts::cut_part;
use crate::text_writer::put_number;
use frac128::Frac;
use std::alloc::{AllocError, Global};

/// The text of a list, and the counts of its parts.
#[derive(Clone, Copy)]
pub(crate) struct PartCounts<'a> {
    pub(crate) list: &'a [u8],
    pub(crate) counts: &'a [Frac],
}

/// Appends the line with the counts of the parts of a list.
pub(crate) fn put_split(
    alloc: Global,
    text: &mut Vec<u8>,
    form: Form,
    from: &[u8],
    parts: PartCounts<'_>,
) -> Result<(), AllocError>
    requires { IsPrintStyle form.style }
    ensures { OnOk result (text.new.items
        ≡ text.old.items ++ spec.split_conversion_text form from.now parts.entry.list.now parts.entry.counts.now) }
{
    put_tab(text, form.layout)?;
    put_front(text, form.layout, from)?;
    put_counts(alloc, text, form, parts.list, parts.counts)?;
    text.extend_from_slice(b"\n".as_slice())?;
    Ok(())
}

// Appends the counts of all parts.
fn put_counts(
    alloc: Global,
    text: &mut Vec<u8>,
    form: Form,
    list: &[u8],
    counts: &[Frac],
) -> Result<(), AllocError>
    requires { IsPrintStyle form.style }
    ensures { OnOk result (text.new.items
        ≡ text.old.items ++ spec.conversion_counts_text form (conversion_target_parts list.now) counts.now) }
{
    let (part, behind) = cut_part(list);
    match counts.split_first() {
        Some((count, further)) => {
            put_count(alloc, text, form, part, count)?;
            put_further(alloc, text, form, behind, further)
        }
        None => Ok(()),
    }
}

// Appends the counts of the parts after the first.
fn put_further(
    alloc: Global,
    text: &mut Vec<u8>,
    form: Form,
    list: Option<&[u8]>,
    counts: &[Frac],
) -> Result<(), AllocError>
    requires { IsPrintStyle form.style }
    ensures { OnOk result (text.new.items
        ≡ text.old.items ++ spec.conversion_further_counts_text form
        (conversion_target_parts_after_cut (option_copied list.entry)) counts.now) }
{
    let mut rest = list;
    for count in counts {
        let Some(list) = rest else {
            return Ok(());
        };
        let (part, behind) = cut_part(list);
        put_between(text, form.layout)?;
        put_count(alloc, text, form, part, count)?;
        rest = behind;
    }
    Ok(())
}

// Appends the count of one part.
fn put_count(
    alloc: Global,
    text: &mut Vec<u8>,
    form: Form,
    part: &[u8],
    count: &Frac,
) -> Result<(), AllocError>
    requires { IsPrintStyle form.style }
    ensures { OnOk result (text.new.items ≡ text.old.items ++ spec.conversion_count_text form part.now count.now) }
{
    put_number(alloc, text, form.style, count)?;
    match form.layout {
        Layout::Compact => Ok(()),
        Layout::Plain | Layout::Verbose => {
            text.extend_from_slice(b" ".as_slice())?;
            text.extend_from_slice(part)?;
            Ok(())
        }
    }
}

// Appends the separator of two counts.
fn put_between(text: &mut Vec<u8>, layout: Layout) -> Result<(), AllocError>
    ensures { OnOk result (text.new.items ≡ text.old.items ++ spec.layout_count_separator layout) }
{
    match layout {
        Layout::Compact => text.extend_from_slice(b";".as_slice())?,
        Layout::Plain | Layout::Verbose => text.extend_from_slice(b" + ".as_slice())?,
    }
    Ok(())
}
