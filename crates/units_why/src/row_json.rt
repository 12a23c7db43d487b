//! The JSON format of rows, one object per line.

ghost use Rattle.reply.specs.Options.{AreReplyOptionsPrintable};

use crate::call_trace::{Branch, CallTrace};
use crate::decimal::put_number;
use crate::interval::{End, EndTest};
use crate::json::{
    put_first_member, put_flag_member, put_name, put_number_member, put_text_member,
};
use crate::outcome::{LentOutcome, OwnFault};
use crate::places::{Places, put_place_members};
use crate::row_note::Standing;
use crate::row_style::RowStyle;
use crate::row_view::RowView;
use crate::row_words::{definition_text, fault_word, resolution_word, site_word};
use crate::segment::{Point, Segment};
use crate::shadows::Shadows;
use crate::writer::Writer;
use deck::Deck;
use def_entry::Key;
use reply::Options;
use std::alloc::AllocError;

/// Appends the object of a row.
pub(crate) fn put_row_json(
    out: &mut Writer,
    places: Places<'_>,
    style: RowStyle<'_>,
    view: RowView<'_, '_, '_>,
)
    requires { AreReplyOptionsPrintable style.options.now }
{
    let mention = view.mention;
    put_first_member(out, b"word", mention.word(places.deck));
    put_number_member(out, b"depth", mention.depth());
    put_key_members(out, view);
    match view.note.standing {
        Standing::Unknown => put_text_member(out, b"fault", fault_word(places.deck, mention)),
        Standing::Above => put_flag_member(out, b"above", true),
        Standing::Cycle => put_text_member(out, b"fault", b"cycle"),
        Standing::Defined(place) => {
            put_definition(out, places.deck, view.key, place);
            put_outcome(out, style.options, view.outcome);
            put_place_members(out, places, place);
            put_replaced(out, places, style.shadows, place);
        }
    }
    if let Some(call) = &view.note.call {
        put_call(out, call);
    }
    out.put(b"}\n");
}

// Appends the key of a row, and how the word leads to it.
fn put_key_members(out: &mut Writer, view: RowView<'_, '_, '_>) {
    if let Some(key) = view.key {
        let mut text = out.part();
        text.put_key(key);
        put_part_member(out, b"key", text);
        put_text_member(out, b"how", resolution_word(view.mention, key));
        if let Some(site) = site_word(view.mention.site()) {
            put_text_member(out, b"part", site);
        }
    }
}

fn put_definition(out: &mut Writer, deck: &Deck, key: Option<&Key>, place: usize) {
    if let Some(key) = key {
        if let Some(text) = definition_text(deck, key, place) {
            put_text_member(out, b"text", text);
        }
    }
}

fn put_outcome(out: &mut Writer, options: &Options, outcome: LentOutcome<'_>)
    requires { AreReplyOptionsPrintable options.now }
{
    match outcome {
        LentOutcome::Value(value) => {
            let mut text = out.part();
            text.put_value(options, value);
            put_part_member(out, b"value", text);
        }
        LentOutcome::Fault(fault) => put_fault(out, fault),
        LentOutcome::FaultBelow => put_flag_member(out, b"fault_below", true),
        LentOutcome::Function => {}
    }
}

// Appends a comma and a member whose value is a separate text.
fn put_part_member(out: &mut Writer, name: &[u8], part: Writer) {
    match part.into_text() {
        Ok(text) => put_text_member(out, name, text.as_bytes()),
        Err(AllocError) => out.leave_out(),
    }
}

// Appends the member `fault`, and the member `step` if the step is known, each after a comma.
fn put_fault(out: &mut Writer, fault: &OwnFault) {
    put_text_member(out, b"fault", fault.text.as_bytes());
    if let Some(step) = &fault.step {
        step.put_member(out);
    }
}

// Appends a comma and the member `call`.
fn put_call(out: &mut Writer, call: &CallTrace) {
    put_name(out, b"call");
    out.put(b"{\"branch\":");
    out.put(match call.branch {
        Branch::Forward => b"\"forward\"".as_slice(),
        Branch::Inverse => b"\"inverse\"".as_slice(),
    });
    put_text_member(out, b"operand", call.operand.as_bytes());
    for test in call.tests.as_slice() {
        put_test(out, test);
    }
    if let Some(segment) = &call.segment {
        put_segment(out, segment);
    }
    out.put_byte(b'}');
}

// Appends a comma and the member `domain` or `range`.
fn put_test(out: &mut Writer, test: &EndTest) {
    let name = match test.end {
        End::Domain => b"domain".as_slice(),
        End::Range => b"range".as_slice(),
    };
    put_name(out, name);
    put_first_member(out, b"interval", test.interval.as_bytes());
    put_text_member(out, b"number", test.number.as_bytes());
    put_flag_member(out, b"inside", test.is_inside);
    out.put_byte(b'}');
}

// Appends a comma and the member `segment`, a list of two points.
fn put_segment(out: &mut Writer, segment: &Segment) {
    put_name(out, b"segment");
    out.put_byte(b'[');
    put_point(out, &segment.left);
    out.put_byte(b',');
    put_point(out, &segment.right);
    out.put_byte(b']');
}

fn put_point(out: &mut Writer, point: &Point) {
    put_first_member(out, b"x", point.x.as_bytes());
    put_text_member(out, b"y", point.y.as_bytes());
    out.put_byte(b'}');
}

// Appends the places of the lines that a definition replaces.
fn put_replaced(out: &mut Writer, places: Places<'_>, shadows: &Shadows, place: usize) {
    let mut replaced = shadows.after(place);
    if replaced.is_none() {
        return;
    }
    put_name(out, b"replaces");
    let mut before = b"[".as_slice();
    for _ in 0..places.deck.lines().len() {
        let Some(line) = replaced else {
            break;
        };
        out.put(before);
        put_line_object(out, places, line);
        before = b",".as_slice();
        replaced = shadows.after(line);
    }
    out.put_byte(b']');
}

// Appends the object for a line.
fn put_line_object(out: &mut Writer, places: Places<'_>, place: usize) {
    out.put(b"{\"deck_line\":");
    put_number(out, place);
    put_place_members(out, places, place);
    out.put_byte(b'}');
}
