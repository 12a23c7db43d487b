//! The text format of rows, one line per row.

ghost use Rattle.reply.specs.Options.{AreReplyOptionsPrintable};

use crate::call_trace::{Branch, CallTrace};
use crate::decimal::put_number_between;
use crate::interval::{End, EndTest};
use crate::outcome::{LentOutcome, OwnFault};
use crate::places::{Places, put_place};
use crate::row_note::Standing;
use crate::row_style::RowStyle;
use crate::row_view::RowView;
use crate::row_words::{
    definition_text, fault_word, put_name, resolution_word, rewritten_word, site_word,
};
use crate::segment::{Point, Segment};
use crate::shadows::Shadows;
use crate::writer::Writer;
use deck::Deck;
use def_entry::{Key, Kind};
use reply::Options;
use value_sources::{Resolution, StoredMention};

// A row is indented by two blanks for each row above it, up to this many rows. Deeper rows begin with their depth, so
// that the output for a long chain does not grow with the square of its length.
const MOST_INDENTED: usize = 20;

const BLANKS: &[u8] = b"                                        ";

/// Appends the line of a row, and a line for its call if its word is a function that is called.
pub(crate) fn put_row_text(
    out: &mut Writer,
    places: Places<'_>,
    style: RowStyle<'_>,
    view: RowView<'_, '_, '_>,
)
    requires { AreReplyOptionsPrintable style.options.now }
{
    let deck = places.deck;
    let depth = view.mention.depth();
    put_indent(out, depth);
    put_name(out, deck, view);
    match view.note.standing {
        Standing::Unknown => put_unknown(out, deck, view.mention),
        Standing::Above => put_mention(out, deck, view, b"see above\n"),
        Standing::Cycle => put_mention(out, deck, view, b"a cycle: this definition is above\n"),
        Standing::Defined(place) => {
            put_definition(out, deck, view, place);
            put_outcome(out, style.options, view.outcome);
            put_places(out, places, style.shadows, place);
        }
    }
    if let Some(call) = &view.note.call {
        put_call(out, depth, call);
    }
}

// Appends the fault of a word that leads to no definition.
fn put_unknown(out: &mut Writer, deck: &Deck, mention: &StoredMention) {
    out.put(b": ");
    out.put(fault_word(deck, mention));
    out.put_byte(b'\n');
}

// Appends the line of a call.
fn put_call(out: &mut Writer, depth: usize, call: &CallTrace) {
    put_indent(out, depth.saturating_add(1));
    out.put(match call.branch {
        Branch::Forward => b"called at ".as_slice(),
        Branch::Inverse => b"its inverse is called at ".as_slice(),
    });
    out.put(call.operand.as_bytes());
    for test in call.tests.as_slice() {
        put_test(out, test);
    }
    if let Some(segment) = &call.segment {
        put_segment(out, segment);
    }
    out.put_byte(b'\n');
}

// Appends a number and the interval that it was tested against.
fn put_test(out: &mut Writer, test: &EndTest) {
    out.put(b"; ");
    out.put(test.number.as_bytes());
    out.put(if test.is_inside {
        b" is in the ".as_slice()
    } else {
        b" is not in the ".as_slice()
    });
    out.put(match test.end {
        End::Domain => b"domain ".as_slice(),
        End::Range => b"range ".as_slice(),
    });
    out.put(test.interval.as_bytes());
}

// Appends the two points of a segment.
fn put_segment(out: &mut Writer, segment: &Segment) {
    out.put(b"; between the points ");
    put_point(out, &segment.left);
    out.put(b" and ");
    put_point(out, &segment.right);
}

fn put_point(out: &mut Writer, point: &Point) {
    out.put(point.x.as_bytes());
    out.put_byte(b' ');
    out.put(point.y.as_bytes());
}

// Appends the blanks before a row. A deep row has its depth after them.
fn put_indent(out: &mut Writer, depth: usize) {
    if depth > MOST_INDENTED {
        out.put(BLANKS);
        put_number_between(out, b'(', depth, [b')', b' ']);
    } else {
        out.put(BLANKS.get(..2 * depth).unwrap_or(b""));
    }
}

// Appends how the word leads to its key, and the text of the definition.
fn put_definition(out: &mut Writer, deck: &Deck, view: RowView<'_, '_, '_>, place: usize) {
    if let Some(key) = view.key {
        put_lead(out, deck, view.mention, key);
        if let Some(text) = definition_text(deck, key, place) {
            out.put(text);
        }
    }
}

// Appends how the word leads to its key, followed by `words`.
fn put_mention(out: &mut Writer, deck: &Deck, view: RowView<'_, '_, '_>, words: &[u8]) {
    match view.key {
        Some(key) => put_lead(out, deck, view.mention, key),
        None => out.put(b": "),
    }
    out.put(words);
}

// Appends how the word leads to its key: the kind of the key, the word if it differs from the name, and the part of the
// definition above that contains the word.
fn put_lead(out: &mut Writer, deck: &Deck, mention: &StoredMention, key: &Key) {
    let site = site_word(mention.site());
    if let (Kind::Unit, Resolution::Name, None) = (key.kind, mention.resolution(), site) {
        return out.put(b": unit, ");
    }
    out.put(b": ");
    out.put(resolution_word(mention, key));
    if let Some(word) = rewritten_word(deck, mention, key) {
        out.put(b" in ");
        out.put(word);
    }
    if let Some(site) = site {
        out.put(b" (");
        out.put(site);
        out.put_byte(b')');
    }
    out.put(b", ");
}

fn put_outcome(out: &mut Writer, options: &Options, outcome: LentOutcome<'_>)
    requires { AreReplyOptionsPrintable options.now }
{
    match outcome {
        LentOutcome::Value(value) => {
            out.put(b" = ");
            out.put_value(options, value);
        }
        LentOutcome::Fault(fault) => put_fault(out, fault),
        LentOutcome::FaultBelow => out.put(b" ! see below"),
        LentOutcome::Function => {}
    }
}

// Appends a fault, and the step without a value if it is known.
fn put_fault(out: &mut Writer, fault: &OwnFault) {
    out.put(b" ! ");
    out.put(fault.text.as_bytes());
    if let Some(step) = &fault.step {
        out.put(b" in ");
        step.put_text(out);
    }
}

// Appends the place of a definition, the places of the definitions that it replaces, and the end of the line.
fn put_places(out: &mut Writer, places: Places<'_>, shadows: &Shadows, place: usize) {
    out.put(b" [");
    match (places.line(place), shadows.after(place)) {
        (Some(line), None) => {
            out.put(line.file);
            put_number_between(out, b':', line.number, [b']', b'\n']);
        }
        (_, replaced) => {
            put_place(out, places, place);
            put_replaced(out, places, shadows, replaced);
            out.put(b"]\n");
        }
    }
}

// Appends the places of the lines that a definition replaces, of which `first` is the first.
fn put_replaced(out: &mut Writer, places: Places<'_>, shadows: &Shadows, first: Option<usize>) {
    let mut words = b"; replaces ".as_slice();
    let mut replaced = first;
    for _ in 0..places.deck.lines().len() {
        let Some(line) = replaced else {
            break;
        };
        out.put(words);
        put_place(out, places, line);
        words = b", ".as_slice();
        replaced = shadows.after(line);
    }
}
