//! The calls on decks, and the words that name them.

use crate::lines::{meaning_of, split_at_space};

// A call, without its argument.
#[derive(Clone, Copy)]
pub(crate) enum Call {
    // A change of the settings for the following loads and edits.
    Setting(Setting),
    // A load of a deck.
    Load(Load),
    // `snapshot` stores the deck for `compare`.
    Snapshot,
    // An edit of the deck.
    Edit(Edit),
    // `splice AT CUT LINE;LINE..` replaces lines.
    Splice,
    // `back` undoes the last splice.
    Back,
    // A query about the deck.
    Query(Query),
    // A query about a key of the deck.
    KeyQuery(KeyQuery),
}

// A change of the settings.
#[derive(Clone, Copy)]
pub(crate) enum Setting {
    // `locale NAME`.
    Locale,
    // `set NAME VALUE`.
    Variable,
}

// A load of a deck.
#[derive(Clone, Copy)]
pub(crate) enum Load {
    // `load FILE` loads a file with its includes.
    File,
    // `text FILE` loads a single file, whose includes count as absent.
    Text,
}

// An edit other than a splice.
#[derive(Clone, Copy)]
pub(crate) enum Edit {
    // `define LINE` adds a line at the end.
    Define,
    // `drop KEY` removes the last line of a key.
    DropLast,
    // `append FILE` adds the lines of a file.
    Append,
    // `switch` makes the settings take effect.
    Switch,
}

// A query about the deck, which is a whole line.
#[derive(Clone, Copy)]
pub(crate) enum Query {
    // `count`: the number of keys of each kind, and the numbers of lines and notices.
    Count,
    // `keys`.
    Keys,
    // `lines`: all lines with their marks.
    Lines,
    // `notices`.
    Notices,
    // `messages`.
    Messages,
    // `defining`: the texts of the lines that define keys.
    Defining,
    // `settings`: those of the deck.
    Settings,
    // `compare`: whether the deck is equal to the snapshot.
    Compare,
}

// A query about a key of the deck.
#[derive(Clone, Copy)]
pub(crate) enum KeyQuery {
    // `entry KEY`: the text of its entry.
    Entry,
    // `place KEY`: the place of its last line in force.
    Place,
}

// The calls with an argument, which may be empty.
const WORDS: &[(&[u8], Call)] = &[
    (b"locale", Call::Setting(Setting::Locale)),
    (b"set", Call::Setting(Setting::Variable)),
    (b"load", Call::Load(Load::File)),
    (b"text", Call::Load(Load::Text)),
    (b"snapshot", Call::Snapshot),
    (b"define", Call::Edit(Edit::Define)),
    (b"drop", Call::Edit(Edit::DropLast)),
    (b"append", Call::Edit(Edit::Append)),
    (b"switch", Call::Edit(Edit::Switch)),
    (b"splice", Call::Splice),
    (b"back", Call::Back),
    (b"entry", Call::KeyQuery(KeyQuery::Entry)),
    (b"place", Call::KeyQuery(KeyQuery::Place)),
];

// The calls that are a whole line.
const LINES: &[(&[u8], Call)] = &[
    (b"count", Call::Query(Query::Count)),
    (b"keys", Call::Query(Query::Keys)),
    (b"lines", Call::Query(Query::Lines)),
    (b"notices", Call::Query(Query::Notices)),
    (b"messages", Call::Query(Query::Messages)),
    (b"defining", Call::Query(Query::Defining)),
    (b"settings", Call::Query(Query::Settings)),
    (b"compare", Call::Query(Query::Compare)),
];

// Reads a call and its argument.
pub(crate) fn read_call(line: &[u8]) -> Option<(Call, &[u8])> {
    match meaning_of(LINES, line) {
        Some(query) => Some((query, b"")),
        None => {
            let (word, argument) = split_at_space(line);
            meaning_of(WORDS, word).map(|call| (call, argument))
        }
    }
}
