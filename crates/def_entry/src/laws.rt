//! Laws of keys, of their texts and of entries.

ghost use Rattle.def_entry.specs.EntryGrammar.{EntryLaw, OneEntryLaw};
ghost use Rattle.def_entry.specs.Examples.{EntryExamplesLaw};
ghost use Rattle.def_entry.specs.Faults.{EntryMemoryLaw};
ghost use Rattle.def_entry.specs.HeadingGrammar.{HeadingLaw};
ghost use Rattle.def_entry.specs.KeyOrder.{KeyOrderLaw};
ghost use Rattle.def_entry.specs.Keys.{KeyOfSpellingLaw, OneKeySpellingLaw};
ghost use Rattle.def_entry.specs.OptionGrammar.{AnyOptionOrderLaw, OptionsLaw};
ghost use Rattle.def_entry.specs.PointGrammar.{PointPairsLaw};
ghost use Rattle.def_entry.specs.EntryReading.{EntryTextLaw, SameEntryTextLaw};
ghost use Rattle.def_entry.specs.SameKeys.{SameEntryKeysLaw};

/// A text is read as a key if and only if that key has a valid name and this text.
pub fn key_text_law()
    ensures { KeyOfSpellingLaw }
{}

/// Keys with valid names have the same text only if they are equal.
pub fn one_key_law()
    ensures { OneKeySpellingLaw }
{}

/// Two entries for one key that lines give are equal if and only if their texts are equal.
pub fn same_text_law()
    ensures { SameEntryTextLaw }
{}

/// The text of an entry is the text after the name in the heading of its line.
pub fn entry_text_law()
    ensures { EntryTextLaw }
{}

/// The fault of a line is never an out-of-memory fault.
pub fn entry_memory_law()
    ensures { EntryMemoryLaw }
{}

/// A few lines have the keys, the entries and the faults that were found by hand, and a few keys and faults their
/// texts.
pub fn examples_law()
    ensures { EntryExamplesLaw }
{}

/// The heading of a line is the one with which it is written.
pub fn heading_law()
    ensures { HeadingLaw }
{}

/// Options are read if and only if they are written according to the grammar.
pub fn options_law()
    ensures { OptionsLaw }
{}

/// Points are read if and only if they are written according to the grammar.
pub fn points_law()
    ensures { PointPairsLaw }
{}

/// Exchanging two options does not change their meaning.
pub fn any_order_law()
    ensures { AnyOptionOrderLaw }
{}

/// Keys of the same kind and the same name are equal.
pub fn same_keys_law()
    ensures { SameEntryKeysLaw }
{}

/// The order of keys is total: they are sorted by the bytes of their names, and then as units, prefixes, functions and
/// lists. Only equal keys tie.
pub fn key_order_law()
    ensures { KeyOrderLaw }
{}

/// A line gives a key and an entry if and only if it is written as the grammar says, and a fault if and only if that
/// is its first one.
pub fn entry_law()
    ensures { EntryLaw }
{}

/// A line that can be written in two ways has one key and one entry, or one fault, and never both.
pub fn one_entry_law()
    ensures { OneEntryLaw }
{}
