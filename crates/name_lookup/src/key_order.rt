//! The order in which the keys of a word are looked up.

ghost use Rattle.std.specs.Prelude.{◌++◌, codes, IfOk, length};
ghost use Rattle.def_entry.specs.SameKeys.{is_entry_key_among};
ghost use Rattle.name_lookup.specs.Candidates as lookup;
ghost use Rattle.name_lookup.specs.LookupRelations.{IsKeptByLookup};
ghost use Rattle.name_lookup.specs.Order as spec;
ghost use Rattle.name_lookup.specs.Plans.{run_lookup_plan};
ghost use Rattle.name_lookup.specs.Steps.{IsLookupStepTaken};
ghost use Rattle.name_lookup.specs.Targets.{AreLookupTargetsFound};

use crate::key_search::Search;
use crate::lookup_record::Looking;
use crate::present::Present;
use crate::stems::without_ending;
use crate::targets::Targets;
use def_entry::Kind;
use expr_tree::WordKind;
use std::alloc::{AllocError, Global};

/// Finds the keys that a word refers to and returns how many of the last keys passed to `looking` they are. `looking`
/// gets every key that is tried, in order, including absent ones.
///
/// A word alone is a unit, or else a function; a word before an argument in parentheses is a function, or else a unit;
/// a word after a `~` can only be a function. A word alone or before an argument that is neither may be a plural in
/// `s`, `es` or `ies`: of a unit, or of a prefix with or without a unit, the longest prefix first. Otherwise it may
/// itself be a prefix with or without a unit. The only error is running out of memory.
pub fn find_targets<P: Present, L: Looking>(
    alloc: Global,
    table: &P,
    looking: &mut L,
    word: &[u8],
    kind: WordKind,
) -> Result<Targets, AllocError>
    requires { L.can_look (P.keys table.now) looking.old }
    ensures chosen { IfOk result (λ targets. AreLookupTargetsFound targets (L.looked looking.old) (L.looked looking.new)
        (lookup.found_targets (is_entry_key_among (P.keys table.now)) (lookup.candidates kind word.now))) }
    ensures found { IfOk result (λ targets. AreLookupTargetsFound targets (L.looked looking.old) (L.looked looking.new)
        (run_lookup_plan (is_entry_key_among (P.keys table.now)) (spec.lookup_plan kind word.now))) }
    ensures ready { L.can_look (P.keys table.now) looking.new }
    ensures kept { IsKeptByLookup (L.is_kept (P.keys table.now)) looking.old looking.new }
{
    let search = Search { alloc, table };
    search.try_word(looking, word, kind)
}

impl<'a, P: Present> Search<'a, P> {
    // Resolves the word by the kind of place in which it occurs.
    fn try_word<L: Looking>(
        &self,
        looking: &mut L,
        word: &[u8],
        kind: WordKind,
    ) -> Result<Targets, AllocError>
        requires { L.can_look (P.keys self.now.table.now) looking.old }
        ensures taken { IfOk result (λ targets. IsLookupStepTaken (is_entry_key_among (P.keys self.now.table.now))
            (spec.try_word kind word.now) (L.looked looking.old) (L.looked looking.new) targets) }
        ensures ready { L.can_look (P.keys self.now.table.now) looking.new }
        ensures kept { IsKeptByLookup (L.is_kept (P.keys self.now.table.now)) looking.old looking.new }
    {
        match kind {
            WordKind::Plain => self.try_kinds(looking, word, Kind::Unit, Kind::Func),
            WordKind::Call => self.try_kinds(looking, word, Kind::Func, Kind::Unit),
            WordKind::Inverse => self.try_key(looking, Kind::Func, word),
        }
    }

    // Tries the word as a key of the first kind, then as one of the second kind, and then its parts.
    fn try_kinds<L: Looking>(
        &self,
        looking: &mut L,
        word: &[u8],
        first: Kind,
        second: Kind,
    ) -> Result<Targets, AllocError>
        requires { L.can_look (P.keys self.now.table.now) looking.old }
        ensures taken { IfOk result (λ targets. IsLookupStepTaken (is_entry_key_among (P.keys self.now.table.now))
            (spec.try_kinds first second word.now) (L.looked looking.old) (L.looked looking.new) targets) }
        ensures ready { L.can_look (P.keys self.now.table.now) looking.new }
        ensures kept { IsKeptByLookup (L.is_kept (P.keys self.now.table.now)) looking.old looking.new }
    {
        let targets = self.try_key(looking, first, word)?;
        if targets.are_some() {
            return Ok(targets);
        }
        let targets = self.try_key(looking, second, word)?;
        if targets.are_some() {
            return Ok(targets);
        }
        self.try_parts(looking, word)
    }

    // Tries the stems of the word, and then the prefixes of the word itself.
    fn try_parts<L: Looking>(&self, looking: &mut L, word: &[u8]) -> Result<Targets, AllocError>
        requires { L.can_look (P.keys self.now.table.now) looking.old }
        ensures taken { IfOk result (λ targets. IsLookupStepTaken (is_entry_key_among (P.keys self.now.table.now))
            (spec.try_parts word.now) (L.looked looking.old) (L.looked looking.new) targets) }
        ensures ready { L.can_look (P.keys self.now.table.now) looking.new }
        ensures kept { IsKeptByLookup (L.is_kept (P.keys self.now.table.now)) looking.old looking.new }
    {
        let targets = self.try_stems(looking, word)?;
        if targets.are_some() {
            return Ok(targets);
        }
        self.try_prefixes(looking, word)
    }

    // Tries the stems of the word: without `s`, without `es`, and with `y` instead of `ies`.
    fn try_stems<L: Looking>(&self, looking: &mut L, word: &[u8]) -> Result<Targets, AllocError>
        requires { L.can_look (P.keys self.now.table.now) looking.old }
        ensures taken { IfOk result (λ targets. IsLookupStepTaken (is_entry_key_among (P.keys self.now.table.now))
            (spec.try_stems word.now) (L.looked looking.old) (L.looked looking.new) targets) }
        ensures ready { L.can_look (P.keys self.now.table.now) looking.new }
        ensures kept { IsKeptByLookup (L.is_kept (P.keys self.now.table.now)) looking.old looking.new }
    {
        let targets = self.try_without(looking, word, 2, b"s")?;
        if targets.are_some() {
            return Ok(targets);
        }
        let targets = self.try_without(looking, word, 3, b"es")?;
        if targets.are_some() {
            return Ok(targets);
        }
        self.try_with_y(looking, word)
    }

    // Tries the word without `ending`, if it has more than `more` bytes and ends in `ending`.
    fn try_without<L: Looking>(
        &self,
        looking: &mut L,
        word: &[u8],
        more: usize,
        ending: &[u8],
    ) -> Result<Targets, AllocError>
        requires { L.can_look (P.keys self.now.table.now) looking.old }
        ensures taken { IfOk result (λ targets. IsLookupStepTaken (is_entry_key_among (P.keys self.now.table.now))
            (spec.try_stem_if (spec.has_plural_ending more ending.now word.now)
            (spec.stem_without_end (length ending.now) word.now))
            (L.looked looking.old) (L.looked looking.new) targets) }
        ensures ready { L.can_look (P.keys self.now.table.now) looking.new }
        ensures kept { IsKeptByLookup (L.is_kept (P.keys self.now.table.now)) looking.old looking.new }
    {
        match without_ending(word, more, ending) {
            Some(stem) => self.try_stem(looking, stem),
            None => Ok(Targets::Nowhere),
        }
    }

    // Tries the word with `y` instead of its final `ies`, if it has more than four bytes and ends in `ies`.
    fn try_with_y<L: Looking>(&self, looking: &mut L, word: &[u8]) -> Result<Targets, AllocError>
        requires { L.can_look (P.keys self.now.table.now) looking.old }
        ensures taken { IfOk result (λ targets. IsLookupStepTaken (is_entry_key_among (P.keys self.now.table.now))
            (spec.try_stem_if (spec.has_plural_ending 4 (codes "ies") word.now)
            (spec.stem_without_end 3 word.now ++ codes "y")) (L.looked looking.old) (L.looked looking.new) targets) }
        ensures ready { L.can_look (P.keys self.now.table.now) looking.new }
        ensures kept { IsKeptByLookup (L.is_kept (P.keys self.now.table.now)) looking.old looking.new }
    {
        let Some(front) = without_ending(word, 4, b"ies") else {
            return Ok(Targets::Nowhere);
        };
        let mut stem = Vec::from_slice(self.alloc, front)?;
        stem.extend_from_slice(b"y")?;
        self.try_stem(looking, &stem)
    }
}
