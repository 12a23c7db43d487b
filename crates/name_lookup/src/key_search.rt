//! A search through the keys that a word may refer to.

ghost use Rattle.std.specs.Prelude.{◌≡◌, ◌++◌, ◌∷◌, [], ◌<◌, IfOk, length, take, drop};
ghost use Rattle.def_entry.specs.Keys.{key};
ghost use Rattle.def_entry.specs.SameKeys.{is_entry_key_among};
ghost use Rattle.def_entry.specs.declared.key.Kind.TheVariants as kinds;
ghost use Rattle.name_lookup.specs.LookupRelations.{IsKeptByLookup};
ghost use Rattle.name_lookup.specs.Order as spec;
ghost use Rattle.name_lookup.specs.Plans.{Asks};
ghost use Rattle.name_lookup.specs.Steps.{IsLookupStepTaken};

use crate::lookup_record::Looking;
use crate::present::Present;
use crate::targets::Targets;
use def_entry::Kind;
use std::alloc::{AllocError, Global};

/// A search of a table.
#[derive(Drop)]
pub(crate) struct Search<'a, P> {
    pub(crate) alloc: Global,
    pub(crate) table: &'a P,
}

impl<'a, P: Present> Search<'a, P> {
    // Tries one key: it is the target if it is present.
    pub(crate) fn try_key<L: Looking>(
        &self,
        looking: &mut L,
        kind: Kind,
        name: &[u8],
    ) -> Result<Targets, AllocError>
        requires { L.can_look (P.keys self.now.table.now) looking.old }
        ensures taken { IfOk result (λ targets. IsLookupStepTaken (is_entry_key_among (P.keys self.now.table.now))
            (spec.try_key (key kind name.now)) (L.looked looking.old) (L.looked looking.new) targets) }
        ensures ready { L.can_look (P.keys self.now.table.now) looking.new }
        ensures kept { IsKeptByLookup (L.is_kept (P.keys self.now.table.now)) looking.old looking.new }
    {
        if looking.look(self.alloc, self.table, kind, name)? {
            return Ok(Targets::Last);
        }
        Ok(Targets::Nowhere)
    }

    // Tries the prefixes of the word, the longest first, up to the first that leads to a target.
    pub(crate) fn try_prefixes<L: Looking>(
        &self,
        looking: &mut L,
        word: &[u8],
    ) -> Result<Targets, AllocError>
        requires { L.can_look (P.keys self.now.table.now) looking.old }
        ensures taken { IfOk result (λ targets. IsLookupStepTaken (is_entry_key_among (P.keys self.now.table.now))
            (spec.try_prefixes (length word.now) word.now) (L.looked looking.old) (L.looked looking.new) targets) }
        ensures ready { L.can_look (P.keys self.now.table.now) looking.new }
        ensures kept { IsKeptByLookup (L.is_kept (P.keys self.now.table.now)) looking.old looking.new }
    {
        let mut len = word.len();
        while len > 0 {
            let (front, rest) = word.split_at(len);
            let targets = self.try_prefix(looking, front, rest)?;
            if targets.are_some() {
                return Ok(targets);
            }
            len -= 1;
        }
        Ok(Targets::Nowhere)
    }

    // Tries `front` as a prefix and `rest`, unless it is empty, as a unit. Both have to be present.
    fn try_prefix<L: Looking>(
        &self,
        looking: &mut L,
        front: &[u8],
        rest: &[u8],
    ) -> Result<Targets, AllocError>
        requires { L.can_look (P.keys self.now.table.now) looking.old }
        ensures taken { IfOk result (λ targets. IsLookupStepTaken (is_entry_key_among (P.keys self.now.table.now))
            (λ next. Asks (key kinds.Prefix front.now)
            (spec.with_prefix (key kinds.Prefix front.now) rest.now next) next)
            (L.looked looking.old) (L.looked looking.new) targets) }
        ensures ready { L.can_look (P.keys self.now.table.now) looking.new }
        ensures kept { IsKeptByLookup (L.is_kept (P.keys self.now.table.now)) looking.old looking.new }
    {
        if !looking.look(self.alloc, self.table, Kind::Prefix, front)? {
            return Ok(Targets::Nowhere);
        }
        if rest.is_empty() {
            return Ok(Targets::Last);
        }
        if looking.look(self.alloc, self.table, Kind::Unit, rest)? {
            return Ok(Targets::LastTwo);
        }
        Ok(Targets::Nowhere)
    }

    // Tries the stem as a unit, and then its prefixes, the longest first.
    pub(crate) fn try_stem<L: Looking>(
        &self,
        looking: &mut L,
        stem: &[u8],
    ) -> Result<Targets, AllocError>
        requires { L.can_look (P.keys self.now.table.now) looking.old }
        ensures taken { IfOk result (λ targets. IsLookupStepTaken (is_entry_key_among (P.keys self.now.table.now))
            (spec.try_stem stem.now) (L.looked looking.old) (L.looked looking.new) targets) }
        ensures ready { L.can_look (P.keys self.now.table.now) looking.new }
        ensures kept { IsKeptByLookup (L.is_kept (P.keys self.now.table.now)) looking.old looking.new }
    {
        let targets = self.try_key(looking, Kind::Unit, stem)?;
        if targets.are_some() {
            return Ok(targets);
        }
        self.try_prefixes(looking, stem)
    }
}
