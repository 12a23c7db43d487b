//! The blocks and variables that affect a line of a deck.

ghost use Rattle.std.specs.Prelude.{◌≡◌, ℕ, [], OnOk, IfNone, IfOk};
ghost use Rattle.std.specs.Option.{option_copied};
ghost use Rattle.units_io.specs.NamedValues.{HasNoTextOfName, named_text};
ghost use Rattle.deck_lines.specs.declared.line.DeckLine.{DeckLine};
ghost use Rattle.deck.specs.Active as spec;

use super::in_force::InForce;
use def_lines::{LineKind, classify, listed};
use std::alloc::{AllocError, Global};
use std::marker::Model;
use units_io::{Text, Vars};

/// The state before a line: whether each enclosing block holds, how many of them do not, and the variables that are
/// set, both those of the settings and those that earlier lines have set.
pub(crate) struct Surroundings<'a> {
    holds: Vec<bool>,
    failing: usize,
    base: &'a InForce<'a>,
    set: Vars,
}

// Written by hand, so that code that drops surroundings need not prove anything about their variables.
impl<'a> Drop for Surroundings<'a> {
    fn drop(self) {
        let Surroundings {
            holds: _,
            failing: _,
            base: _,
            set: _,
        } = self;
    }
}

impl<'a> Model for Surroundings<'a> {
    ghost use Rattle.std.specs.Prelude.{◌≡◌, ◌++◌, reverse};
    ghost use Rattle.deck.specs.Active.{DeckSurroundings};
    ghost use Rattle.deck.specs.FailingBlocks.{failing_enclosing_count};

    ghost Value = { DeckSurroundings };

    ghost view = { λ around. record {
      conditions = reverse around.holds.items;
      vars = around.base.now.vars
          ++ around.set;
    } };

    ghost invariant = { λ around. around.failing ≡ failing_enclosing_count (reverse around.holds.items) };
}

impl<'a> Surroundings<'a> {
    /// Returns the state at the start of a deck, where the variables of these settings are set.
    pub(crate) fn start(alloc: Global, settings: &'a InForce<'a>) -> Surroundings<'a>
        ensures { result ≡ record { conditions = []; vars = settings.now.vars } }
    {
        Surroundings {
            holds: Vec::new(alloc),
            failing: 0,
            base: settings,
            set: Vars::with_seed(alloc, settings.table_seed()),
        }
    }

    /// Reports whether a line with this mark is active here. The cost does not depend on the depth of the blocks.
    pub(crate) fn is_active(&self, mark: bool) -> bool
        ensures { (line : DeckLine) → line.mark ≡ mark → result ≡ spec.is_active_line self.now line }
    {
        !mark && self.all_hold()
    }

    /// Updates the state for a line.
    #[tactic(auto, unfolding(crate::specs::Active::deck_surroundings_after_line))]
    pub(crate) fn pass(
        &mut self,
        alloc: Global,
        locale: &[u8],
        text: &[u8],
        mark: bool,
    ) -> Result<(), AllocError>
        ensures { (number : ℕ) → OnOk result (self.new
            ≡ spec.deck_surroundings_after_line locale.now self.old
            (record { number = number; text = text.now; mark = mark })) }
    {
        if mark {
            return Ok(());
        }
        match classify(text) {
            LineKind::Locale(name) => self.enter(name == locale),
            LineKind::Var(name, values) => self.enter(self.is_value_listed(name, values)),
            LineKind::VarNot(name, values) => self.enter(!self.is_value_listed(name, values)),
            LineKind::Utf8 => self.enter(true),
            LineKind::EndLocale | LineKind::EndVar | LineKind::EndUtf8 => {
                self.leave();
                Ok(())
            }
            LineKind::Set(name, value) => self.set(alloc, name, value),
            _ => Ok(()),
        }
    }

    // Reports whether all enclosing blocks hold.
    #[tactic(auto, using(crate::proofs::BlockFailures::enclosing_hold_if_none_fails))]
    fn all_hold(&self) -> bool
        ensures { result ≡ spec.all_enclosing_blocks_hold self.now }
    {
        self.failing == 0
    }

    // Enters a block.
    fn enter(&mut self, holds: bool) -> Result<(), AllocError>
        ensures { OnOk result (self.new ≡ spec.deck_surroundings_in_block holds self.old) }
    {
        self.holds.push(holds)?;
        if !holds {
            self.failing += 1;
        }
        Ok(())
    }

    // Leaves the innermost block, if there is one.
    fn leave(&mut self)
        ensures { self.new ≡ spec.deck_surroundings_out_of_block self.old }
    {
        if let Some(holds) = self.holds.pop() {
            if !holds {
                self.failing -= 1;
            }
        }
    }

    // Returns the value of a variable, or `None` if it is not set.
    fn value(&self, name: &[u8]) -> Option<&Text>
        ensures value { option_copied result ≡ named_text self.now.vars name.now }
        ensures absent { IfNone result (HasNoTextOfName self.now.vars name.now) }
    {
        match self.base.value(name) {
            Some(value) => Some(value),
            None => self.set.value(name),
        }
    }

    // Reports whether the variable is set and has one of these values.
    fn is_value_listed(&self, name: &[u8], values: &[u8]) -> bool
        ensures { result ≡ spec.is_setting_value_listed values.now (named_text self.now.vars name.now) }
    {
        match self.value(name) {
            Some(value) => listed(values, value.as_bytes()),
            None => false,
        }
    }

    // Sets a variable if all enclosing blocks hold and it is not set yet.
    fn set(&mut self, alloc: Global, name: &[u8], value: &[u8]) -> Result<(), AllocError>
        ensures { OnOk result (self.new ≡ spec.deck_surroundings_with_variable name.now value.now self.old) }
    {
        if !self.all_hold() || self.value(name).is_some() {
            return Ok(());
        }
        let variable = copy_variable(alloc, name, value)?;
        self.set.push(alloc, variable)
    }
}

// Copies the name and the value of a variable.
fn copy_variable(alloc: Global, name: &[u8], value: &[u8]) -> Result<(Text, Text), AllocError>
    ensures name { IfOk result (λ variable. variable.0 ≡ name.now) }
    ensures value { IfOk result (λ variable. variable.1 ≡ value.now) }
{
    let name = Text::from_bytes(alloc, name)?;
    let value = Text::from_bytes(alloc, value)?;
    Ok((name, value))
}
