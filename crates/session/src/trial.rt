//! A trial: a session over generated definitions and generated lines.

ghost use Rattle.std.specs.Prelude.{◌≡◌, ◌≤◌, IfOk};
ghost use Rattle.reply.specs.Options.{AreReplyOptionsPrintable};
ghost use Rattle.session.specs.Talks.{talk_over_input};
ghost use Rattle.session.specs.TrialEffects.{IsTalkSpoken, IsTrialSummary};
ghost use Rattle.session.specs.Trials as spec;

use crate::listener::Listener;
use crate::session::Session;
use crate::session_output::OutputBuffers;
use crate::table_counts::{put_count, statistics};
use crate::talk::Talk;
use crate::text_decks::text_deck;
use crate::trial_lines::{all_rounds, definitions};
use deck::{Deck, NoFiles, Settings};
use live_table::LiveTable;
use reply::Options;
use std::alloc::{AllocError, Global};
use std::sync::ledger::Ledger;
use units_io::{Steps, Text};

/// Runs a trial of `rounds` rounds, 1 to 20,000, over one more definition than that, and returns its summary. The
/// definitions are within the limits of a deck, so the only error is running out of memory.
pub fn run_trial<L: Ledger>(
    alloc: Global,
    options: Options,
    settings: Settings,
    rounds: u16,
    steps: &mut Steps<L>,
) -> Result<Text, AllocError>
    requires printable { AreReplyOptionsPrintable options }
    requires some { 1 ≤ rounds }
    requires few { rounds ≤ 20000 }
    ensures { IfOk result (λ text. IsTrialSummary (spec.trial_session options settings rounds) text steps.old
        steps.new) }
{
    let text = definitions(alloc, rounds)?;
    let deck = text_deck(alloc, &text, b"trial", settings)?;
    let session = quiet_session(alloc, deck, options);
    let lines = all_rounds(alloc, rounds)?;
    let talk = answer_lines(alloc, session, &lines, steps)?;
    summary(alloc, rounds, talk.buffers.out.len(), talk.session.table())
}

// Returns a session that says nothing but answers.
fn quiet_session(alloc: Global, deck: Deck, options: Options) -> Session
    requires { AreReplyOptionsPrintable options }
    ensures { result ≡ spec.quiet_trial_session options deck }
{
    let options = Options {
        quiet: true,
        ..options
    };
    Session::new(alloc, LiveTable::new(alloc, deck), options)
}

// Returns the session after all lines, with what it says to them.
fn answer_lines<L: Ledger>(
    alloc: Global,
    session: Session,
    lines: &[u8],
    steps: &mut Steps<L>,
) -> Result<Talk, AllocError>
    ensures { IfOk result (λ talk.
        IsTalkSpoken (talk_over_input (spec.silent_talk session) lines.now) talk.buffers talk.session steps.old
        steps.new) }
{
    let mut files = NoFiles::new();
    let buffers = OutputBuffers {
        out: Vec::new(alloc),
        err: Vec::new(alloc),
    };
    let mut listener = Listener::new(alloc, session, buffers);
    let mut rest = lines;
    while !rest.is_empty() {
        match listener.feed_block(&mut files, steps, &mut rest) {
            Ok(true) => return Ok(listener.talk),
            Ok(false) => {}
            Err(_) => return Err(AllocError),
        }
    }
    match listener.feed_end(&mut files, steps) {
        Ok(()) => Ok(listener.talk),
        Err(_) => Err(AllocError),
    }
}

// Returns the summary of a trial whose replies have `bytes` bytes and that left this table.
fn summary(alloc: Global, rounds: u16, bytes: usize, table: &LiveTable) -> Result<Text, AllocError>
    ensures { IfOk result (λ text. text ≡ spec.trial_summary rounds bytes table.now) }
{
    let mut text = Vec::from_slice(alloc, b"definitions ")?;
    put_count(alloc, &mut text, u64::from(rounds) + 1, b", edits ")?;
    put_count(alloc, &mut text, u64::from(rounds), b", reply bytes ")?;
    put_count(alloc, &mut text, bytes as u64, b", ")?;
    text.extend_from_slice(statistics(alloc, table)?.as_bytes())?;
    Ok(Text::from(text))
}
