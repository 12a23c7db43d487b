//! Work on a deck: the reply to FROM, the check, or a session.
ghost use Rattle.std.specs.Prelude.{◌≡◌, ◌≤◌, ◌&&◌, ◌||◌, ℕ, [], IfOk, Some, None, true, false, is_some, not};
ghost use Rattle.std.specs.Prelude.{unwrap_or, if◌then◌else◌};
ghost use Rattle.units_io.specs.FileMap.{FileMap};
ghost use Rattle.def_lines.specs.Lines.{line_content};
ghost use Rattle.session.specs.Queries as queries;
ghost use Rattle.units_run.specs.Endings.{RunMayEnd};
ghost use Rattle.units_run.specs.Options.{HasValidRunColumn, HasValidRunDigits};
ghost use Rattle.units_run.specs.ProgramPlans.{IsPlanned, IsPossiblePlan};
ghost use Rattle.units_run.specs.Work as spec;

use crate::check_plan::CheckPlan;
use crate::column_plan::ColumnPlan;
use crate::column_task::ColumnTask;
use crate::command_reply::ask;
use crate::options::options_of;
use crate::plan::Plan;
use crate::status::Status;
use command_line::CommandLine;
use deck::Deck;
use def_lines::line_content;
use live_table::LiveTable;
use reply::Question;
use session::{OutputBuffers, Session, leaves_law, notice_lines};
use std::alloc::{AllocError, Global};
use std::mem;
use std::sync::ledger::Ledger;
use units_io::{Steps, Text};

/// Returns the plan of a command line over a deck: the reply to FROM if it is given, or else the check, or else a
/// session. The only error is running out of memory. A table that has made a reply is never freed: the system reclaims
/// its memory when the process ends, which is soon.
pub(crate) fn work<L: Ledger>(
    alloc: Global,
    line: &CommandLine,
    deck: Deck,
    steps: &mut Steps<L>,
) -> Result<Plan, AllocError>
    requires digits { HasValidRunDigits line.now }
    requires column { HasValidRunColumn line.now }
    ensures if_known { (m : FileMap) →
        IsPlanned (spec.plan_of_work line.now.from line.now deck m) m result steps.old steps.new }
    ensures kind { IfOk result (IsPossiblePlan true false (not (is_some line.now.from || line.now.check))
        (is_some line.now.from && is_some line.now.column)) }
{
    let mut table = LiveTable::new(alloc, deck);
    match &line.from {
        Some(from) => {
            if let Some(column) = line.column {
                return column_plan(alloc, line, column, from.as_bytes(), table);
            }
            let plan = reply_plan(alloc, line, from.as_bytes(), &mut table, steps);
            mem::forget(table);
            plan
        }
        None => {
            if line.check {
                return check_plan(alloc, line, table);
            }
            session_plan(alloc, line, table)
        }
    }
}

// Returns the plan with the reply to FROM, with the notices on `err`.
fn reply_plan<L: Ledger>(
    alloc: Global,
    line: &CommandLine,
    from: &[u8],
    table: &mut LiveTable,
    steps: &mut Steps<L>,
) -> Result<Plan, AllocError>
    requires digits { HasValidRunDigits line.now }
    requires fresh { table.old ≡ queries.fresh_session_table table.old.deck }
    ensures if_known { (m : FileMap) → IsPlanned
        (spec.from_plan None line.now (line_content from.now) (line_content (unwrap_or line.now.to [])) table.old.deck)
        m result
        steps.old steps.new }
    ensures kind { IfOk result (IsPossiblePlan true false false false) }
{
    leaves_law();
    let notices = notice_lines(alloc, table.deck())?;
    let options = options_of(line);
    let question = Question {
        options: &options,
        from: line_content(from),
        to: to_text(line),
    };
    let reply = ask(alloc, table, &question, steps)?;
    let status = reply_status(reply.refused);
    let buffers = OutputBuffers {
        out: reply.text.into_bytes(),
        err: notices,
    };
    Ok(Plan::Whole(buffers, status))
}

// Returns the plan of the conversion of a column from FROM.
fn column_plan(
    alloc: Global,
    line: &CommandLine,
    column: u16,
    from: &[u8],
    table: LiveTable,
) -> Result<Plan, AllocError>
    requires digits { HasValidRunDigits line.now }
    requires some { 1 ≤ column }
    requires fresh { table ≡ queries.fresh_session_table table.deck }
    ensures if_known { (m : FileMap) (n : ℕ) → IsPlanned
        (spec.from_plan (Some column) line.now (line_content from.now) (line_content (unwrap_or line.now.to []))
        table.deck) m result n n }
    ensures kind { IfOk result (IsPossiblePlan true false false true) }
{
    let notices = notice_lines(alloc, table.deck())?;
    let from = Text::from_bytes(alloc, line_content(from))?;
    let to = Text::from_bytes(alloc, to_text(line))?;
    let task = ColumnTask {
        table,
        options: options_of(line),
        from,
        to,
        column,
        header: line.header,
    };
    Ok(Plan::Columns(ColumnPlan { notices, task }))
}

// Returns the plan of the check report, which begins with the notices.
fn check_plan(alloc: Global, line: &CommandLine, table: LiveTable) -> Result<Plan, AllocError>
    requires digits { HasValidRunDigits line.now }
    requires fresh { table ≡ queries.fresh_session_table table.deck }
    ensures if_known { (m : FileMap) (n : ℕ) → IsPlanned (spec.plan_of_check line.now table.deck) m result n n }
    ensures kind { IfOk result (IsPossiblePlan true false false false) }
{
    let notices = notice_lines(alloc, table.deck())?;
    Ok(Plan::Check(CheckPlan {
        notices,
        table,
        options: options_of(line),
    }))
}

// Returns the plan of a session over a table in which no name is settled.
fn session_plan(alloc: Global, line: &CommandLine, table: LiveTable) -> Result<Plan, AllocError>
    requires digits { HasValidRunDigits line.now }
    requires fresh { table ≡ queries.fresh_session_table table.deck }
    ensures if_known { (m : FileMap) (n : ℕ) → IsPlanned (spec.plan_of_session line.now table.deck m) m result n n }
    ensures kind { IfOk result (IsPossiblePlan true false true false) }
{
    let session = Session::new(alloc, table, options_of(line));
    let buffers = OutputBuffers::opening_output(alloc, &session)?;
    Ok(Plan::Opened(buffers, session))
}

// Returns the contents of TO, which is blank if TO is not given.
fn to_text(line: &CommandLine) -> &[u8]
    ensures { result.now ≡ line_content (unwrap_or line.now.to []) }
{
    match &line.to {
        Some(to) => line_content(to.as_bytes()),
        None => line_content(b""),
    }
}

// Returns the status for a reply.
fn reply_status(refused: bool) -> Status
    ensures is { result ≡ (if refused then Status.Refused else Status.Done) }
    ensures worked { RunMayEnd true false false result }
{
    if refused {
        Status::Refused
    } else {
        Status::Done
    }
}
