//! Loads a file line by line, with the files that it includes.

ghost use Rattle.std.specs.Prelude.{◌≡◌, ◌++◌, [], ◌≤◌, None, length, reverse, OnOk, OnErr};
ghost use Rattle.units_io.specs.FileMap.{longest_file};
ghost use Rattle.def_lines.specs.Kinds.{kind_of_line};
ghost use Rattle.deck_lines.specs.Blocks.{block_role_of_kind};
ghost use Rattle.deck_lines.specs.ClosedBlocks.{AreBlocksClosed};
ghost use Rattle.deck_lines.specs.Excerpts.{blocks_behind_line, line_with_notice};
ghost use Rattle.deck_lines.specs.Includes.{included_name};
ghost use Rattle.deck_lines.specs.LineLoads.{excerpt_in, faults_after_load, load_above, load_below, load_of_file};
ghost use Rattle.deck_lines.specs.LineLoads.{load_of_line};
ghost use Rattle.deck_lines.specs.Loads.{ExtendsStore, IsExcerptPut, LeadsBetweenBlocks, block_endings};
ghost use Rattle.deck_lines.specs.Marks.{plain_store_line};
ghost use Rattle.deck_lines.specs.Readings.{entry_in_store_line, store_line_reading_of};
ghost use Rattle.deck_lines.specs.Transcripts.{IsLoad, IsPartLoad, IsPartTranscript, files_model};
ghost use Rattle.deck_lines.specs.declared.draft.LoadFault.TheVariants.{OutOfMemory};
ghost use Rattle.deck_lines.specs.declared.line.Role.TheVariants.{Inside};

use crate::draft::{Draft, LoadFault};
use crate::line::Block;
use crate::line_meaning::{Reading, read_line};
use crate::load::blocks::{push_file_end, push_role_line};
use crate::load::names::name_beside;
use def_lines::{Cursor, Line};
use std::alloc::Global;
use units_io::{FetchFault, Files, Text};

/// The maximum depth of included files below the first file.
const MOST_DEPTH: u8 = 16;

/// Appends the deck of a file with this name and these bytes to a draft: its logical lines except blank ones, after
/// each include line the deck of the included file, and at the end of each file the missing end lines of its blocks.
///
/// The first of these lines that has no room ends the load with `DeckFull`, the first include line whose fetch fails
/// ends it with `ReadFailed`, which `files` counts, and a failed allocation ends it with `OutOfMemory`. After an error
/// the draft may hold some of the new lines. The load needs memory for the texts of the files that are open at the same
/// time, and for the lines.
pub fn load_text<F: Files>(
    alloc: Global,
    files: &mut F,
    draft: &mut Draft,
    name: &[u8],
    bytes: &[u8],
) -> Result<(), LoadFault>
    requires { length bytes.now ≤ longest_file }
    ensures loads { IsLoad (files_model F.files F.faults F.is_fetch) files.old files.new OutOfMemory
        (load_of_file name.now bytes.now (excerpt_in draft.old)) (λ _. excerpt_in draft.new) result }
    ensures extends { ExtendsStore draft.old.store draft.new.store }
    ensures closed { OnOk result (AreBlocksClosed draft.old.store.lines → AreBlocksClosed draft.new.store.lines) }
    ensures kept { F.files files.new ≡ F.files files.old }
    ensures stores { F.store_faults files.new ≡ F.store_faults files.old }
{
    load_file(alloc, files, draft, name, bytes, MOST_DEPTH)
}

// Appends the deck of a file with this name and these bytes. Below it, files may be nested up to `depth` deep.
#[cycle(load)]
fn load_file<F: Files>(
    alloc: Global,
    files: &mut F,
    draft: &mut Draft,
    name: &[u8],
    bytes: &[u8],
    depth: u8,
) -> Result<(), LoadFault>
    requires { length bytes.now ≤ longest_file }
    ensures loads { IsPartLoad OutOfMemory (IsPartTranscript (F.files files.old) F.is_fetch files.old files.new)
        (load_above depth name.now bytes.now (excerpt_in draft.old)) (λ _. excerpt_in draft.new) result }
    ensures leads { LeadsBetweenBlocks [] [] draft.old.store draft.new.store result }
    ensures kept { F.files files.new ≡ F.files files.old }
    ensures stores { F.store_faults files.new ≡ F.store_faults files.old }
    ensures counted { F.faults files.new ≡ faults_after_load (F.faults files.old) result }
{
    let mut blocks: Vec<Block> = Vec::new(alloc);
    let mut lines = Cursor::new(bytes);
    while let Some(line) = lines.take_shown(alloc)? {
        let line = line.into_line(alloc)?;
        load_line(alloc, files, draft, name, depth, &mut blocks, line)?;
    }
    push_file_end(alloc, draft, name, blocks)
}

// Appends the next line of a file in which `blocks` are open.
#[cycle(load)]
fn load_line<F: Files>(
    alloc: Global,
    files: &mut F,
    draft: &mut Draft,
    name: &[u8],
    depth: u8,
    blocks: &mut Vec<Block>,
    line: Line,
) -> Result<(), LoadFault>
    ensures loads { IsPartLoad OutOfMemory (IsPartTranscript (F.files files.old) F.is_fetch files.old files.new)
        (load_of_line (λ word. load_below depth name.now (included_name name.now word)) name.now
        (reverse blocks.old.items) line (store_line_reading_of line.text) (excerpt_in draft.old))
        (λ _. excerpt_in draft.new) result }
    ensures blocks { OnOk result (reverse blocks.new.items
        ≡ blocks_behind_line (reverse blocks.old.items) line (store_line_reading_of line.text)) }
    ensures leads { LeadsBetweenBlocks (block_endings (reverse blocks.old.items))
        (block_endings (blocks_behind_line (reverse blocks.old.items) line (store_line_reading_of line.text)))
        draft.old.store draft.new.store result }
    ensures kept { F.files files.new ≡ F.files files.old }
    ensures stores { F.store_faults files.new ≡ F.store_faults files.old }
    ensures counted { F.faults files.new ≡ faults_after_load (F.faults files.old) result }
{
    match read_line(alloc, line.text.as_bytes())? {
        Reading::Stands(role) => push_role_line(alloc, draft, name, blocks, line, role),
        Reading::Defines(key, what) => draft.push_line(alloc, line, Some((key, what))),
        Reading::Includes(word) => {
            let file = name_beside(alloc, name, word)?;
            load_include(alloc, files, draft, name, depth, line, file)
        }
        Reading::Faulty(text) => draft.refuse_line(alloc, name, line, text.as_bytes()),
    }
}

// Appends an include line and then the deck of `file`. From `file` on, files may be nested up to `depth` deep, counting
// `file`. The file is fetched only if its line has room.
#[cycle(load)]
fn load_include<F: Files>(
    alloc: Global,
    files: &mut F,
    draft: &mut Draft,
    name: &[u8],
    depth: u8,
    line: Line,
    file: Text,
) -> Result<(), LoadFault>
    requires role { block_role_of_kind (kind_of_line line.text) ≡ Inside }
    requires entry { entry_in_store_line (plain_store_line line.number line.text) ≡ None }
    ensures loads { IsPartLoad OutOfMemory (IsPartTranscript (F.files files.old) F.is_fetch files.old files.new)
        (load_below depth name.now file line (excerpt_in draft.old)) (λ _. excerpt_in draft.new) result }
    ensures leads { LeadsBetweenBlocks [] [] draft.old.store draft.new.store result }
    ensures kept { F.files files.new ≡ F.files files.old }
    ensures stores { F.store_faults files.new ≡ F.store_faults files.old }
    ensures counted { F.faults files.new ≡ faults_after_load (F.faults files.old) result }
{
    let file = file.as_bytes();
    if depth == 0 {
        return put_unread(alloc, draft, name, line, b"include too deep: ", file);
    }
    if !draft.store.has_room(line.text.as_bytes().len()) {
        return Err(LoadFault::DeckFull);
    }
    match files.fetch(alloc, file) {
        Ok(text) => {
            draft.push_line(alloc, line, None)?;
            load_file(alloc, files, draft, file, text.as_bytes(), depth - 1)
        }
        Err(FetchFault::Absent) => put_unread(alloc, draft, name, line, b"no file: ", file),
        Err(FetchFault::TooLong) => put_unread(alloc, draft, name, line, b"file too long: ", file),
        Err(FetchFault::Failed) => Err(LoadFault::ReadFailed),
        Err(FetchFault::OutOfMemory) => Err(LoadFault::OutOfMemory),
    }
}

// Appends an include line whose file is not read, and a notice that ends with the name of that file.
fn put_unread(
    alloc: Global,
    draft: &mut Draft,
    name: &[u8],
    line: Line,
    text: &[u8],
    file: &[u8],
) -> Result<(), LoadFault>
    ensures put { IsExcerptPut draft.old (line_with_notice name.now line (text.now ++ file.now)) result draft.new }
    ensures err { OnErr result (draft.new.store ≡ draft.old.store) }
{
    let mut notice = Vec::from_slice(alloc, text)?;
    notice.extend_from_slice(file)?;
    draft.refuse_line(alloc, name, line, notice.as_slice())
}
