//! A second pass over the files of a deck.

ghost use Rattle.std.specs.Prelude.{◌≡◌, ◌++◌, ◌≤◌, IfOk, OnOk, Some, length, map, reverse};
ghost use Rattle.units_io.specs.FileMap.{FileMap, longest_file};
ghost use Rattle.deck_lines.specs.Excerpts as excerpts;
ghost use Rattle.deck_lines.specs.Readings.{store_line_reading_of};
ghost use Rattle.value_sources.specs.FileLines as spec;

use super::LineFiles;
use super::fault::LineFilesFault;
use super::pass::{NamedFile, Pass, end_line_text};
use super::step::{Step, change_blocks, step_of};
use deck_lines::{Block, name_beside};
use def_lines::{Cursor, LentLine, Lines};
use std::alloc::Global;
use units_io::{FetchFault, Files};

/// The maximum depth of included files below the first file.
const MOST_DEPTH: u8 = 16;

/// Returns the files of the lines of a deck that was loaded from a file with this name and these bytes. Each file that
/// it includes is read once more, and no definition is parsed. The error is `Changed` if the files have other lines
/// than the deck or one of them cannot be read, and `OutOfMemory` if an allocation fails.
pub fn find_line_files<F: Files>(
    alloc: Global,
    files: &mut F,
    name: &[u8],
    bytes: &[u8],
    lines: &Lines,
) -> Result<LineFiles, LineFilesFault>
    requires { length bytes.now ≤ longest_file }
    ensures found { (m : FileMap) → F.files files.old ≡ Some m
        → IfOk result (λ found. found ≡ spec.line_file_names (spec.file_lines m name.now bytes.now)) }
    ensures all { IfOk result (λ found. length found ≡ length lines.now) }
    ensures kept { F.files files.new ≡ F.files files.old }
{
    let mut pass = Pass {
        expected: lines,
        found: LineFiles::new(alloc),
    };
    pass.read_file(alloc, files, name, bytes, MOST_DEPTH)?;
    let Pass { expected: _, found } = pass;
    if found.len() != lines.len() {
        return Err(LineFilesFault::Changed);
    }
    Ok(found)
}

impl Pass<'_> {
    // Reads the lines of a file with this name and these bytes. Below it, files may be nested up to `depth` deep.
    #[cycle(pass)]
    fn read_file<F: Files>(
        &mut self,
        alloc: Global,
        files: &mut F,
        name: &[u8],
        bytes: &[u8],
        depth: u8,
    ) -> Result<(), LineFilesFault>
        requires { length bytes.now ≤ longest_file }
        ensures found { (m : FileMap) → F.files files.old ≡ Some m → OnOk result
            (self.new.found ≡ self.old.found
            ++ spec.line_file_names (spec.file_lines_above m depth name.now bytes.now)) }
        ensures kept { F.files files.new ≡ F.files files.old }
    {
        let file = NamedFile {
            name,
            near: self.found.name_count(),
            depth,
        };
        let mut blocks: Vec<Block> = Vec::new(alloc);
        let mut lines = Cursor::new(bytes);
        while let Some(line) = lines.take_shown(alloc)? {
            self.read_line(alloc, files, file, &mut blocks, &line)?;
        }
        self.read_missing_ends(alloc, file, blocks)
    }

    // Reads the next line of a file in which `blocks` are open.
    #[cycle(pass)]
    fn read_line<F: Files>(
        &mut self,
        alloc: Global,
        files: &mut F,
        file: NamedFile<'_>,
        blocks: &mut Vec<Block>,
        line: &LentLine<'_>,
    ) -> Result<(), LineFilesFault>
        ensures found { (m : FileMap) → F.files files.old ≡ Some m → OnOk result
            (self.new.found ≡ self.old.found ++ spec.line_file_names
            (spec.file_lines_of_line m file.entry.depth file.entry.name.now (reverse blocks.old.items) line.now)) }
        ensures blocks { OnOk result (reverse blocks.new.items
            ≡ excerpts.blocks_behind_line (reverse blocks.old.items) line.now (store_line_reading_of line.now.text)) }
        ensures kept { F.files files.new ≡ F.files files.old }
    {
        self.push(alloc, file, line.number(), line.text())?;
        match step_of(line.text()) {
            Step::Includes(word) => {
                let name = name_beside(alloc, file.name, word)?;
                self.read_include(alloc, files, name.as_bytes(), file.depth)
            }
            Step::Changes(role) => change_blocks(blocks, line.number(), role),
        }
    }

    // Reads the lines of the included file with this name. Files may be nested up to `depth` deep, counting this file.
    #[cycle(pass)]
    fn read_include<F: Files>(
        &mut self,
        alloc: Global,
        files: &mut F,
        name: &[u8],
        depth: u8,
    ) -> Result<(), LineFilesFault>
        ensures found { (m : FileMap) → F.files files.old ≡ Some m → OnOk result
            (self.new.found ≡ self.old.found ++ spec.line_file_names (spec.file_lines_below m depth name.now)) }
        ensures kept { F.files files.new ≡ F.files files.old }
    {
        if depth == 0 {
            return Ok(());
        }
        match files.fetch(alloc, name) {
            Ok(text) => self.read_file(alloc, files, name, text.as_bytes(), depth - 1),
            Err(FetchFault::Absent) => Ok(()),
            Err(FetchFault::TooLong) => Ok(()),
            Err(FetchFault::Failed) => Err(LineFilesFault::Changed),
            Err(FetchFault::OutOfMemory) => Err(LineFilesFault::OutOfMemory),
        }
    }

    // Reads the end lines of the blocks that are not closed, innermost first.
    fn read_missing_ends(
        &mut self,
        alloc: Global,
        file: NamedFile<'_>,
        mut blocks: Vec<Block>,
    ) -> Result<(), LineFilesFault>
        ensures { OnOk result (self.new.found
            ≡ self.old.found ++ map (λ block. file.entry.name.now) (reverse blocks.items)) }
    {
        while let Some(block) = blocks.pop() {
            self.push(alloc, file, block.number, end_line_text(block.ending))?;
        }
        Ok(())
    }
}
