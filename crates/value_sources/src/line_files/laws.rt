//! Laws of the lines of files.

ghost use Rattle.value_sources.specs.FileLineLaws.{FileLinesLaw};

/// The lines of a file and of the files that it includes are those of its deck, and each of them is in its file.
pub fn file_lines_law()
    ensures { FileLinesLaw }
{}
