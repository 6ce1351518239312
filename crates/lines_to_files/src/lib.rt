//! Tests of lines of cycles, each in a file: what is written, and its laws.
#![tactic(auto)]

ghost use Rattle.lines_to_files.specs.Laws.{CutTextsAddUp, ListedLinesReadBack};

mod ending;
mod form;
mod judging;
mod making;
mod names;
mod putting;
mod reading;
mod source_text;
mod text_lines;
mod wanted;
mod writing;

pub use ending::LineTestsEnd;
pub use form::{TestForm, WrongTest};
pub use writing::write_line_tests;

/// If a text of lines is cut after a line feed, the tests of the whole are those of both parts. So the files of the whole are
/// those of both parts, and `@all` is that of the first part and then that of the second, as long as no name of the second part
/// is so long that a number stands for it in the file's name.
pub fn cut_texts_add_up()
    ensures { CutTextsAddUp }
{}

/// The lines of the cycles of a listing, as `diy7 -list` writes them, give exactly the files of the listing, as `diy7` writes them.
pub fn listed_lines_read_back()
    ensures { ListedLinesReadBack }
{}
