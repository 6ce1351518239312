ghost use Rattle.std.specs.Prelude.{◌≡◌, ◌≤◌, take, drop};
ghost use Rattle.arch_trait.specs.declared.arch.TheConstants.{MAX_INSTRUCTION_TEXT};
ghost use Rattle.litmus_text.specs.Separators.{padded};

use arch_trait::MAX_INSTRUCTION_TEXT;
use arrayvec::ArrayString;

/// The text of one cell.
pub(crate) type Cell = ArrayString<MAX_INSTRUCTION_TEXT>;

/// The most bytes that a cell with ` | ` before it can have.
pub(crate) const CELL_ROOM: usize = MAX_INSTRUCTION_TEXT + 3;

/// A cell as rows have it: ` | `, its text, and blanks up to the greatest width of a column. So each
/// row copies it in one piece of fixed length, however wide its column is.
#[derive(Clone, Copy)]
pub(crate) struct PaddedCell {
    pub(crate) bytes: [u8; CELL_ROOM],
    pub(crate) len: u8,
    ghost short: { len ≤ MAX_INSTRUCTION_TEXT },
    ghost filled: { bytes ≡ padded (take len (drop 3 bytes)) },
}
