ghost use Rattle.std.specs.Prelude.{◌≡◌, ◌≤◌, [], length};
ghost use Rattle.litmus_text.specs.PaddedCells.{text_in, PutsCell};

use crate::cell::{CELL_ROOM, Cell, PaddedCell};
use arch_trait::MAX_INSTRUCTION_TEXT;
use diy_io::Page;

/// ` | ` and blanks.
const BLANK_CELL: &[u8; CELL_ROOM] = b" |                                         ";

impl Default for PaddedCell {
    fn default() -> PaddedCell
        ensures { text_in result ≡ [] }
    {
        PaddedCell {
            bytes: *BLANK_CELL,
            len: 0,
        }
    }
}

impl PaddedCell {
    /// Makes this the cell with the text.
    pub(crate) fn set(&mut self, text: &Cell)
        ensures { text_in self.new ≡ text.now.bytes }
    {
        let text = text.as_str().as_bytes();
        self.bytes = *BLANK_CELL;
        self.bytes[3..3 + text.len()].copy_from_slice(text);
        self.len = text.len() as u8;
    }

    /// Appends the cell of a thread to a row, filled with blanks up to a width, and with ` | ` before
    /// it unless it is the first.
    #[inline(always)]
    pub(crate) fn put(&self, thread: usize, width: usize, page: &mut Page)
        requires within { length (text_in self.now) ≤ width }
        requires short { width ≤ MAX_INSTRUCTION_TEXT }
        ensures { PutsCell thread (text_in self.now) width page.old page.new }
    {
        if thread == 0 {
            match self.bytes.last_chunk::<MAX_INSTRUCTION_TEXT>() {
                Some(text) => page.put_first(text, width),
                None => unreachable!(),
            }
        } else {
            page.put_first(&self.bytes, 3 + width);
        }
    }
}
