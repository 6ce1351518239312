/// The word that a line of a table begins with, if it isn't a line of bytes.
#[derive(Clone, Copy, PartialEq, Eq)]
pub enum Keyword {
    /// Names a text, for lines `=NAME` below.
    Text,
    /// Begins a row, with its name.
    Row,
    /// Arguments of the call, with one blank between.
    Words,
    /// An argument of the call, which may have blanks or be empty. Bytes below belong to it too.
    Word,
    /// The arguments of a call that is made first, on the same shelf.
    Before,
    /// The input is read as a test, of this architecture or of the one that its header names.
    Read,
    /// The bytes of the input.
    Input,
    /// The most bytes that the input gives in a call.
    Piece,
    /// The numbers of the input's calls that fail.
    FailInput,
    /// The numbers of the shelf's calls that fail.
    FailShelf,
    /// How many bytes the output takes.
    RoomOut,
    /// How many bytes standard error takes.
    RoomErr,
    /// How many bytes the shelf takes.
    RoomShelf,
    /// How many new names the shelf takes; by default, as many as the row has lines `wanted`.
    Names,
    /// A file on the shelf before the call. It is expected to stay as it is, unless the row says otherwise.
    File,
    /// The row stands for a call for each length from the first number to the second: the output has
    /// space for this many bytes and takes this prefix, or this prefix of the input is read.
    Prefixes,
    /// The expected exit status, and the status with its fields; for a text that is read, `Read` or its error.
    Status,
    /// The expected output.
    Out,
    /// The expected bytes on standard error.
    Err,
    /// What is expected to be left in the input after the call.
    Left,
    /// A file that is expected on the shelf after the call.
    Wanted,
    /// A file that must not be on the shelf after the call.
    Absent,
    /// How many bytes and line feeds the output, which then only counts, is expected to have counted.
    Tally,
}

impl Keyword {
    /// The keyword that a word is.
    pub fn of(word: &str) -> Option<Keyword> {
        match word {
            "text" => Some(Keyword::Text),
            "row" => Some(Keyword::Row),
            "words" => Some(Keyword::Words),
            "word" => Some(Keyword::Word),
            "before" => Some(Keyword::Before),
            "read" => Some(Keyword::Read),
            "input" => Some(Keyword::Input),
            "piece" => Some(Keyword::Piece),
            "fail-input" => Some(Keyword::FailInput),
            "fail-shelf" => Some(Keyword::FailShelf),
            "room-out" => Some(Keyword::RoomOut),
            "room-err" => Some(Keyword::RoomErr),
            "room-shelf" => Some(Keyword::RoomShelf),
            "names" => Some(Keyword::Names),
            "file" => Some(Keyword::File),
            "prefixes" => Some(Keyword::Prefixes),
            "status" => Some(Keyword::Status),
            "out" => Some(Keyword::Out),
            "err" => Some(Keyword::Err),
            "left" => Some(Keyword::Left),
            "wanted" => Some(Keyword::Wanted),
            "absent" => Some(Keyword::Absent),
            "tally" => Some(Keyword::Tally),
            _ => None,
        }
    }

    /// Whether a row may have more than one line with it.
    pub fn may_repeat(self) -> bool {
        matches!(
            self,
            Keyword::Text
                | Keyword::Words
                | Keyword::Word
                | Keyword::File
                | Keyword::Wanted
                | Keyword::Absent
        )
    }

    /// Whether lines of bytes may follow it.
    pub fn takes_bytes(self) -> bool {
        matches!(
            self,
            Keyword::Text
                | Keyword::Word
                | Keyword::Input
                | Keyword::File
                | Keyword::Out
                | Keyword::Err
                | Keyword::Left
                | Keyword::Wanted
        )
    }
}

/// A line of a table with a keyword, and the bytes of the lines below it.
#[derive(Drop)]
pub struct Block {
    pub keyword: Keyword,
    pub argument: String,
    pub bytes: Vec<u8>,
}

/// Whether each keyword that a row may have once comes at most once.
pub fn come_once(blocks: &[Block]) -> bool {
    for at in 0..blocks.len() {
        let keyword = blocks[at].keyword;
        if !keyword.may_repeat() && first(&blocks[at + 1..], keyword).is_some() {
            return false;
        }
    }
    true
}

/// The first block with a keyword.
pub fn first(blocks: &[Block], keyword: Keyword) -> Option<&Block> {
    blocks.iter().find(|block| block.keyword == keyword)
}

/// The first block with a keyword and an argument.
pub fn find_block<'a>(blocks: &'a [Block], keyword: Keyword, name: &str) -> Option<&'a Block> {
    blocks.iter().find(|block| block.keyword == keyword && block.argument.as_str() == name)
}

/// The bytes of the first block with a keyword, or no bytes if there is no such block.
pub fn bytes_of(blocks: &[Block], keyword: Keyword) -> &[u8] {
    match first(blocks, keyword) {
        Some(block) => block.bytes.as_slice(),
        None => b"",
    }
}
