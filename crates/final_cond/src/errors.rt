use thiserror::Error;

/// What is wrong or missing in the text of a condition.
#[derive(Clone, Copy, Debug, PartialEq, Eq, Error)]
pub enum CondKind {
    /// The first word isn't a quantifier, or no `(` follows it.
    #[error("a quantifier or a parenthesis is wrong")]
    BadQuantifier,
    /// A left side is wrong, or no `=` follows it.
    #[error("a left side is wrong")]
    BadTerm,
    /// A value isn't a decimal number of at most 4,294,967,295 without leading zeros.
    #[error("a value is wrong")]
    BadValue,
    /// After a term there is neither `/\` nor `)`, the text goes on after the `)`, or a term comes
    /// after `MAX_TERMS` others.
    #[error("the end of a term or of the condition is wrong")]
    BadEnd,
}

/// Why a text isn't a condition: its first error.
#[derive(Clone, Copy, Debug, PartialEq, Eq, Error)]
#[error("byte {at}: {kind}")]
pub struct CondError {
    /// The position in the text, after any blanks, where the wrong or missing part should begin. It
    /// is the text's length if nothing comes there.
    pub at: usize,
    pub kind: CondKind,
}

/// An error in a text that is read from the left: what is wrong or missing, and the text from
/// there on, without the blanks before it.
#[derive(Clone, Copy)]
pub struct CondFault<'a> {
    pub kind: CondKind,
    pub rest: &'a [u8],
}
