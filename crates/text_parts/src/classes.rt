ghost use Rattle.std.specs.{Prelude.{◌≡◌}, List.{list_all}};
ghost use Rattle.text_parts.specs.Classes.{class_test};

/// The classes of bytes by which a text is taken apart. Letters and digits are those of ASCII.
#[derive(Clone, Copy)]
pub enum Class {
    /// A space or a tab.
    Blank,
    /// Any other byte.
    Inked,
    /// A byte that is neither a blank nor a `(`.
    Word,
    /// A letter, a digit or `_`.
    PlaceName,
    /// A letter or a digit.
    RegisterName,
    /// A letter.
    Letter,
    /// A decimal digit.
    Digit,
}

impl Class {
    /// Whether a byte is in the class.
    pub fn has(self, byte: u8) -> bool
        ensures { result ≡ class_test self byte }
    {
        match self {
            Class::Blank => byte == b' ' || byte == b'\t',
            Class::Inked => byte != b' ' && byte != b'\t',
            Class::Word => byte != b' ' && byte != b'\t' && byte != b'(',
            Class::PlaceName => byte.is_ascii_alphanumeric() || byte == b'_',
            Class::RegisterName => byte.is_ascii_alphanumeric(),
            Class::Letter => byte.is_ascii_alphabetic(),
            Class::Digit => byte.is_ascii_digit(),
        }
    }

    /// Whether all bytes are in the class; so for no bytes.
    pub fn has_all(self, bytes: &[u8]) -> bool
        ensures { result ≡ list_all (class_test self) bytes.now }
    {
        bytes.iter().all(|byte| self.has(*byte))
    }
}
