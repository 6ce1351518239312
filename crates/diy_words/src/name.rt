ghost use Rattle.std.specs.{Prelude.{◌≡◌, Some, None, Option, if◌then◌else◌}, Option.{option_map}, List.{list_all}};
ghost use Rattle.text_parts.specs.Names.{is_name_byte};
ghost use Rattle.diy_words.specs.TestNames.{is_name};

use crate::request::{MAX_GIVEN_NAME, TestName};

/// Whether a text can name a test.
fn is_name(text: &str) -> bool
    ensures { result ≡ is_name text.now }
{
    !text.is_empty() && text.len() <= MAX_GIVEN_NAME && has_name_bytes(text.as_bytes())
}

fn has_name_bytes(bytes: &[u8]) -> bool
    ensures { result ≡ list_all is_name_byte bytes.now }
{
    match bytes {
        [] => true,
        [byte, rest @ ..] => is_name_byte(*byte) && has_name_bytes(rest),
    }
}

fn is_name_byte(byte: u8) -> bool
    ensures { result ≡ is_name_byte byte }
{
    byte.is_ascii_alphanumeric() || byte == b'+' || byte == b'-' || byte == b'.' || byte == b'_'
}

/// The name that a text is, if it can name a test.
pub fn name_of(text: &str) -> Option<TestName>
    ensures { option_map (λ name. name.bytes) result ≡ (if is_name text.now then Some text.now else None) }
{
    if !is_name(text) {
        return None;
    }
    let mut name = TestName::new();
    name.push_str(text);
    Some(name)
}
