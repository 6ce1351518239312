ghost use Rattle.std.specs.{Prelude.{◌≡◌, option_map, IsTrue}, Char.{is_ascii_digit}, List.{list_all}};
ghost use Rattle.text_parts.specs.Names.{is_name_byte};
ghost use Rattle.lines_to_files.specs.{GivenTests.{label_of, test_given}, RightTests.{names_file, is_number_name}};

use arrayvec::ArrayString;
use cycle_names::{MAX_CYCLE_NAME, name_of};
use edge_algebra::Cycle;
use text_parts::{Class, cut, trim_blanks};

/// The name of a test.
pub(crate) type Name = ArrayString<MAX_CYCLE_NAME>;

/// Sets `name` to the name of the test of a line and its cycle, and returns whether it can name the test and its file. If it can't,
/// nothing is known about `name`.
pub(crate) fn set_name(line: &[u8], cycle: &Cycle, name: &mut Name) -> bool
    ensures fit { result ≡ names_file (test_given line.now cycle.now).name }
    ensures named { IsTrue result → name.new.bytes ≡ (test_given line.now cycle.now).name }
{
    match label_of(line) {
        Some(label) => set_label(label, name),
        None => {
            name_of(cycle, name);
            true
        }
    }
}

/// The label of a line, without blanks at its ends, if it has one.
fn label_of(line: &[u8]) -> Option<&[u8]>
    ensures { option_map (λ label. label.now) result ≡ label_of line.now }
{
    match cut(b':', line) {
        Some((label, _)) => Some(trim_blanks(label)),
        None => None,
    }
}

#[tactic(auto, using(crate::proofs::TestNames::none_unencoded))]
fn set_label(label: &[u8], name: &mut Name) -> bool
    ensures fit { result ≡ names_file label.now }
    ensures named { IsTrue result → name.new.bytes ≡ label.now }
{
    if !names_file(label) {
        return false;
    }
    match str::from_utf8(label) {
        Ok(label) => {
            name.clear();
            name.push_str(label);
            true
        }
        Err(_) => false,
    }
}

/// Whether a text can name a test and its file.
fn names_file(text: &[u8]) -> bool
    ensures { result ≡ names_file text.now }
{
    !text.is_empty()
        && text.len() <= MAX_CYCLE_NAME
        && has_name_bytes(text)
        && !is_number_name(text)
}

fn has_name_bytes(text: &[u8]) -> bool
    ensures { result ≡ list_all is_name_byte text.now }
{
    text.iter().all(|byte| is_name_byte(*byte))
}

fn is_name_byte(byte: u8) -> bool
    ensures { result ≡ is_name_byte byte }
{
    byte.is_ascii_alphanumeric() || byte == b'+' || byte == b'-' || byte == b'.' || byte == b'_'
}

/// Whether a text is `long` and a number.
fn is_number_name(text: &[u8]) -> bool
    ensures { result ≡ is_number_name text.now }
{
    text.starts_with(b"long") && text.len() > 4 && are_digits(&text[4..])
}

fn are_digits(text: &[u8]) -> bool
    ensures { result ≡ list_all is_ascii_digit text.now }
{
    text.iter().all(|byte| byte.is_ascii_digit())
}
