ghost use Rattle.std.specs.Prelude.{◌≡◌, Option, option_map};
ghost use Rattle.relax_edges.specs.Architectures.{arch_of};
ghost use Rattle.litmus_text.specs.ReadingAnswers.{GivesTest};
ghost use Rattle.litmus_text.specs.Header.{arch_read, arch_in, header_read, name_in_header, quote_read, quote_line, quote_cut, is_setting, after_settings, two_words};
ghost use Rattle.litmus_text.specs.{TextLines.{line}, Views.{text_left, cut_seen}};
ghost use Rattle.text_parts.specs.{Cuts.{cut_at}, Words.{words}};

use crate::errors::{TestKind, TextError, error_at_line};
use crate::limits::MAX_TEST_NAME;
use crate::reading::cuts::{split_letters, two_words};
use crate::reading::lines::Lines;
use crate::reading::text::Text;
use relax_edges::ArchName;
use text_parts::cut;

/// The architecture with this name, if there is one.
fn arch_named(word: &[u8]) -> Option<ArchName>
    ensures { result ≡ arch_of word.now }
{
    if word == b"X86".as_slice() {
        Some(ArchName::X86)
    } else if word == b"PPC".as_slice() {
        Some(ArchName::PPC)
    } else if word == b"AArch64".as_slice() {
        Some(ArchName::AArch64)
    } else if word == b"RISCV".as_slice() {
        Some(ArchName::RISCV)
    } else if word == b"ARM".as_slice() {
        Some(ArchName::ARM)
    } else {
        None
    }
}

fn arch_in<'a>(
    number: u64,
    rest: Text<'a>,
    header: Option<(&'a [u8], &'a [u8])>,
) -> Result<(ArchName, Text<'a>), TextError>
    ensures { GivesTest (λ x. (x.0, text_left x.1)) result (arch_in number (text_left rest.entry) (cut_seen header.entry)) }
{
    let Some((word, name)) = header else {
        return Err(error_at_line(TestKind::BadHeader, number));
    };
    match arch_named(word) {
        Some(arch) if name.len() <= MAX_TEST_NAME => Ok((arch, rest)),
        _ => Err(error_at_line(TestKind::BadHeader, number)),
    }
}

/// The architecture that the header names.
#[tactic(auto, unfolding(crate::specs::Header::arch_read))]
pub(crate) fn read_arch(text: Text<'_>) -> Result<(ArchName, Text<'_>), TextError>
    ensures { GivesTest (λ x. (x.0, text_left x.1)) result (arch_read (text_left text.entry)) }
{
    match text.lines() {
        Lines::Ends(number) => Err(error_at_line(TestKind::EndMissing, number)),
        Lines::Line(line) => arch_in(line.number, line.rest, two_words(line.text)),
    }
}

fn name_in_header<'a>(
    arch: ArchName,
    number: u64,
    rest: Text<'a>,
    header: Option<(&'a [u8], &'a [u8])>,
) -> Result<(&'a [u8], Text<'a>), TextError>
    ensures { GivesTest (λ x. (x.0.now, text_left x.1)) result (name_in_header arch number (text_left rest.entry) (cut_seen header.entry)) }
{
    match header {
        Some((word, name)) if word == arch.name().as_bytes() && name.len() <= MAX_TEST_NAME => {
            Ok((name, rest))
        }
        _ => Err(error_at_line(TestKind::BadHeader, number)),
    }
}

/// The name in the header, which must be of this architecture.
#[tactic(auto, unfolding(crate::specs::Header::header_read))]
pub(crate) fn read_header(arch: ArchName, text: Text<'_>) -> Result<(&[u8], Text<'_>), TextError>
    ensures { GivesTest (λ x. (x.0.now, text_left x.1)) result (header_read arch (text_left text.entry)) }
{
    match text.lines() {
        Lines::Ends(number) => Err(error_at_line(TestKind::EndMissing, number)),
        Lines::Line(line) => name_in_header(arch, line.number, line.rest, two_words(line.text)),
    }
}

fn quote_cut<'a>(
    number: u64,
    text: &'a [u8],
    rest: Text<'a>,
) -> Result<(&'a [u8], Text<'a>), TextError>
    ensures { GivesTest (λ x. (Some x.0.now, text_left x.1)) result (quote_cut number (text_left rest.entry) (cut_at 34 text.now)) }
{
    match cut(b'"', text) {
        Some((quoted, [])) => Ok((quoted, rest)),
        _ => Err(error_at_line(TestKind::BadQuote, number)),
    }
}

/// The quoted text, if the next line begins with a double quote.
#[tactic(auto, unfolding(crate::specs::Header::quote_read))]
pub(crate) fn read_quote(text: Text<'_>) -> Result<(Option<&[u8]>, Text<'_>), TextError>
    ensures { GivesTest (λ x. (option_map (λ t. t.now) x.0, text_left x.1)) result (quote_read (text_left text.entry)) }
{
    let Lines::Line(line) = text.lines() else {
        return Ok((None, text));
    };
    let [b'"', inner @ ..] = line.text else {
        return Ok((None, text));
    };
    let (quoted, rest) = quote_cut(line.number, inner, line.rest)?;
    Ok((Some(quoted), rest))
}

/// Whether a line is one or more letters, `=` and anything.
#[tactic(auto, unfolding(crate::specs::Header::is_setting))]
fn is_setting(text: &[u8]) -> bool
    ensures { result ≡ is_setting text.now }
{
    let (letters, rest) = split_letters(text);
    !letters.is_empty() && matches!(rest, [b'=', ..])
}

/// What is left after the lines of letters, `=` and anything that come next.
#[tactic(auto, using(crate::proofs::PartLoops::settings_more, crate::proofs::PartLoops::settings_stop, crate::proofs::PartLoops::settings_end))]
pub(crate) fn after_settings(text: Text<'_>) -> Text<'_>
    ensures { text_left result ≡ after_settings (text_left text.entry) }
{
    let mut left = text;
    'settings: loop {
        let Lines::Line(line) = left.lines() else {
            return left;
        };
        if !is_setting(line.text) {
            return left;
        }
        left = line.rest;
    }
}
