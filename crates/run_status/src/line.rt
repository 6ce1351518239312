ghost use Rattle.std.specs.{Prelude.{◌≡◌, ◌<◌, ◌++◌, codes, drop, slice_get, take}, Option.{option_map}, Fmt.{decimal}};
ghost use Rattle.relax_edges.specs.declared.TheConstants.{MAX_EDGES};
ghost use Rattle.diy_io.specs.Page.{Sends};
ghost use Rattle.test_maker.specs.declared.refusal.Refusal.TheVariants as refusals;
ghost use Rattle.test_maker.specs.Made.{NamesLocation};
ghost use Rattle.run_status.specs.Report.{status_line, refusal_line, refusal_text, usage_line, usage_text, line_text, log_text, test_kind_text, exec_text, kind_text, word_at, file_text, fault_part, shown_word, device_text, StatusNamesLocation, text_line, KindNamesLocation, line_end, text_head};

use crate::status::{Device, Status, TextKind};
use arch_trait::Places;
use cycles_from_lines::LineKind;
use diy_io::{Failed, Page, Sink, Words};
use diy_words::UsageKind;
use exec_text::ExecKind;
use itoa::Buffer;
use litmus_text::TestKind;
use log_sum::LogKind;
use test_maker::Refusal;

/// Sends the line of a status through a page.
pub(crate) fn send_line<E: Sink>(
    status: Status,
    words: &Words,
    page: &mut Page,
    err: &mut E,
) -> Result<(), Failed>
    requires { StatusNamesLocation status }
    ensures { Sends (E.seen err.old) page.old (E.seen err.new) page.new (status_line words.now status) result }
{
    match status {
        Status::Done => Ok(()),
        Status::Skipped => Ok(()),
        Status::Refused(refusal) => send_refused(refusal, page, err),
        Status::Usage { word, kind } => send_usage(word, kind, words, page, err),
        Status::BadText { file, line, kind } => {
            send_text(file_name(file, words), line, kind, page, err)
        }
        Status::NoFile { word } => {
            page.send_pieces(&[b"diy: no file: ", word_at(word, words), b"\n"], err)
        }
        Status::NoBlock { word } => {
            page.send_pieces(&[b"diy: no block: ", word_at(word, words), b"\n"], err)
        }
        Status::ReadFault { of } => {
            page.send_pieces(&[b"diy: read fault: ", device_name(of), b"\n"], err)
        }
        Status::WriteFault { of } => {
            page.send_pieces(&[b"diy: write fault: ", device_name(of), b"\n"], err)
        }
        Status::NoMemory => page.send_pieces(&[b"diy: no memory\n"], err),
    }
}

/// Sends the line of a usage error.
fn send_usage<E: Sink>(
    word: usize,
    kind: UsageKind,
    words: &Words,
    page: &mut Page,
    err: &mut E,
) -> Result<(), Failed>
    ensures { Sends (E.seen err.old) page.old (E.seen err.new) page.new (usage_line (usage_text kind) (shown_word (option_map (fault_part kind) (slice_get words.now word)))) result }
{
    let name = usage_name(kind);
    if word < words.len() {
        send_word(
            name,
            fault_part(kind, words.get(word).as_bytes()),
            page,
            err,
        )
    } else {
        page.send_pieces(&[b"diy: usage ", name, b"\n"], err)
    }
}

/// What is shown of the argument at fault.
fn fault_part(kind: UsageKind, word: &[u8]) -> &[u8]
    ensures { result.now ≡ fault_part kind word.now }
{
    match kind {
        UsageKind::IdleRelax { start, len } => part(word, start, len),
        _ => word,
    }
}

/// The bytes of a text from an index on, at most so many.
fn part(text: &[u8], start: usize, len: usize) -> &[u8]
    ensures { result.now ≡ take len (drop start text.now) }
{
    let rest = &text[start.min(text.len())..];
    &rest[..len.min(rest.len())]
}

/// Sends the line of a usage error of which this part of an argument is shown.
fn send_word<E: Sink>(name: &[u8], word: &[u8], page: &mut Page, err: &mut E) -> Result<(), Failed>
    ensures { Sends (E.seen err.old) page.old (E.seen err.new) page.new (usage_line name.now (codes ": " ++ word.now)) result }
{
    page.send_pieces(&[b"diy: usage ", name, b": ", word, b"\n"], err)
}

fn device_name(device: Device) -> &'static [u8]
    ensures { result.now ≡ device_text device }
{
    match device {
        Device::Input => b"input",
        Device::Out => b"out",
        Device::Shelf => b"shelf",
    }
}

fn usage_name(kind: UsageKind) -> &'static [u8]
    ensures { result.now ≡ usage_text kind }
{
    match kind {
        UsageKind::UnknownTool => b"UnknownTool",
        UsageKind::UnknownOption => b"UnknownOption",
        UsageKind::MissingValue => b"MissingValue",
        UsageKind::BadNumber => b"BadNumber",
        UsageKind::UnknownArch => b"UnknownArch",
        UsageKind::BadMode => b"BadMode",
        UsageKind::BadName => b"BadName",
        UsageKind::BadFolder => b"BadFolder",
        UsageKind::UnknownEdge => b"UnknownEdge",
        UsageKind::BadBracket => b"BadBracket",
        UsageKind::RelaxTooLong => b"RelaxTooLong",
        UsageKind::DoesNotJoin => b"DoesNotJoin",
        UsageKind::TooManyRelaxes => b"TooManyRelaxes",
        UsageKind::UnknownName => b"UnknownName",
        UsageKind::BadAfter => b"BadAfter",
        UsageKind::StrayWord => b"StrayWord",
        UsageKind::ExcludedOption => b"ExcludedOption",
        UsageKind::MissingArch => b"MissingArch",
        UsageKind::MissingEdges => b"MissingEdges",
        UsageKind::MissingNumber => b"MissingNumber",
        UsageKind::MissingFile => b"MissingFile",
        UsageKind::MissingWhy => b"MissingWhy",
        UsageKind::TooManyChoices => b"TooManyChoices",
        UsageKind::IdleRelax { .. } => b"IdleRelax",
    }
}

fn line_name(kind: LineKind) -> &'static [u8]
    ensures { result.now ≡ line_text kind }
{
    match kind {
        LineKind::LineTooLong => b"LineTooLong",
        LineKind::UnknownEdge => b"UnknownEdge",
        LineKind::Empty => b"Empty",
        LineKind::TooLong => b"TooLong",
        LineKind::NotOfArch => b"NotOfArch",
        LineKind::DoesNotCompose => b"DoesNotCompose",
        LineKind::UnknownName => b"UnknownName",
    }
}

pub(crate) fn log_name(kind: LogKind) -> &'static [u8]
    ensures { result.now ≡ log_text kind }
{
    match kind {
        LogKind::Truncated => b"Truncated",
        LogKind::BadState => b"BadState",
        LogKind::BadCount => b"BadCount",
        LogKind::MarkDiffers => b"MarkDiffers",
        LogKind::HashDiffers => b"HashDiffers",
        LogKind::ConditionDiffers => b"ConditionDiffers",
        LogKind::SumTooLarge => b"SumTooLarge",
        LogKind::NoCounts => b"NoCounts",
        LogKind::KindDiffers => b"KindDiffers",
        LogKind::LineTooLong => b"LineTooLong",
    }
}

fn test_name(kind: TestKind) -> &'static [u8]
    ensures { result.now ≡ test_kind_text kind }
{
    match kind {
        TestKind::BadHeader => b"BadHeader",
        TestKind::BadQuote => b"BadQuote",
        TestKind::BadInit => b"BadInit",
        TestKind::BadTable => b"BadTable",
        TestKind::BadInstruction => b"BadInstruction",
        TestKind::BadLabel => b"BadLabel",
        TestKind::BadCondition => b"BadCondition",
        TestKind::TooLarge => b"TooLarge",
        TestKind::EndMissing => b"EndMissing",
    }
}

fn exec_name(kind: ExecKind) -> &'static [u8]
    ensures { result.now ≡ exec_text kind }
{
    match kind {
        ExecKind::BadThread => b"BadThread",
        ExecKind::BadRead => b"BadRead",
        ExecKind::BadPlace => b"BadPlace",
        ExecKind::BadWrite => b"BadWrite",
        ExecKind::EndMissing => b"EndMissing",
        ExecKind::StrayLine => b"StrayLine",
        ExecKind::TooLarge => b"TooLarge",
    }
}

/// Sends what is wrong with a text, and the end of the line.
fn send_kind<E: Sink>(kind: TextKind, page: &mut Page, err: &mut E) -> Result<(), Failed>
    requires { KindNamesLocation kind }
    ensures { Sends (E.seen err.old) page.old (E.seen err.new) page.new (line_end (kind_text kind)) result }
{
    match kind {
        TextKind::Line(kind) => send_name(line_name(kind), page, err),
        TextKind::Refused(refusal) => send_refusal(refusal, page, err),
        TextKind::BadName => send_name(b"BadName", page, err),
        TextKind::NameTaken => send_name(b"NameTaken", page, err),
        TextKind::Log(kind) => send_name(log_name(kind), page, err),
        TextKind::Test(kind) => send_name(test_name(kind), page, err),
        TextKind::Exec(kind) => send_name(exec_name(kind), page, err),
        TextKind::WrongArch => send_name(b"WrongArch", page, err),
        TextKind::NoCycle => send_name(b"NoCycle", page, err),
        TextKind::TooMuch => send_name(b"TooMuch", page, err),
    }
}

/// Sends the name of what is wrong, and the end of the line.
fn send_name<E: Sink>(name: &[u8], page: &mut Page, err: &mut E) -> Result<(), Failed>
    ensures { Sends (E.seen err.old) page.old (E.seen err.new) page.new (line_end name.now) result }
{
    page.send_pieces(&[name, b"\n"], err)
}

/// The argument at an index, or the empty text if there is none.
pub(crate) fn word_at(place: usize, words: &Words) -> &[u8]
    ensures { result.now ≡ word_at words.now place }
{
    if place < words.len() {
        words.get(place).as_bytes()
    } else {
        b""
    }
}

/// The name of a text: the argument that names it, or `-` for the input.
fn file_name(file: Option<usize>, words: &Words) -> &[u8]
    ensures { result.now ≡ file_text words.now file }
{
    match file {
        Some(word) => word_at(word, words),
        None => b"-",
    }
}

/// Sends the line of an error in a text.
fn send_text<E: Sink>(
    file: &[u8],
    line: u64,
    kind: TextKind,
    page: &mut Page,
    err: &mut E,
) -> Result<(), Failed>
    requires { KindNamesLocation kind }
    ensures { Sends (E.seen err.old) page.old (E.seen err.new) page.new (text_line file.now line (kind_text kind)) result }
{
    send_head(file, line, page, err)?;
    send_kind(kind, page, err)
}

/// Sends the head of the line of an error in a text.
pub(crate) fn send_head<E: Sink>(
    file: &[u8],
    line: u64,
    page: &mut Page,
    err: &mut E,
) -> Result<(), Failed>
    ensures { Sends (E.seen err.old) page.old (E.seen err.new) page.new (text_head file.now line) result }
{
    let mut digits = Buffer::new();
    let digits = digits.format(line).as_bytes();
    page.send_pieces(&[b"diy: ", file, b":", digits, b": "], err)
}

/// Sends the line of a refusal.
fn send_refused<E: Sink>(refusal: Refusal, page: &mut Page, err: &mut E) -> Result<(), Failed>
    requires { NamesLocation refusal }
    ensures { Sends (E.seen err.old) page.old (E.seen err.new) page.new (refusal_line (refusal_text refusal)) result }
{
    page.send(b"diy: refused ", err)?;
    send_refusal(refusal, page, err)
}

/// Sends a refusal, and the end of the line.
fn send_refusal<E: Sink>(refusal: Refusal, page: &mut Page, err: &mut E) -> Result<(), Failed>
    requires { NamesLocation refusal }
    ensures { Sends (E.seen err.old) page.old (E.seen err.new) page.new (line_end (refusal_text refusal)) result }
{
    match refusal {
        Refusal::Empty => send_name(b"Empty", page, err),
        Refusal::TooLong => send_name(b"TooLong", page, err),
        Refusal::NotOfArch { at } => send_numbered(b"NotOfArch ", at, page, err),
        Refusal::DoesNotCompose { at } => send_numbered(b"DoesNotCompose ", at, page, err),
        Refusal::TooFewThreads => send_name(b"TooFewThreads", page, err),
        Refusal::CoherenceOnly => send_name(b"CoherenceOnly", page, err),
        Refusal::NeedsObserver { location, event } => send_unobserved(location, event, page, err),
        Refusal::TooManyRegisters { thread } => {
            send_numbered(b"TooManyRegisters ", thread, page, err)
        }
        Refusal::NothingToShow => send_name(b"NothingToShow", page, err),
        Refusal::NotCoherence => send_name(b"NotCoherence", page, err),
        Refusal::ManyWrites => send_name(b"ManyWrites", page, err),
    }
}

/// Sends the name of what is wrong, a number, and the end of the line.
fn send_numbered<E: Sink>(
    name: &[u8],
    number: u8,
    page: &mut Page,
    err: &mut E,
) -> Result<(), Failed>
    ensures { Sends (E.seen err.old) page.old (E.seen err.new) page.new (line_end (name.now ++ decimal number)) result }
{
    let mut digits = Buffer::new();
    let digits = digits.format(number).as_bytes();
    page.send_pieces(&[name, digits, b"\n"], err)
}

/// Sends the refusal that a write needs an observer, and the end of the line.
#[tactic(auto, using(crate::proofs::Reported::letter_at, crate::proofs::Reported::letters_long))]
fn send_unobserved<E: Sink>(
    location: u8,
    event: u8,
    page: &mut Page,
    err: &mut E,
) -> Result<(), Failed>
    requires { location < MAX_EDGES }
    ensures { Sends (E.seen err.old) page.old (E.seen err.new) page.new (line_end (refusal_text (refusals.NeedsObserver location event))) result }
{
    let places = Places::letters(location + 1);
    let name = places.get(location).as_str().as_bytes();
    let mut digits = Buffer::new();
    let digits = digits.format(event).as_bytes();
    page.send_pieces(&[b"NeedsObserver ", name, b" ", digits, b"\n"], err)
}
