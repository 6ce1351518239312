ghost use Rattle.std.specs.{Prelude.{◌≡◌, ◌++◌, [], map}, List.{flat_map}};
ghost use Rattle.diy_io.specs.Page.{Sends};
ghost use Rattle.log_sum.specs.{SumViews.{named_view, test_view}, Summed.{is_validated, some_or}};
ghost use Rattle.log_sum.specs.SumText.{sum_kind_word, mark_sign, verdict_word, verdict_end, how_often, filling, head_text, state_line, sum_verdict_text, claim_text, hash_text, condition_text, observation_text, lines_text, summed_text, sums_text, table_line};

use crate::kinds::{Kind, Mark};
use crate::test_sum::TestSum;
use diy_io::{Failed, Page, Sink};
use itoa::Buffer;

/// Six spaces, by which a count is filled up, and then the sign of a mark.
const STARRED_SIGN: [u8; 8] = *b"      *>";

const PLAIN_SIGN: [u8; 8] = *b"      :>";

fn kind_word<'a>(kind: Kind) -> &'a [u8]
    ensures { result.now ≡ sum_kind_word kind }
{
    match kind {
        Kind::Allowed => b"Allowed",
        Kind::Forbidden => b"Forbidden",
        Kind::Required => b"Required",
    }
}

fn verdict_word<'a>(validated: bool) -> &'a [u8]
    ensures { result.now ≡ verdict_word validated }
{
    if validated { b"Ok" } else { b"No" }
}

fn verdict_end<'a>(validated: bool) -> &'a [u8]
    ensures { result.now ≡ verdict_end validated }
{
    if validated {
        b" is validated"
    } else {
        b" is NOT validated"
    }
}

fn how_often<'a>(starred: u64, plain: u64) -> &'a [u8]
    ensures { result.now ≡ how_often starred plain }
{
    if starred == 0 {
        b"Never"
    } else if plain == 0 {
        b"Always"
    } else {
        b"Sometimes"
    }
}

/// The spaces that fill a count up to six columns, and then the sign of a mark.
pub(crate) fn filled_sign<'a>(count: &[u8], mark: Mark) -> &'a [u8]
    ensures { result.now ≡ filling count.now ++ mark_sign mark }
{
    let from = count.len().min(6);
    match mark {
        Mark::Starred => &STARRED_SIGN[from..],
        Mark::Plain => &PLAIN_SIGN[from..],
    }
}

/// Whether the condition of a test is validated.
fn is_validated(test: &TestSum) -> bool
    ensures { result ≡ is_validated (test_view test.now) }
{
    match test.kind {
        Kind::Allowed => test.once_validated,
        Kind::Forbidden => test.always_validated,
        Kind::Required => test.always_validated,
    }
}

fn condition_of(test: &TestSum) -> &[u8]
    ensures { result.now ≡ some_or [] (test_view test.now).condition }
{
    match &test.condition {
        Some(text) => text.as_slice(),
        None => &[],
    }
}

fn print_head<O: Sink>(
    name: &[u8],
    test: &TestSum,
    page: &mut Page,
    out: &mut O,
) -> Result<(), Failed>
    ensures { Sends (O.seen out.old) page.old (O.seen out.new) page.new (head_text name.now (test_view test.now)) result }
{
    let mut count = Buffer::new();
    let count = count.format(test.states.sums.places.len()).as_bytes();
    let kind = kind_word(test.kind);
    page.send_pieces(
        &[
            b"Test ",
            name,
            b" ",
            kind,
            b"\nHistogram (",
            count,
            b" states)\n",
        ],
        out,
    )
}

fn print_state<O: Sink>(
    form: &[u8],
    mark: Mark,
    count: u64,
    page: &mut Page,
    out: &mut O,
) -> Result<(), Failed>
    ensures { Sends (O.seen out.old) page.old (O.seen out.new) page.new (state_line (form.now, (mark, count))) result }
{
    let mut buffer = Buffer::new();
    let count = buffer.format(count).as_bytes();
    let sign = filled_sign(count, mark);
    page.send_pieces(&[count, sign, form, b"\n"], out)
}

/// Sends the lines of the states of a test, in byte order.
fn print_states<O: Sink>(test: &TestSum, page: &mut Page, out: &mut O) -> Result<(), Failed>
    ensures { Sends (O.seen out.old) page.old (O.seen out.new) page.new (flat_map state_line (test_view test.now).states) result }
{
    for (form, i) in &test.states.sums.places {
        let (mark, count) = test.states.sum_at(*i);
        print_state(form.as_slice(), mark, count, page, out)?;
    }
    Ok(())
}

fn print_verdict<O: Sink>(test: &TestSum, page: &mut Page, out: &mut O) -> Result<(), Failed>
    ensures { Sends (O.seen out.old) page.old (O.seen out.new) page.new (sum_verdict_text (test_view test.now)) result }
{
    let mut starred = Buffer::new();
    let starred = starred.format(test.starred).as_bytes();
    let mut plain = Buffer::new();
    let plain = plain.format(test.plain).as_bytes();
    let verdict = verdict_word(is_validated(test));
    page.send_pieces(
        &[
            verdict,
            b"\n\nWitnesses\nPositive: ",
            starred,
            b", Negative: ",
            plain,
            b"\n",
        ],
        out,
    )
}

#[tactic(auto, unfolding(crate::specs::SumText::claim_text))]
fn print_text<O: Sink>(test: &TestSum, page: &mut Page, out: &mut O) -> Result<(), Failed>
    ensures { Sends (O.seen out.old) page.old (O.seen out.new) page.new (claim_text (test_view test.now)) result }
{
    let condition = condition_of(test);
    let verdict = verdict_end(is_validated(test));
    page.send_pieces(&[b"Condition ", condition, verdict, b"\n"], out)
}

#[tactic(auto, using(diy_io::specs::PageLaws::sent_nothing), unfolding(crate::specs::SumText::hash_text))]
fn print_hash<O: Sink>(test: &TestSum, page: &mut Page, out: &mut O) -> Result<(), Failed>
    ensures { Sends (O.seen out.old) page.old (O.seen out.new) page.new (hash_text (test_view test.now).hash) result }
{
    match &test.hash {
        Some(hash) => page.send_pieces(&[b"Hash=", hash.as_slice(), b"\n"], out),
        None => Ok(()),
    }
}

fn print_condition<O: Sink>(test: &TestSum, page: &mut Page, out: &mut O) -> Result<(), Failed>
    ensures { Sends (O.seen out.old) page.old (O.seen out.new) page.new (condition_text (test_view test.now)) result }
{
    print_text(test, page, out)?;
    print_hash(test, page, out)
}

fn print_observation<O: Sink>(
    name: &[u8],
    test: &TestSum,
    page: &mut Page,
    out: &mut O,
) -> Result<(), Failed>
    ensures { Sends (O.seen out.old) page.old (O.seen out.new) page.new (observation_text name.now (test_view test.now)) result }
{
    let mut starred = Buffer::new();
    let starred = starred.format(test.starred).as_bytes();
    let mut plain = Buffer::new();
    let plain = plain.format(test.plain).as_bytes();
    let often = how_often(test.starred, test.plain);
    page.send_pieces(
        &[
            b"Observation ",
            name,
            b" ",
            often,
            b" ",
            starred,
            b" ",
            plain,
            b"\n\n",
        ],
        out,
    )
}

/// Sends the line of a test in the table.
fn print_line<O: Sink>(
    name: &[u8],
    test: &TestSum,
    page: &mut Page,
    out: &mut O,
) -> Result<(), Failed>
    ensures { Sends (O.seen out.old) page.old (O.seen out.new) page.new (table_line name.now (test_view test.now)) result }
{
    let mut starred = Buffer::new();
    let starred = starred.format(test.starred).as_bytes();
    let mut plain = Buffer::new();
    let plain = plain.format(test.plain).as_bytes();
    let often = how_often(test.starred, test.plain);
    page.send_pieces(
        &[name, b"\t", often, b"\t", starred, b"\t", plain, b"\n"],
        out,
    )
}

/// Sends the lines of tests in the table, through the output buffer `page`.
pub(crate) fn print_lines<O: Sink>(
    tests: &[(Vec<u8>, TestSum)],
    page: &mut Page,
    out: &mut O,
) -> Result<(), Failed>
    ensures { Sends (O.seen out.old) page.old (O.seen out.new) page.new (lines_text (map named_view tests.now)) result }
{
    for test in tests.iter() {
        print_line(test.0.as_slice(), &test.1, page, out)?;
    }
    Ok(())
}

/// Sends the lines above the condition of a test.
fn print_upper<O: Sink>(
    name: &[u8],
    test: &TestSum,
    page: &mut Page,
    out: &mut O,
) -> Result<(), Failed>
    ensures { Sends (O.seen out.old) page.old (O.seen out.new) page.new
        (head_text name.now (test_view test.now) ++ flat_map state_line (test_view test.now).states ++ sum_verdict_text (test_view test.now)) result }
{
    print_head(name, test, page, out)?;
    print_states(test, page, out)?;
    print_verdict(test, page, out)
}

/// Sends the text of a test, through the output buffer `page`.
fn print_sum<O: Sink>(
    name: &[u8],
    test: &TestSum,
    page: &mut Page,
    out: &mut O,
) -> Result<(), Failed>
    ensures { Sends (O.seen out.old) page.old (O.seen out.new) page.new (summed_text name.now (test_view test.now)) result }
{
    print_upper(name, test, page, out)?;
    print_condition(test, page, out)?;
    print_observation(name, test, page, out)
}

/// Sends the texts of tests, through the output buffer `page`.
pub(crate) fn print_sums<O: Sink>(
    tests: &[(Vec<u8>, TestSum)],
    page: &mut Page,
    out: &mut O,
) -> Result<(), Failed>
    ensures { Sends (O.seen out.old) page.old (O.seen out.new) page.new (sums_text (map named_view tests.now)) result }
{
    for test in tests.iter() {
        print_sum(test.0.as_slice(), &test.1, page, out)?;
    }
    Ok(())
}
