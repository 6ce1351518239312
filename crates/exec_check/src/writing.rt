ghost use Rattle.std.specs.Prelude.{◌+◌, ◌≤◌, length};
ghost use Rattle.diy_io.specs.{Page.{Sends}, Wrote.{Wrote}};
ghost use Rattle.exec_check.specs.Verdicts.{answer_line, edge_line, edge_lines, further_lines, judged_lines, verdict_text};
ghost use Rattle.relax_edges.specs.declared.TheConstants.{MAX_EDGES};

use crate::verdict::Verdict;
use arrayvec::ArrayString;
use diy_io::{Failed, Page, Sink};
use exec_graph::answer_word;
use itoa::Buffer;
use relax_edges::Edge;

/// Writes a verdict: only the line `candidate no`, or the lines `candidate yes`, `coherent ANSWER`,
/// `condition ANSWER` and for each edge `edge NUMBER NAME ANSWER`, with numbers from 0, or `no cycle` if
/// there are no edges. An answer is `yes` or `no`. If the sink fails, it has taken a prefix of the text.
pub fn write_verdict<O: Sink>(verdict: &Verdict, out: &mut O) -> Result<(), Failed>
    ensures { Wrote (O.seen out.old) (O.seen out.new) (verdict_text verdict.now) result }
{
    let mut page = Page::new();
    send_verdict(verdict, &mut page, out)?;
    page.flush(out)
}

#[tactic(auto, unfolding(crate::specs::Verdicts::verdict_text))]
fn send_verdict<O: Sink>(verdict: &Verdict, page: &mut Page, out: &mut O) -> Result<(), Failed>
    ensures { Sends (O.seen out.old) page.old (O.seen out.new) page.new (verdict_text verdict.now) result }
{
    send_answer(b"candidate", verdict.candidate, page, out)?;
    send_further(verdict, page, out)
}

/// Sends the lines after the first.
fn send_further<O: Sink>(verdict: &Verdict, page: &mut Page, out: &mut O) -> Result<(), Failed>
    ensures { Sends (O.seen out.old) page.old (O.seen out.new) page.new (further_lines verdict.now.candidate verdict.now) result }
{
    if !verdict.candidate {
        return Ok(());
    }
    send_answer(b"coherent", verdict.coherent, page, out)?;
    send_answer(b"condition", verdict.condition, page, out)?;
    send_judged(verdict.edges.as_slice(), page, out)
}

/// Sends the lines of the edges of a cycle, or that there is no cycle.
fn send_judged<O: Sink>(edges: &[(Edge, bool)], page: &mut Page, out: &mut O) -> Result<(), Failed>
    requires { length edges.now ≤ MAX_EDGES }
    ensures { Sends (O.seen out.old) page.old (O.seen out.new) page.new (judged_lines edges.now) result }
{
    if edges.is_empty() {
        return page.send(b"no cycle\n", out);
    }
    send_edges(0, edges, page, out)
}

/// Sends the lines of edges from a number on.
fn send_edges<O: Sink>(
    number: u8,
    edges: &[(Edge, bool)],
    page: &mut Page,
    out: &mut O,
) -> Result<(), Failed>
    requires { number + length edges.now ≤ 255 }
    ensures { Sends (O.seen out.old) page.old (O.seen out.new) page.new (edge_lines number edges.now) result }
{
    match edges {
        [] => Ok(()),
        [(edge, stands), rest @ ..] => {
            send_edge(number, *edge, *stands, page, out)?;
            send_edges(number + 1, rest, page, out)
        }
    }
}

/// Sends the line of an edge.
fn send_edge<O: Sink>(
    number: u8,
    edge: Edge,
    stands: bool,
    page: &mut Page,
    out: &mut O,
) -> Result<(), Failed>
    ensures { Sends (O.seen out.old) page.old (O.seen out.new) page.new (edge_line number edge stands) result }
{
    let mut digits = Buffer::new();
    let digits = digits.format(number).as_bytes();
    let mut word: ArrayString<16> = ArrayString::new();
    edge.word(&mut word);
    let word = word.as_str().as_bytes();
    let answer = answer_word(stands).as_bytes();
    page.send_pieces(&[b"edge ", digits, b" ", word, b" ", answer, b"\n"], out)
}

/// Sends a line of a word and an answer.
fn send_answer<O: Sink>(
    word: &'static [u8],
    answer: bool,
    page: &mut Page,
    out: &mut O,
) -> Result<(), Failed>
    ensures { Sends (O.seen out.old) page.old (O.seen out.new) page.new (answer_line word.now answer) result }
{
    let answer = answer_word(answer).as_bytes();
    page.send_pieces(&[word, b" ", answer, b"\n"], out)
}
