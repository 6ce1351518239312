ghost use Rattle.std.specs.{Prelude.{◌≡◌, ◌≤◌, ◌++◌, [], cond, length, IfOk}, List.{filter, flat_map}};
ghost use Rattle.diy_io.specs.{Page.{Sends}, Wrote.{Wrote}};
ghost use Rattle.final_cond.specs.{Conditions.{cond_view}, CondText.{cond_text}};
ghost use Rattle.relax_edges.specs.declared.TheConstants.{MAX_EDGES};
ghost use Rattle.exec_graph.specs.{JudgedCycles.{AreEdgesOf}, Drawing.{Draws, IsLayout}};
ghost use Rattle.exec_graph.specs.Graphs.{answer_word, answers_word, caption, dashed_lines, drawing_text, edge_lines, is_dashed, is_thin, lines_drawn, no_drawing_text, opening, pair_line, picture_seen, point_lines, quoted_byte, relation_lines, standing_lines, thin_lines, words_opening};

use crate::arrows::{Arrow, arrows_of, is_dashed, is_thin};
use crate::drawn::{Drawn, Relation, initial_places, points_drawn};
use crate::points::{send_accesses, send_clusters, send_initials};
use crate::strokes::{send_edge, send_pair};
use arch_trait::Places;
use cycle_resolve::Resolved;
use diy_io::{Failed, NoMemory, Page, Sink};
use final_cond::{Cond, put_cond};
use micro_ops::Trace;
use program_meaning::SeenAccess;
use relax_edges::Edge;
use std::alloc::Global;

/// What the graph of an execution shows.
#[derive(Clone, Copy)]
pub struct Picture<'a> {
    /// The name of the test.
    pub name: &'a [u8],
    /// The names of the locations.
    pub places: &'a Places,
    /// How many threads there are.
    pub threads: u8,
    /// The accesses, thread by thread, each thread's in program order.
    pub seen: &'a [SeenAccess],
    /// The runs of the threads, which say what the code has before each access.
    pub runs: &'a [Trace],
    /// The edges of a cycle, in order, each with whether it stands; none if there is no cycle.
    pub judged: &'a [(Edge, bool)],
    pub cond: &'a Cond,
    /// Whether the terms of the condition hold in the final state.
    pub holds: bool,
    pub coherent: bool,
}

/// Why a graph isn't written.
#[derive(Clone, Copy)]
pub enum DrawError {
    /// There is no memory. Nothing was written.
    NoMemory,
    /// The sink failed; it has taken a prefix of the text.
    OutFault,
}

/// What is found of a picture before anything is written, since that takes memory: the locations whose initial writes are drawn,
/// all that is drawn, and the arrows of the edges of the cycle.
#[derive(Drop)]
struct Layout {
    initial: Vec<u8>,
    drawn: Vec<Drawn>,
    arrows: Vec<Arrow>,
}

/// What thin arrows are drawn of: the locations, all that is drawn, and the arrows of the edges of the cycle.
#[derive(Clone, Copy)]
struct Scene<'a> {
    places: &'a Places,
    drawn: &'a [Drawn],
    arrows: &'a [Arrow],
}

/// The relations, in the order in which their arrows are drawn.
const RELATIONS: [Relation; 7] = [
    Relation::Po,
    Relation::Rf,
    Relation::Co,
    Relation::Fr,
    Relation::Addr,
    Relation::Data,
    Relation::Ctrl,
];

/// Sends the lines of a pair, if it has a thin arrow of the relation.
fn send_if_thin<O: Sink>(
    scene: Scene<'_>,
    relation: Relation,
    from: &Drawn,
    to: &Drawn,
    page: &mut Page,
    out: &mut O,
) -> Result<(), Failed>
    ensures { Sends (O.seen out.old) page.old (O.seen out.new) page.new (cond (is_thin scene.entry.arrows.now relation from.now to.now) (pair_line scene.entry.places.now relation (from.now, to.now)) []) result }
{
    if is_thin(scene.arrows, relation, from, to) {
        return send_pair(scene.places, relation, from, to, page, out);
    }
    Ok(())
}

/// Sends the lines of the thin arrows of a relation that lead from this access or initial write.
fn send_thin_from<O: Sink>(
    scene: Scene<'_>,
    relation: Relation,
    from: &Drawn,
    page: &mut Page,
    out: &mut O,
) -> Result<(), Failed>
    ensures { Sends (O.seen out.old) page.old (O.seen out.new) page.new (flat_map (λ to. pair_line scene.entry.places.now relation (from.now, to)) (filter (is_thin scene.entry.arrows.now relation from.now) scene.entry.drawn.now)) result }
{
    for to in scene.drawn {
        send_if_thin(scene, relation, from, to, page, out)?;
    }
    Ok(())
}

/// Sends the lines of the thin arrows of a relation.
fn send_thin<O: Sink>(
    scene: Scene<'_>,
    relation: Relation,
    page: &mut Page,
    out: &mut O,
) -> Result<(), Failed>
    ensures { Sends (O.seen out.old) page.old (O.seen out.new) page.new (thin_lines scene.entry.places.now scene.entry.arrows.now scene.entry.drawn.now relation) result }
{
    for from in scene.drawn {
        send_thin_from(scene, relation, from, page, out)?;
    }
    Ok(())
}

/// Sends the lines of the thin arrows of all relations.
fn send_relations<O: Sink>(scene: Scene<'_>, page: &mut Page, out: &mut O) -> Result<(), Failed>
    ensures { Sends (O.seen out.old) page.old (O.seen out.new) page.new (relation_lines scene.entry.places.now scene.entry.arrows.now scene.entry.drawn.now) result }
{
    for relation in &RELATIONS {
        send_thin(scene, *relation, page, out)?;
    }
    Ok(())
}

/// Sends the lines of an edge, if it stands.
fn send_if_stands<O: Sink>(
    places: &Places,
    arrow: &Arrow,
    page: &mut Page,
    out: &mut O,
) -> Result<(), Failed>
    ensures { Sends (O.seen out.old) page.old (O.seen out.new) page.new (cond arrow.now.stands (edge_lines places.now arrow.now) []) result }
{
    if arrow.stands {
        return send_edge(places, arrow, page, out);
    }
    Ok(())
}

/// Sends the lines of the edges that stand.
fn send_standing<O: Sink>(
    places: &Places,
    arrows: &[Arrow],
    page: &mut Page,
    out: &mut O,
) -> Result<(), Failed>
    ensures { Sends (O.seen out.old) page.old (O.seen out.new) page.new (standing_lines places.now arrows.now) result }
{
    for arrow in arrows {
        send_if_stands(places, arrow, page, out)?;
    }
    Ok(())
}

/// Sends the lines of an edge, if it doesn't stand, but both of its accesses are there.
fn send_if_dashed<O: Sink>(
    places: &Places,
    seen: &[SeenAccess],
    arrow: &Arrow,
    page: &mut Page,
    out: &mut O,
) -> Result<(), Failed>
    ensures { Sends (O.seen out.old) page.old (O.seen out.new) page.new (cond (is_dashed seen.now arrow.now) (edge_lines places.now arrow.now) []) result }
{
    if is_dashed(seen, arrow) {
        return send_edge(places, arrow, page, out);
    }
    Ok(())
}

/// Sends the lines of the edges that don't stand, but both of whose accesses are there.
fn send_dashed<O: Sink>(
    places: &Places,
    seen: &[SeenAccess],
    arrows: &[Arrow],
    page: &mut Page,
    out: &mut O,
) -> Result<(), Failed>
    ensures { Sends (O.seen out.old) page.old (O.seen out.new) page.new (dashed_lines places.now seen.now arrows.now) result }
{
    for arrow in arrows {
        send_if_dashed(places, seen, arrow, page, out)?;
    }
    Ok(())
}

fn send_quoted_byte<O: Sink>(byte: u8, page: &mut Page, out: &mut O) -> Result<(), Failed>
    ensures { Sends (O.seen out.old) page.old (O.seen out.new) page.new (quoted_byte byte) result }
{
    if byte == b'\\' || byte == b'"' {
        return page.send(&[b'\\', byte], out);
    }
    page.send(&[byte], out)
}

/// Sends a text as it is written between double quotes.
fn send_quoted<O: Sink>(quoted: &[u8], page: &mut Page, out: &mut O) -> Result<(), Failed>
    ensures { Sends (O.seen out.old) page.old (O.seen out.new) page.new (flat_map quoted_byte quoted.now) result }
{
    for byte in quoted {
        send_quoted_byte(*byte, page, out)?;
    }
    Ok(())
}

/// Sends a text as it is written between double quotes, after another.
fn send_quoted_after<O: Sink>(
    before: &[u8],
    quoted: &[u8],
    page: &mut Page,
    out: &mut O,
) -> Result<(), Failed>
    ensures { Sends (O.seen out.old) page.old (O.seen out.new) page.new (before.now ++ flat_map quoted_byte quoted.now) result }
{
    page.send(before, out)?;
    send_quoted(quoted, page, out)
}

/// Sends the text of a condition as it is written between double quotes, after another.
fn send_condition_after<O: Sink>(
    before: &[u8],
    cond: &Cond,
    page: &mut Page,
    out: &mut O,
) -> Result<(), Failed>
    ensures { Sends (O.seen out.old) page.old (O.seen out.new) page.new (before.now ++ flat_map quoted_byte (cond_text (cond_view cond.now))) result }
{
    let mut line = Page::new();
    put_cond(cond, &mut line);
    send_quoted_after(before, line.as_slice(), page, out)
}

/// How an answer is written: `yes` or `no`.
pub fn answer_word(answer: bool) -> &'static str
    ensures { result.now ≡ answer_word answer }
{
    if answer { "yes" } else { "no" }
}

/// Sends whether the terms of the condition hold, and whether the execution is coherent.
#[tactic(auto, unfolding(crate::specs::Graphs::answers_word))]
fn send_answers<O: Sink>(
    holds: bool,
    coherent: bool,
    page: &mut Page,
    out: &mut O,
) -> Result<(), Failed>
    ensures { Sends (O.seen out.old) page.old (O.seen out.new) page.new (answers_word holds coherent) result }
{
    let holds = answer_word(holds).as_bytes();
    let coherent = answer_word(coherent).as_bytes();
    page.send_pieces(
        &[b"\\ncondition ", holds, b"\\ncoherent ", coherent, b"\"\n"],
        out,
    )
}

/// Sends what is under the picture.
fn send_caption<O: Sink>(picture: &Picture<'_>, page: &mut Page, out: &mut O) -> Result<(), Failed>
    ensures { Sends (O.seen out.old) page.old (O.seen out.new) page.new (caption (picture_seen picture.now)) result }
{
    send_quoted_after(b"  labeljust=c\n  label=\"", picture.name, page, out)?;
    send_condition_after(b"\\n", picture.cond, page, out)?;
    send_answers(picture.holds, picture.coherent, page, out)
}

/// Sends the opening of a graph: positions are given, and arrows are drawn around what is in their way.
fn send_opening<O: Sink>(page: &mut Page, out: &mut O) -> Result<(), Failed>
    ensures { Sends (O.seen out.old) page.old (O.seen out.new) page.new opening result }
{
    page.send_pieces(
        &[
            b"digraph execution {\n  graph [layout=nop, splines=true, nodesep=0.35, fontname=\"sans-serif\", fontsize=11, labeljust=l]\n",
            b"  node [shape=box, style=\"rounded,filled\", fillcolor=\"#f4f4f4\", fontname=\"sans-serif\", fontsize=11, width=0.95, height=0.3]\n",
            b"  edge [fontname=\"sans-serif\", fontsize=9]\n",
        ],
        out,
    )
}

/// Sends how the words beside arrows look.
fn send_words_opening<O: Sink>(page: &mut Page, out: &mut O) -> Result<(), Failed>
    ensures { Sends (O.seen out.old) page.old (O.seen out.new) page.new words_opening result }
{
    page.send(
        b"  node [shape=plaintext, style=\"\", width=0, height=0, margin=\"0.03,0.01\", fontsize=9]\n",
        out,
    )
}

/// Sends the lines of what is drawn: the initial writes, the accesses, the threads.
fn send_points<O: Sink>(
    picture: &Picture<'_>,
    cycle: &Option<Resolved>,
    initial: &[u8],
    page: &mut Page,
    out: &mut O,
) -> Result<(), Failed>
    requires initial { length initial.now ≤ 255 }
    requires edges { AreEdgesOf cycle.now picture.now.judged.now }
    ensures { Sends (O.seen out.old) page.old (O.seen out.new) page.new (point_lines (picture_seen picture.now) initial.now) result }
{
    send_initials(picture.places, picture.seen, initial, page, out)?;
    send_accesses(picture.places, picture.seen, page, out)?;
    send_clusters(
        cycle,
        picture.judged,
        picture.seen,
        picture.threads,
        page,
        out,
    )?;
    send_words_opening(page, out)
}

/// Sends a graph, with these initial writes, points and arrows.
fn send_graph<O: Sink>(
    picture: &Picture<'_>,
    cycle: &Option<Resolved>,
    initial: &[u8],
    scene: Scene<'_>,
    page: &mut Page,
    out: &mut O,
) -> Result<(), Failed>
    requires initial { length initial.now ≤ 255 }
    requires edges { AreEdgesOf cycle.now picture.now.judged.now }
    requires places { scene.places.now ≡ picture.now.places.now }
    ensures { Sends (O.seen out.old) page.old (O.seen out.new) page.new (lines_drawn (picture_seen picture.now) initial.now scene.entry.drawn.now scene.entry.arrows.now) result }
{
    send_opening(page, out)?;
    send_points(picture, cycle, initial, page, out)?;
    send_standing(picture.places, scene.arrows, page, out)?;
    send_relations(scene, page, out)?;
    send_dashed(picture.places, picture.seen, scene.arrows, page, out)?;
    send_caption(picture, page, out)?;
    page.send(b"}\n", out)
}

/// What is found of a picture before anything is written.
fn layout_of(
    alloc: Global,
    picture: &Picture<'_>,
    cycle: &Option<Resolved>,
) -> Result<Layout, NoMemory>
    requires edges { AreEdgesOf cycle.now picture.now.judged.now }
    requires few { length picture.now.judged.now ≤ MAX_EDGES }
    ensures { IfOk result (λ layout. IsLayout (picture_seen picture.now) layout) }
{
    let initial = initial_places(alloc, picture.places.len(), picture.seen)?;
    let drawn = points_drawn(alloc, picture.runs, &initial, picture.seen)?;
    let arrows = arrows_of(alloc, cycle, picture.judged)?;
    Ok(Layout {
        initial,
        drawn,
        arrows,
    })
}

/// Writes a graph with this layout.
fn write_laid_out<O: Sink>(
    picture: &Picture<'_>,
    cycle: &Option<Resolved>,
    layout: &Layout,
    out: &mut O,
) -> Result<(), Failed>
    requires edges { AreEdgesOf cycle.now picture.now.judged.now }
    requires layout { IsLayout (picture_seen picture.now) layout.now }
    ensures { Wrote (O.seen out.old) (O.seen out.new) (drawing_text (picture_seen picture.now)) result }
{
    let scene = Scene {
        places: picture.places,
        drawn: &layout.drawn,
        arrows: &layout.arrows,
    };
    let mut page = Page::new();
    send_graph(picture, cycle, &layout.initial, scene, &mut page, out)?;
    page.flush(out)
}

/// Writes a graph through an output buffer. The edges that are judged are those of the cycle, which is given to find their events;
/// without a cycle there are none. All memory is taken before anything is written.
pub fn write_graph<O: Sink>(
    alloc: Global,
    picture: &Picture<'_>,
    cycle: &Option<Resolved>,
    out: &mut O,
) -> Result<(), DrawError>
    requires edges { AreEdgesOf cycle.now picture.now.judged.now }
    requires few { length picture.now.judged.now ≤ MAX_EDGES }
    ensures { Draws (drawing_text (picture_seen picture.now)) (O.seen out.old) (O.seen out.new) result }
{
    let layout = match layout_of(alloc, picture, cycle) {
        Ok(layout) => layout,
        Err(NoMemory) => return Err(DrawError::NoMemory),
    };
    match write_laid_out(picture, cycle, &layout, out) {
        Ok(()) => Ok(()),
        Err(Failed) => Err(DrawError::OutFault),
    }
}

fn send_none<O: Sink>(name: &[u8], page: &mut Page, out: &mut O) -> Result<(), Failed>
    ensures { Sends (O.seen out.old) page.old (O.seen out.new) page.new (no_drawing_text name.now) result }
{
    send_quoted_after(
        b"digraph execution {\n  none [shape=plaintext, fontname=\"sans-serif\", fontsize=11, label=\"",
        name,
        page,
        out,
    )?;
    page.send(b"\\ncandidate no\"]\n}\n", out)
}

/// Writes a graph that shows only the name of a test, and that an execution is no candidate of it. If the sink fails, it has taken
/// a prefix of the text.
pub fn write_no_graph<O: Sink>(name: &[u8], out: &mut O) -> Result<(), Failed>
    ensures { Wrote (O.seen out.old) (O.seen out.new) (no_drawing_text name.now) result }
{
    let mut page = Page::new();
    send_none(name, &mut page, out)?;
    page.flush(out)
}
