ghost use Rattle.std.specs.{Prelude.{◌≡◌, ◌<◌, ◌^◌, ◌++◌, codes, length}, Fmt.{decimal}};
ghost use Rattle.diy_io.specs.{Page.{Sends}, Pieces.{joined_text}};
ghost use Rattle.exec_graph.specs.Graphs.{access_point, are_apart, beside_label, beside_name, column, down_sign, edge_lines, edge_side, edge_stroke, edge_style, ends_word, left_of_dependency, left_of_order, look_word, name_word, near_distance, pair_line, place_word, point_word, relation_colour, right_of_order, row, side_line, side_word, stroke_lines, style_word, thin_side, thin_stroke, word_beside, word_distance, word_on, word_text};

use crate::arrows::{Arrow, kind_relation};
use crate::drawn::{Drawn, Point, Relation};
use crate::words::{Word, send_word, word_width};
use arch_trait::Places;
use diy_io::{Failed, Page, Sink};
use itoa::Buffer;
use program_meaning::WriteAt;

/// How an arrow is drawn.
#[derive(Clone, Copy)]
pub(crate) enum Style {
    Thin,
    Bold,
    Dashed,
}

/// Where the word of an arrow is.
#[derive(Clone, Copy)]
pub(crate) enum Side {
    /// On it, near its source.
    OnArrow,
    /// Beside it, so many points right and down.
    Beside { across: u128, down: u128 },
}

/// An arrow as it is drawn, without its word.
#[derive(Clone, Copy)]
pub(crate) struct Stroke {
    pub(crate) from: Point,
    pub(crate) to: Point,
    /// The relation whose colour it has.
    pub(crate) relation: Relation,
    pub(crate) style: Style,
    /// Where its word is.
    pub(crate) side: Side,
}

/// The digits of a number, in this buffer.
pub(crate) fn digits(number: u128, buffer: &mut Buffer) -> &[u8]
    ensures { result.now ≡ decimal number }
{
    buffer.format(number).as_bytes()
}

/// The sign of a coordinate that is so far down.
#[tactic(auto, using(crate::proofs::GraphLines::below_top))]
pub(crate) fn down_sign(down: u128) -> &'static [u8]
    ensures { result.now ≡ down_sign down }
{
    if down == 0 { b"" } else { b"-" }
}

/// The name of a location, which is empty if there is no such location.
#[tactic(auto, using(std::proofs::lemmas::List::get_or_past))]
pub(crate) fn place_word(places: &Places, place: u8) -> &[u8]
    ensures { result.now ≡ place_word places.now place }
{
    if place < places.len() {
        places.get(place).as_str().as_bytes()
    } else {
        b""
    }
}

/// Sends the name of a point after a text.
fn send_point_after<O: Sink>(
    before: &[u8],
    places: &Places,
    point: Point,
    page: &mut Page,
    out: &mut O,
) -> Result<(), Failed>
    ensures { Sends (O.seen out.old) page.old (O.seen out.new) page.new (before.now ++ point_word places.now point) result }
{
    match point {
        Point::Initial { place } => send_initial_after(
            before,
            place_word(places, place),
            page,
            out,
        ),
        Point::At { thread, number } => send_access_after(before, thread, number, page, out),
    }
}

/// Sends the name of an initial write, which is that of its location, after a text.
fn send_initial_after<O: Sink>(
    before: &[u8],
    place: &[u8],
    page: &mut Page,
    out: &mut O,
) -> Result<(), Failed>
    ensures { Sends (O.seen out.old) page.old (O.seen out.new) page.new (before.now ++ (codes "\"" ++ place.now ++ codes "\"")) result }
{
    page.send_pieces(&[before, b"\"", place, b"\""], out)
}

/// Sends the name of an access, its thread and its number there, after a text.
pub(crate) fn send_access_after<O: Sink>(
    before: &[u8],
    thread: u8,
    number: usize,
    page: &mut Page,
    out: &mut O,
) -> Result<(), Failed>
    ensures { Sends (O.seen out.old) page.old (O.seen out.new) page.new (before.now ++ name_word thread number) result }
{
    let mut thread_digits = Buffer::new();
    let thread = digits(u128::from(thread), &mut thread_digits);
    let mut number_digits = Buffer::new();
    let number = digits(number as u128, &mut number_digits);
    page.send_pieces(&[before, b"\"", thread, b".", number, b"\""], out)
}

/// How far to the right the column of a thread is.
pub(crate) fn column(thread: u8) -> u32
    ensures { result ≡ column thread }
{
    260 * u32::from(thread)
}

/// How far down an access is, by its number in its thread.
pub(crate) fn row(number: usize) -> u128
    ensures { result ≡ row number }
{
    160 * number as u128
}

/// The colour of a relation.
fn relation_colour(relation: Relation) -> &'static [u8]
    ensures { result.now ≡ relation_colour relation }
{
    match relation {
        Relation::Po => b"#000000",
        Relation::Rf => b"#b3261e",
        Relation::Co => b"#1a56a8",
        Relation::Fr => b"#8a5a00",
        Relation::Addr => b"#4b0082",
        Relation::Data => b"#4b0082",
        Relation::Ctrl => b"#4b0082",
    }
}

fn style_word(style: Style) -> &'static [u8]
    ensures { result.now ≡ style_word style }
{
    match style {
        Style::Thin => b"",
        Style::Bold => b", style=bold",
        Style::Dashed => b", style=dashed",
    }
}

/// Left of an arrow of a dependency, so far above the access that it enters.
fn left_of_dependency(to: Point, up: u128) -> Side
    ensures { result ≡ left_of_dependency to up }
{
    match to {
        Point::Initial { .. } => Side::OnArrow,
        Point::At { thread, number } => Side::Beside {
            across: u128::from(column(thread)) + 72,
            down: row(number).saturating_sub(up),
        },
    }
}

/// Right of an arrow of program order, below the access that it leaves.
fn right_of_order(thread: u8, number: usize, wide: u128) -> Side
    requires { wide < 2 ^ 100 }
    ensures { result ≡ right_of_order thread number wide }
{
    Side::Beside {
        across: u128::from(column(thread)) + 114 + 3 * wide,
        down: row(number) + 75,
    }
}

/// Left of an arrow of program order, below the access that it leaves.
fn left_of_order(thread: u8, number: usize, wide: u128) -> Side
    requires { wide < 2 ^ 100 }
    ensures { result ≡ left_of_order thread number wide }
{
    Side::Beside {
        across: (u128::from(column(thread)) + 86).saturating_sub(3 * wide),
        down: row(number) + 120,
    }
}

/// Where the word of a thin arrow is, if it has this many bytes.
fn thin_side(relation: Relation, from: Point, to: Point, wide: u128) -> Side
    requires { wide < 2 ^ 100 }
    ensures { result ≡ thin_side relation from to wide }
{
    match relation {
        Relation::Po => match from {
            Point::Initial { .. } => Side::OnArrow,
            Point::At { thread, number } => right_of_order(thread, number, wide),
        },
        Relation::Rf | Relation::Co | Relation::Fr => Side::OnArrow,
        Relation::Addr => left_of_dependency(to, 90),
        Relation::Data => left_of_dependency(to, 75),
        Relation::Ctrl => left_of_dependency(to, 60),
    }
}

/// Where the word of an edge is, if it has this many bytes.
fn edge_side(relation: Relation, stands: bool, source: WriteAt, wide: u128) -> Side
    requires { wide < 2 ^ 100 }
    ensures { result ≡ edge_side relation stands source wide }
{
    let number = usize::from(source.access);
    match relation {
        Relation::Po => {
            if stands {
                right_of_order(source.thread, number, wide)
            } else {
                left_of_order(source.thread, number, wide)
            }
        }
        _ => Side::OnArrow,
    }
}

/// Whether two points are accesses of threads that aren't beside each other.
fn are_apart(from: Point, to: Point) -> bool
    ensures { result ≡ are_apart from to }
{
    match (from, to) {
        (Point::At { thread, .. }, Point::At { thread: other, .. }) => {
            u32::from(thread) + 1 < u32::from(other) || u32::from(other) + 1 < u32::from(thread)
        }
        _ => false,
    }
}

/// How far from its source the word of an arrow between threads beside each other is, in tens of points.
fn near_distance(relation: Relation) -> &'static [u8]
    ensures { result.now ≡ near_distance relation }
{
    match relation {
        Relation::Co => b"5",
        _ => b"3.5",
    }
}

/// How far from its source the word of an arrow is, in tens of points.
fn word_distance(stroke: &Stroke) -> &'static [u8]
    ensures { result.now ≡ word_distance stroke.now }
{
    if are_apart(stroke.from, stroke.to) {
        b"9"
    } else {
        near_distance(stroke.relation)
    }
}

/// Sends a text, the word of an arrow and further pieces of a text.
fn send_around<O: Sink>(
    before: &[u8],
    word: Word<'_>,
    after: &[&[u8]],
    page: &mut Page,
    out: &mut O,
) -> Result<(), Failed>
    ensures { Sends (O.seen out.old) page.old (O.seen out.new) page.new (before.now ++ (word_text word.entry ++ joined_text after.now)) result }
{
    page.send(before, out)?;
    send_word(word, page, out)?;
    page.send_pieces(after, out)
}

/// Sends the word of an arrow that is on it.
#[tactic(auto, unfolding(crate::specs::Graphs::word_on))]
fn send_on<O: Sink>(
    stroke: &Stroke,
    word: Word<'_>,
    page: &mut Page,
    out: &mut O,
) -> Result<(), Failed>
    ensures { Sends (O.seen out.old) page.old (O.seen out.new) page.new (word_on stroke.now (word_text word.entry)) result }
{
    let distance = word_distance(stroke);
    let colour = relation_colour(stroke.relation);
    send_around(
        b", taillabel=<<table border=\"0\" cellpadding=\"1\" cellspacing=\"0\"><tr><td bgcolor=\"white\">",
        word,
        &[
            b"</td></tr></table>>, labeldistance=",
            distance,
            b", labelangle=0, fontcolor=\"",
            colour,
            b"\"",
        ],
        page,
        out,
    )
}

/// Sends the name of the node of a word beside an arrow, so many points right and down.
fn send_beside_name<O: Sink>(
    word: Word<'_>,
    across: u128,
    down: u128,
    page: &mut Page,
    out: &mut O,
) -> Result<(), Failed>
    ensures { Sends (O.seen out.old) page.old (O.seen out.new) page.new (beside_name (word_text word.entry) across down) result }
{
    let sign = down_sign(down);
    let mut across_digits = Buffer::new();
    let across = digits(across, &mut across_digits);
    let mut down_digits = Buffer::new();
    let down = digits(down, &mut down_digits);
    send_around(b"  \"", word, &[b"@", across, b",", sign, down], page, out)
}

/// Sends what follows that name.
fn send_beside_label<O: Sink>(
    relation: Relation,
    word: Word<'_>,
    across: u128,
    down: u128,
    page: &mut Page,
    out: &mut O,
) -> Result<(), Failed>
    ensures { Sends (O.seen out.old) page.old (O.seen out.new) page.new (beside_label relation (word_text word.entry) across down) result }
{
    let colour = relation_colour(relation);
    let sign = down_sign(down);
    let mut across_digits = Buffer::new();
    let across = digits(across, &mut across_digits);
    let mut down_digits = Buffer::new();
    let down = digits(down, &mut down_digits);
    send_around(
        b"\" [label=\"",
        word,
        &[
            b"\", fontcolor=\"",
            colour,
            b"\", pos=\"",
            across,
            b",",
            sign,
            down,
            b"\"]\n",
        ],
        page,
        out,
    )
}

/// Sends the line of a word beside an arrow, so many points right and down.
#[tactic(auto, unfolding(crate::specs::Graphs::word_beside))]
fn send_beside<O: Sink>(
    relation: Relation,
    word: Word<'_>,
    across: u128,
    down: u128,
    page: &mut Page,
    out: &mut O,
) -> Result<(), Failed>
    ensures { Sends (O.seen out.old) page.old (O.seen out.new) page.new (word_beside relation (word_text word.entry) across down) result }
{
    send_beside_name(word, across, down, page, out)?;
    send_beside_label(relation, word, across, down, page, out)
}

/// Sends what an arrow's word adds to the arrow's own line.
#[tactic(auto, using(diy_io::specs::PageLaws::not_spilled))]
fn send_side_word<O: Sink>(
    stroke: &Stroke,
    word: Word<'_>,
    page: &mut Page,
    out: &mut O,
) -> Result<(), Failed>
    ensures { Sends (O.seen out.old) page.old (O.seen out.new) page.new (side_word stroke.now (word_text word.entry) stroke.now.side) result }
{
    match stroke.side {
        Side::OnArrow => send_on(stroke, word, page, out),
        Side::Beside { .. } => Ok(()),
    }
}

/// Sends the line of an arrow's word, if it has one of its own.
#[tactic(auto, using(diy_io::specs::PageLaws::not_spilled))]
fn send_side_line<O: Sink>(
    relation: Relation,
    word: Word<'_>,
    side: Side,
    page: &mut Page,
    out: &mut O,
) -> Result<(), Failed>
    ensures { Sends (O.seen out.old) page.old (O.seen out.new) page.new (side_line relation (word_text word.entry) side) result }
{
    match side {
        Side::OnArrow => Ok(()),
        Side::Beside { across, down } => send_beside(relation, word, across, down, page, out),
    }
}

/// Sends the colour and the style of an arrow.
#[tactic(auto, unfolding(crate::specs::Graphs::look_word))]
fn send_look<O: Sink>(stroke: &Stroke, page: &mut Page, out: &mut O) -> Result<(), Failed>
    ensures { Sends (O.seen out.old) page.old (O.seen out.new) page.new (look_word stroke.now) result }
{
    let colour = relation_colour(stroke.relation);
    let style = style_word(stroke.style);
    page.send_pieces(&[b" [color=\"", colour, b"\"", style], out)
}

/// Sends the ends of an arrow, and its colour and style.
fn send_ends<O: Sink>(
    places: &Places,
    stroke: &Stroke,
    page: &mut Page,
    out: &mut O,
) -> Result<(), Failed>
    ensures { Sends (O.seen out.old) page.old (O.seen out.new) page.new (ends_word places.now stroke.now) result }
{
    send_point_after(b"  ", places, stroke.from, page, out)?;
    send_point_after(b" -> ", places, stroke.to, page, out)?;
    send_look(stroke, page, out)
}

/// Sends the lines of an arrow with this word.
fn send_stroke<O: Sink>(
    places: &Places,
    stroke: &Stroke,
    word: Word<'_>,
    page: &mut Page,
    out: &mut O,
) -> Result<(), Failed>
    ensures { Sends (O.seen out.old) page.old (O.seen out.new) page.new (stroke_lines places.now stroke.now (word_text word.entry)) result }
{
    send_side_line(stroke.relation, word, stroke.side, page, out)?;
    send_ends(places, stroke, page, out)?;
    send_side_word(stroke, word, page, out)?;
    page.send(b"]\n", out)
}

/// The thin arrow of a pair of a relation, whose word has this many bytes.
fn thin_stroke(relation: Relation, from: Point, to: Point, wide: u128) -> Stroke
    requires { wide < 2 ^ 100 }
    ensures { result ≡ thin_stroke relation from to wide }
{
    Stroke {
        from,
        to,
        relation,
        style: Style::Thin,
        side: thin_side(relation, from, to, wide),
    }
}

/// Sends the lines of a pair of a relation.
pub(crate) fn send_pair<O: Sink>(
    places: &Places,
    relation: Relation,
    from: &Drawn,
    to: &Drawn,
    page: &mut Page,
    out: &mut O,
) -> Result<(), Failed>
    ensures { Sends (O.seen out.old) page.old (O.seen out.new) page.new (pair_line places.now relation (from.now, to.now)) result }
{
    let barriers = to.ties.barriers();
    let word = Word::OfPair { relation, barriers };
    let stroke = thin_stroke(relation, from.point, to.point, word_width(word));
    send_stroke(places, &stroke, word, page, out)
}

/// The style of the arrow of an edge.
fn edge_style(stands: bool) -> Style
    ensures { result ≡ edge_style stands }
{
    if stands { Style::Bold } else { Style::Dashed }
}

fn access_point(name: WriteAt) -> Point
    ensures { result ≡ access_point name }
{
    Point::At {
        thread: name.thread,
        number: usize::from(name.access),
    }
}

/// The arrow of an edge whose name has this many bytes.
fn edge_stroke(arrow: &Arrow, wide: u128) -> Stroke
    requires { wide < 2 ^ 100 }
    ensures { result ≡ edge_stroke arrow.now wide }
{
    let relation = kind_relation(arrow.edge.kind());
    Stroke {
        from: access_point(arrow.source),
        to: access_point(arrow.target),
        relation,
        style: edge_style(arrow.stands),
        side: edge_side(relation, arrow.stands, arrow.source, wide),
    }
}

/// Sends the lines of the arrow of an edge.
pub(crate) fn send_edge<O: Sink>(
    places: &Places,
    arrow: &Arrow,
    page: &mut Page,
    out: &mut O,
) -> Result<(), Failed>
    ensures { Sends (O.seen out.old) page.old (O.seen out.new) page.new (edge_lines places.now arrow.now) result }
{
    let word = Word::OfEdge { edge: arrow.edge };
    let stroke = edge_stroke(arrow, word_width(word));
    send_stroke(places, &stroke, word, page, out)
}
