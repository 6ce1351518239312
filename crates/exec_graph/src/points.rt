ghost use Rattle.std.specs.{Prelude.{◌≡◌, ◌≤◌, ◌++◌, [], codes, cond, count_by, length, slice_get}, List.{enumerate_from, filter, flat_map, list_all, position}};
ghost use Rattle.list_laws.specs.Numbers.{upto};
ghost use Rattle.diy_io.specs.Page.{Sends};
ghost use Rattle.exec_graph.specs.JudgedCycles.{AreEdgesOf};
ghost use Rattle.exec_graph.specs.Graphs.{access_label, access_line, access_place, cluster_line, cluster_opening, deed_word, dir_word, home, initial_line, is_below, is_beyond, is_first_write, is_in_thread, is_observer, lap_word, letter_word, mark_word, member_word, observer_word, reads_if_in, thread_or_first, value_word};

use crate::drawn::{is_read, writes_to};
use crate::strokes::{column, digits, down_sign, place_word, row, send_access_after};
use arch_trait::Places;
use cycle_resolve::Resolved;
use diy_io::{Failed, Page, Sink};
use itoa::Buffer;
use program_meaning::SeenAccess;
use relax_edges::{Dir, Edge, Mark};

/// What follows the letter of an access, if all letters were used this many times before, in this buffer.
#[tactic(auto, using(crate::proofs::GraphLines::some_lap))]
fn lap_word(lap: usize, buffer: &mut Buffer) -> &[u8]
    ensures { result.now ≡ lap_word lap }
{
    if lap == 0 {
        return b"";
    }
    digits(lap as u128, buffer)
}

fn dir_word(dir: Dir) -> &'static [u8]
    ensures { result.now ≡ dir_word dir }
{
    match dir {
        Dir::R => b"R",
        Dir::W => b"W",
    }
}

fn mark_word(mark: Mark) -> &'static [u8]
    ensures { result.now ≡ mark_word mark }
{
    match mark {
        Mark::Plain => b"",
        Mark::Acquire => b"acq",
        Mark::Release => b"rel",
    }
}

/// Whether an access is the first write to a location in coherence order.
fn is_first_write(place: u8, seen: &SeenAccess) -> bool
    ensures { result ≡ is_first_write place seen.now }
{
    writes_to(place, &seen.access) && seen.order == 1
}

/// The number of the first write to a location in coherence order, among all accesses.
fn first_write(seen: &[SeenAccess], place: u8) -> Option<usize>
    ensures { result ≡ position (is_first_write place) seen.now }
{
    seen.iter().position(|access| is_first_write(place, access))
}

/// The thread of access number `k`, if there is one, and otherwise thread 0.
fn thread_at(seen: &[SeenAccess], k: usize) -> u8
    ensures { result ≡ thread_or_first (slice_get seen.now k) }
{
    match seen.get(k) {
        Some(access) => access.thread,
        None => 0,
    }
}

/// The thread above which the initial write of a location is.
fn home(seen: &[SeenAccess], place: u8) -> u8
    ensures { result ≡ home seen.now place }
{
    match first_write(seen, place) {
        Some(k) => thread_at(seen, k),
        None => 0,
    }
}

/// Whether the initial write of a location is above the same thread as that of `place`, and comes before it.
fn is_below(seen: &[SeenAccess], place: u8, other: u8) -> bool
    ensures { result ≡ is_below seen.now place other }
{
    other < place && home(seen, other) == home(seen, place)
}

/// How many of the initial writes that are drawn are above the same thread as that of `place`, and come before it.
fn count_below(seen: &[SeenAccess], place: u8, shown: &[u8]) -> usize
    requires { length shown.now ≤ 255 }
    ensures below { result ≡ count_by (is_below seen.now place) shown.now }
    ensures few { result ≤ 255 }
{
    shown
        .iter()
        .filter(|other| is_below(seen, place, **other))
        .count()
}

/// Sends the line of the initial write of a location.
#[tactic(auto, unfolding(crate::specs::Graphs::initial_line))]
fn send_initial<O: Sink>(
    places: &Places,
    seen: &[SeenAccess],
    shown: &[u8],
    place: u8,
    page: &mut Page,
    out: &mut O,
) -> Result<(), Failed>
    requires { length shown.now ≤ 255 }
    ensures { Sends (O.seen out.old) page.old (O.seen out.new) page.new (initial_line places.now seen.now shown.now place) result }
{
    let name = place_word(places, place);
    let below = count_below(seen, place, shown);
    let mut across_digits = Buffer::new();
    let across = digits(
        u128::from(column(home(seen, place)) + 100),
        &mut across_digits,
    );
    let mut up_digits = Buffer::new();
    let up = digits(50 * below as u128 + 90, &mut up_digits);
    page.send_pieces(
        &[
            b"  \"",
            name,
            b"\" [label=\"W[",
            name,
            b"]=0\", pos=\"",
            across,
            b",",
            up,
            b"\"]\n",
        ],
        out,
    )
}

/// Sends the line of an access, by its number among all accesses.
#[tactic(auto, unfolding(crate::specs::Graphs::access_line))]
fn send_access<O: Sink>(
    places: &Places,
    number: usize,
    seen: &SeenAccess,
    page: &mut Page,
    out: &mut O,
) -> Result<(), Failed>
    ensures { Sends (O.seen out.old) page.old (O.seen out.new) page.new (access_line places.now (number, seen.now)) result }
{
    send_access_label(places, number, seen, page, out)?;
    send_access_place(seen, page, out)
}

/// Sends the position in the line of an access.
fn send_access_place<O: Sink>(seen: &SeenAccess, page: &mut Page, out: &mut O) -> Result<(), Failed>
    ensures { Sends (O.seen out.old) page.old (O.seen out.new) page.new (access_place seen.now) result }
{
    let sign = down_sign(row(seen.number));
    let mut across_digits = Buffer::new();
    let across = digits(u128::from(column(seen.thread) + 100), &mut across_digits);
    let mut down_digits = Buffer::new();
    let down = digits(row(seen.number), &mut down_digits);
    page.send_pieces(&[b"\", pos=\"", across, b",", sign, down, b"\"]\n"], out)
}

/// Sends the line of an access up to its position.
fn send_access_label<O: Sink>(
    places: &Places,
    number: usize,
    seen: &SeenAccess,
    page: &mut Page,
    out: &mut O,
) -> Result<(), Failed>
    ensures { Sends (O.seen out.old) page.old (O.seen out.new) page.new (access_label places.now (number, seen.now)) result }
{
    send_access_after(b"  ", seen.thread, seen.number, page, out)?;
    send_letter(number, page, out)?;
    send_deed(seen, page, out)?;
    send_value(places, seen, page, out)
}

/// Sends the letter of an access, by its number among all accesses, after the opening of its label.
fn send_letter<O: Sink>(number: usize, page: &mut Page, out: &mut O) -> Result<(), Failed>
    ensures { Sends (O.seen out.old) page.old (O.seen out.new) page.new (codes " [label=\"" ++ letter_word number) result }
{
    let letter = [b'a' + (number % 26) as u8];
    let mut lap_digits = Buffer::new();
    let lap = lap_word(number / 26, &mut lap_digits);
    page.send_pieces(&[b" [label=\"", letter.as_slice(), lap], out)
}

/// Sends whether an access reads or writes, and its mark, after its letter.
#[tactic(auto, unfolding(crate::specs::Graphs::deed_word))]
fn send_deed<O: Sink>(seen: &SeenAccess, page: &mut Page, out: &mut O) -> Result<(), Failed>
    ensures { Sends (O.seen out.old) page.old (O.seen out.new) page.new (deed_word seen.now) result }
{
    let dir = dir_word(seen.access.dir);
    let mark = mark_word(seen.mark);
    page.send_pieces(&[b": ", dir, mark, b"["], out)
}

/// Sends the location and the value of an access.
#[tactic(auto, unfolding(crate::specs::Graphs::value_word))]
fn send_value<O: Sink>(
    places: &Places,
    seen: &SeenAccess,
    page: &mut Page,
    out: &mut O,
) -> Result<(), Failed>
    ensures { Sends (O.seen out.old) page.old (O.seen out.new) page.new (value_word places.now seen.now) result }
{
    let place = place_word(places, seen.access.place);
    let mut value_digits = Buffer::new();
    let value = digits(u128::from(seen.access.value), &mut value_digits);
    page.send_pieces(&[place, b"]=", value], out)
}

/// Sends an access as a member of the frame of its thread.
fn send_member<O: Sink>(seen: &SeenAccess, page: &mut Page, out: &mut O) -> Result<(), Failed>
    ensures { Sends (O.seen out.old) page.old (O.seen out.new) page.new (member_word seen.now) result }
{
    let mut thread_digits = Buffer::new();
    let thread = digits(u128::from(seen.thread), &mut thread_digits);
    let mut number_digits = Buffer::new();
    let number = digits(seen.number as u128, &mut number_digits);
    page.send_pieces(&[b" ", b"\"", thread, b".", number, b"\"", b";"], out)
}

/// Whether a thread is one more than a cycle has.
fn is_beyond(cycle: &Option<Resolved>, judged: &[(Edge, bool)], thread: u8) -> bool
    requires { AreEdgesOf cycle.now judged.now }
    ensures { result ≡ is_beyond judged.now thread }
{
    match cycle {
        Some(resolved) => !judged.is_empty() && resolved.threads() <= thread,
        None => false,
    }
}

/// Whether an access is in another thread, or reads.
fn reads_if_in(thread: u8, seen: &SeenAccess) -> bool
    ensures { result ≡ reads_if_in thread seen.now }
{
    seen.thread != thread || is_read(&seen.access)
}

/// Whether a thread only reads.
fn only_reads(thread: u8, seen: &[SeenAccess]) -> bool
    ensures { result ≡ list_all (reads_if_in thread) seen.now }
{
    seen.iter().all(|access| reads_if_in(thread, access))
}

/// Whether a thread is an observer: it is one more than the cycle has, and only reads.
fn is_observer(
    cycle: &Option<Resolved>,
    judged: &[(Edge, bool)],
    seen: &[SeenAccess],
    thread: u8,
) -> bool
    requires { AreEdgesOf cycle.now judged.now }
    ensures { result ≡ is_observer judged.now seen.now thread }
{
    is_beyond(cycle, judged, thread) && only_reads(thread, seen)
}

/// What the frame of a thread says beside the thread's name.
fn observer_word(observes: bool) -> &'static [u8]
    ensures { result.now ≡ observer_word observes }
{
    if observes { b" (observer)" } else { b"" }
}

/// Sends the opening of the frame of a thread with this many accesses, which says this beside the thread's name.
#[tactic(auto, unfolding(crate::specs::Graphs::cluster_opening))]
fn send_cluster_opening<O: Sink>(
    observer: &'static [u8],
    thread: u8,
    count: usize,
    page: &mut Page,
    out: &mut O,
) -> Result<(), Failed>
    ensures { Sends (O.seen out.old) page.old (O.seen out.new) page.new (cluster_opening observer.now thread count) result }
{
    let mut name_digits = Buffer::new();
    let name = digits(u128::from(thread), &mut name_digits);
    let mut left_digits = Buffer::new();
    let left = digits(u128::from(column(thread) + 10), &mut left_digits);
    let mut down_digits = Buffer::new();
    let down = digits(row(count.saturating_sub(1)) + 35, &mut down_digits);
    let mut right_digits = Buffer::new();
    let right = digits(u128::from(column(thread) + 190), &mut right_digits);
    page.send_pieces(
        &[
            b"  subgraph cluster_",
            name,
            b" { label=\"P",
            name,
            observer,
            b"\"; style=rounded; color=\"#bbbbbb\"; bb=\"",
            left,
            b",-",
            down,
            b",",
            right,
            b",40\";",
        ],
        out,
    )
}

/// How many accesses a thread has.
fn accesses_in(thread: u8, seen: &[SeenAccess]) -> usize
    ensures { result ≡ count_by (is_in_thread thread) seen.now }
{
    seen.iter().filter(|access| access.thread == thread).count()
}

/// Sends the line of a thread: a frame with its accesses.
fn send_cluster<O: Sink>(
    cycle: &Option<Resolved>,
    judged: &[(Edge, bool)],
    seen: &[SeenAccess],
    thread: u8,
    page: &mut Page,
    out: &mut O,
) -> Result<(), Failed>
    requires { AreEdgesOf cycle.now judged.now }
    ensures { Sends (O.seen out.old) page.old (O.seen out.new) page.new (cluster_line judged.now seen.now thread) result }
{
    let observer = observer_word(is_observer(cycle, judged, seen, thread));
    let count = accesses_in(thread, seen);
    send_cluster_opening(observer, thread, count, page, out)?;
    send_members(thread, seen, page, out)?;
    page.send(b" }\n", out)
}

/// Sends an access as a member of the frame of a thread, if it is in the thread.
fn send_if_member<O: Sink>(
    thread: u8,
    seen: &SeenAccess,
    page: &mut Page,
    out: &mut O,
) -> Result<(), Failed>
    ensures { Sends (O.seen out.old) page.old (O.seen out.new) page.new (cond (is_in_thread thread seen.now) (member_word seen.now) []) result }
{
    if seen.thread == thread {
        return send_member(seen, page, out);
    }
    Ok(())
}

/// Sends the accesses of a thread as the members of its frame.
fn send_members<O: Sink>(
    thread: u8,
    seen: &[SeenAccess],
    page: &mut Page,
    out: &mut O,
) -> Result<(), Failed>
    ensures { Sends (O.seen out.old) page.old (O.seen out.new) page.new (flat_map member_word (filter (is_in_thread thread) seen.now)) result }
{
    for access in seen {
        send_if_member(thread, access, page, out)?;
    }
    Ok(())
}

/// Sends the lines of the initial writes that are drawn.
pub(crate) fn send_initials<O: Sink>(
    places: &Places,
    seen: &[SeenAccess],
    shown: &[u8],
    page: &mut Page,
    out: &mut O,
) -> Result<(), Failed>
    requires { length shown.now ≤ 255 }
    ensures { Sends (O.seen out.old) page.old (O.seen out.new) page.new (flat_map (initial_line places.now seen.now shown.now) shown.now) result }
{
    for place in shown {
        send_initial(places, seen, shown, *place, page, out)?;
    }
    Ok(())
}

/// Sends the lines of the accesses.
pub(crate) fn send_accesses<O: Sink>(
    places: &Places,
    seen: &[SeenAccess],
    page: &mut Page,
    out: &mut O,
) -> Result<(), Failed>
    ensures { Sends (O.seen out.old) page.old (O.seen out.new) page.new (flat_map (access_line places.now) (enumerate_from 0 seen.now)) result }
{
    for (number, access) in seen.iter().enumerate() {
        send_access(places, number, access, page, out)?;
    }
    Ok(())
}

/// Sends the lines of the threads.
pub(crate) fn send_clusters<O: Sink>(
    cycle: &Option<Resolved>,
    judged: &[(Edge, bool)],
    seen: &[SeenAccess],
    threads: u8,
    page: &mut Page,
    out: &mut O,
) -> Result<(), Failed>
    requires { AreEdgesOf cycle.now judged.now }
    ensures { Sends (O.seen out.old) page.old (O.seen out.new) page.new (flat_map (cluster_line judged.now seen.now) (upto threads)) result }
{
    for thread in 0..threads {
        send_cluster(cycle, judged, seen, thread, page, out)?;
    }
    Ok(())
}
