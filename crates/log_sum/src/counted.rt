ghost use Rattle.std.specs.Prelude.{◌≡◌, IfOk, map};
ghost use Rattle.log_sum.specs.{StateEntries.states_view, KeptStates.{counted_text, counted_view}};
ghost use Rattle.diy_io.specs.Page.{Sends};

use crate::kinds::Mark;
use crate::print::filled_sign;
use crate::state_table::StateTable;
use diy_io::{Failed, NoMemory, Page, Sink};
use itoa::Buffer;
use std::alloc::Global;

/// A state of a test, with its mark and the sum of its counts.
#[derive(Drop)]
pub struct CountedState {
    /// The printed form: the state's equalities, each followed by a semicolon, with one space between them.
    pub form: Vec<u8>,
    pub mark: Mark,
    pub count: u64,
}

impl CountedState {
    /// Sends the text of the state in its line of the sum: its count, filled up to six columns, the sign of its mark, and its
    /// form.
    pub fn send<O: Sink>(&self, page: &mut Page, out: &mut O) -> Result<(), Failed>
        ensures { Sends (O.seen out.old) page.old (O.seen out.new) page.new (counted_text (counted_view self.now)) result }
    {
        let mut buffer = Buffer::new();
        let count = buffer.format(self.count).as_bytes();
        let sign = filled_sign(count, self.mark);
        page.send_pieces(&[count, sign, self.form.as_slice()], out)
    }
}

/// A state of a table with its printed form, mark and count.
fn counted_state(
    alloc: Global,
    form: &[u8],
    mark: Mark,
    count: u64,
) -> Result<CountedState, NoMemory>
    ensures { IfOk result (λ state. counted_view state ≡ (form.now, (mark, count))) }
{
    Ok(CountedState {
        form: Vec::from_slice(alloc, form)?,
        mark,
        count,
    })
}

/// The states of a table, in byte order.
pub(crate) fn counted_states(
    alloc: Global,
    states: &StateTable,
) -> Result<Vec<CountedState>, NoMemory>
    ensures { IfOk result (λ counted. map counted_view counted.items ≡ states_view states.now.sums.entries.items) }
{
    let mut counted = Vec::new(alloc);
    for (form, i) in &states.sums.places {
        let (mark, count) = states.sum_at(*i);
        counted.push(counted_state(alloc, form.as_slice(), mark, count)?)?;
    }
    Ok(counted)
}
