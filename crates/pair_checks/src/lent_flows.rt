// A search over a flow finds the same, whether the flow's words are lent for writing or for reading alone.
use crate::asking::{edge, planned};
use augment::Notes;
use claims::check;
use connectivity::{CELLS, NUMBERS, WORDS};
use grid::Grid;
use plan::{Line, Plan};
use rows::flow::{Arcs, Carries, SharedArcs};
use rows::marks::Marks;
use search::{Slots, closed_to, far_from, search};
use std::test::Fail;

// If a search from node 0 finds node 3, the nodes that it notes before 3 and before 2.
fn way<P: Plan, F: Carries>(plan: &mut P, flow: &F) -> Option<(u16, u16)> {
    if plan.node_count() < 4 {
        return None;
    }
    let far = far_from(plan, 3);
    let closed = closed_to(flow, &far, 3);
    let mut numbers = [0u16; NUMBERS];
    let mut cells = [0u16; CELLS];
    let mut marks = Marks::none();
    let mut notes = Notes::over(&mut numbers);
    let mut slots = Slots::over(&mut cells);
    let found = search(
        plan,
        flow,
        &mut marks,
        &mut notes,
        &mut slots,
        0,
        Some(3),
        &closed,
    );
    found.then_some((notes.noted(3), notes.noted(2)))
}

// Over so many words in front of a flow's, lent for reading alone: a search finds this, and an arc leads
// from 1 to 3 or there is none to 3.
fn check_front<P: Plan>(
    plan: &mut P,
    words: &[u64],
    count: usize,
    found: (u16, u16),
    tail: Option<u16>,
) -> Result<(), Fail> {
    let flow = SharedArcs::over(&words[..count.min(words.len())]);
    check(way(plan, &flow) == Some(found))?;
    check(flow.carries(1, 3) == tail.is_some() && flow.next_tail(3, 0) == tail)
}

// Two ways lead from 0 to 3, over 1 and over 2. Where the flow goes along the first, the search finds the
// second. The last word that has an arc is the first of row 3, and no row below 1 has one.
#[test]
fn reads_any_words() -> Result<(), Fail> {
    let edges = [edge(0, 1), edge(0, 2), edge(1, 3), edge(2, 3)];
    let mut memory = [0u64; 16];
    let mut plan = Line::over(planned::<Grid>(4, &edges, &mut memory)?);
    let mut words = [0u64; WORDS];
    let mut flow = Arcs::over(&mut words);
    flow.wipe(4);
    flow.put(0, 1);
    flow.put(1, 3);
    check(way(&mut plan, &flow) == Some((2, 0)))?;
    check_front(&mut plan, &words, WORDS, (2, 0), Some(1))?;
    check_front(&mut plan, &words, 25, (2, 0), Some(1))?;
    check_front(&mut plan, &words, 8, (1, 0), None)
}
