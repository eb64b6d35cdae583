// The planner as a library: calls by value, and questions about the graph in force.
use claims::check;
use grid::Grid;
use list::List;
use model::{Answer, Call};
use session::{Planner, perform};
use std::test::Fail;
use store::{Editable, Map};
use workspace::Workspace;

// A strike takes an edge out of force, over any store. Code that holds a planner is written
// over the store's trait, and takes a concrete store where it is called.
fn strikes<S: Editable>(memory: S::Memory) -> Result<(), Fail> {
    let mut planner = Planner::<S>::open(3, memory)?;
    let mut none = Workspace::none();
    check(perform(&mut planner, Call::Join(0, 1), &mut none)? == Answer::Joined)?;
    check(perform(&mut planner, Call::Join(0, 2), &mut none)? == Answer::Joined)?;
    check(planner.joined(1, 0) && planner.degree(0) == 2)?;
    check(perform(&mut planner, Call::Strike(1, 0), &mut none)? == Answer::Struck)?;
    check(!planner.joined(1, 0) && planner.degree(0) == 1)?;
    check(planner.next(0, 1) == Some(2))
}

#[test]
fn strikes_over_each_store() -> Result<(), Fail> {
    strikes::<Grid>(&mut [0u64; 12])?;
    strikes::<List>(&mut [0u16; 3])
}
