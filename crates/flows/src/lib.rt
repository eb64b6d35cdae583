// Reaching, routes and unit flows on digraphs: definitions and theorems. There is nothing to
// run here: each function's contract is a theorem, and the crate is refused without its proof.
#![tactic(auto)]

ghost use Rattle.flows.specs.Routes.{ReachedByRoute};
ghost use Rattle.flows.specs.Flow.{FlowBalance, FlowBound, LargestFlow, PushAddsOne, MostExists, FlowPeels};

// A number is reached exactly where a route leads to it.
pub fn reached_by_route()
    ensures { ReachedByRoute }
{}

// What leaves a set with s and without t is the flow's value more than what enters it.
pub fn flow_balance()
    ensures { FlowBalance }
{}

// No flow is larger than the arcs that leave such a set.
pub fn flow_bound()
    ensures { FlowBound }
{}

// A flow with no residual way to t is a largest one, and its residual side is left by the
// fewest arcs and is the smallest set that is.
pub fn largest_flow()
    ensures { LargestFlow }
{}

// Pushing along a residual route to t makes a flow larger by one.
pub fn push_adds_one()
    ensures { PushAddsOne }
{}

// There is a flow that no residual route leads on from.
pub fn most_exists()
    ensures { MostExists }
{}

// A flow peels into as many routes as its value, no two of them with an arc in common.
pub fn flow_peels()
    ensures { FlowPeels }
{}
