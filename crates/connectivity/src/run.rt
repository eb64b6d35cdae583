// Runs: the most paths from one node to another that share no arc, found one by one. A searching
// run can only be pushed, a finished one can only be read: two types, and a push takes the one
// and gives one of the two. Both are plain numbers; plan and flow are lent at each call, so what a
// run is to its plan (`asked`) and to its flow (`Held`, `Largest`) is asked at each call too, and can't
// be a fact of its type. Flow and scratch memory go side by side, since a finished run takes the flow
// for reading only.
ghost use Rattle.std.specs.Prelude.{◌≡◌, ℕ, ◌+◌, ◌^◌, ◌<◌, ◌≤◌, true, false, IsTrue, ◌↔◌, length};
ghost use Rattle.flows.specs.Lists.{in_front};
ghost use Rattle.flows.specs.Flow.{NoneOutOf, residual, residual_side};
ghost use Rattle.augment.specs.Trails.{Trail};
ghost use Rattle.rows.specs.Flow.{carried};
ghost use Rattle.rows.specs.Marks.{marked};
ghost use Rattle.search.specs.Goals.{Far};
ghost use Rattle.connectivity.specs.Runs.{Held, Largest, grown, PushedOn, EndedAt};

use crate::work::Scratch;
use augment::augment;
use plan::CutPlan;
use rows::flow::Arcs;
use rows::marks::Marks;
use search::{closed_to, far_from, search};
use std::ops::ControlFlow;

// How many runs a call has begun. Only the beginning of a run raises it.
#[derive(Drop)]
pub(crate) struct RunCount {
    begun: u32,
}

impl RunCount {
    // No run is begun yet. No derived `Default`, whose contract would not say so.
    pub(crate) fn none() -> RunCount
        ensures { result ≡ record { begun = 0 } }
    {
        RunCount { begun: 0 }
    }
}

// Whether every node of a plan is marked.
fn marks_all<P: CutPlan>(plan: &mut P, marks: &Marks) -> bool
    ensures all { IsTrue result ↔ ((q : ℕ) → q < (P.digraph plan.old).nodes → marked marks.now q ≡ true) }
    ensures same { plan.new ≡ plan.old }
{
    let n = plan.node_count();
    marks.next_unmarked(0, n).is_none()
}

// A run that may still grow: its ends, and how many units were pushed.
pub(crate) struct Searching {
    from: u16,
    to: u16,
    value: u16,
}

// A run that no path leads on from: the same numbers, as a type that can only be read.
pub(crate) struct Finished {
    from: u16,
    to: u16,
    value: u16,
}

// What a push gives: the run goes on, longer by a path, or it breaks off, finished.
pub(crate) type Pushed = ControlFlow<Finished, Searching>;

impl Searching {
    // Begins a run: the memory holds no flow among the nodes of the plan, and the count is one higher.
    pub(crate) fn begin<P: CutPlan>(
        count: &mut RunCount,
        plan: &mut P,
        flow: &mut Arcs<'_>,
        from: u16,
        to: u16,
    ) -> Searching
        requires { count.old.begun + 1 < 2 ^ 32 }
        ensures counted { count.new.begun ≡ count.old.begun + 1 }
        ensures same { plan.new ≡ plan.old }
        ensures run { result ≡ record { from = from; to = to; value = 0 } }
        ensures none { carried flow.new ≡ (λ x y. false) }
        ensures held { Held (P.digraph plan.old) result flow.new }
    {
        count.begun += 1;
        flow.wipe(plan.node_count());
        Searching { from, to, value: 0 }
    }

    // Seeks a residual path from end to end, and notes it at its nodes if there is one. The answer is a
    // flag, since the path stands in the lent notes. Where every node is closed to the end, there is none.
    fn seek<P: CutPlan>(
        &self,
        plan: &mut P,
        flow: &Arcs<'_>,
        far: &Marks,
        scratch: &mut Scratch<'_, '_, '_>,
    ) -> bool
        requires asked { P.asked plan.old self.now.from self.now.to }
        requires far { Far (P.digraph plan.old) self.now.to (marked far.now) }
        requires ends { NoneOutOf (carried flow.now) self.now.to }
        ensures same { plan.new ≡ plan.old }
        ensures noted { result ≡ true → Trail (residual (P.digraph plan.old) (carried flow.now)) self.now.from self.now.to scratch.new.notes.before.now }
        ensures stuck { result ≡ false → residual_side (P.digraph plan.old) (carried flow.now) self.now.from self.now.to ≡ false }
    {
        let closed = closed_to(flow, far, self.to);
        if marks_all(plan, &closed) {
            return false;
        }
        search(
            plan,
            flow,
            &mut Marks::none(),
            &mut scratch.notes,
            &mut scratch.steps,
            self.from,
            Some(self.to),
            &closed,
        )
    }

    // Seeks a residual path and, if there is one, pushes a unit along it, in the lent memory: so the
    // answer is a flag.
    fn advance<P: CutPlan>(
        &self,
        plan: &mut P,
        flow: &mut Arcs<'_>,
        far: &Marks,
        scratch: &mut Scratch<'_, '_, '_>,
    ) -> bool
        requires asked { P.asked plan.old self.now.from self.now.to }
        requires far { Far (P.digraph plan.old) self.now.to (marked far.now) }
        requires flow { Held (P.digraph plan.old) self.now flow.old }
        ensures same { plan.new ≡ plan.old }
        ensures pushed { result ≡ true → Held (P.digraph plan.old) (grown self.now) flow.new }
        ensures kept { result ≡ false → flow.new ≡ flow.old }
        ensures stuck { result ≡ false → residual_side (P.digraph plan.old) (carried flow.old) self.now.from self.now.to ≡ false }
    {
        if !self.seek(plan, flow, far, scratch) {
            return false;
        }
        augment(flow, &scratch.notes, self.from, self.to);
        true
    }

    // Adds one path, or finds none and gives the finished run.
    pub(crate) fn push<P: CutPlan>(
        self,
        plan: &mut P,
        flow: &mut Arcs<'_>,
        far: &Marks,
        scratch: &mut Scratch<'_, '_, '_>,
    ) -> Pushed
        requires asked { P.asked plan.old self.from self.to }
        requires far { Far (P.digraph plan.old) self.to (marked far.now) }
        requires flow { Held (P.digraph plan.old) self flow.old }
        ensures same { plan.new ≡ plan.old }
        ensures after { PushedOn (P.digraph plan.old) self result flow.new }
        ensures value { EndedAt (P.valued plan.old self.from self.to) result }
    {
        let found = self.advance(plan, flow, far, scratch);
        let Searching { from, to, value } = self;
        if found {
            Pushed::Continue(Searching {
                from,
                to,
                value: value + 1,
            })
        } else {
            Pushed::Break(Finished { from, to, value })
        }
    }
}

impl Finished {
    // The value of the pair of ends, at which the run is spent.
    pub(crate) fn value(self) -> u16
        ensures { result ≡ self.value }
    {
        let Finished {
            from: _,
            to: _,
            value,
        } = self;
        value
    }

    // Marks what the first end reaches by residual steps.
    fn mark_side<P: CutPlan>(
        &self,
        plan: &mut P,
        flow: &Arcs<'_>,
        marks: &mut Marks,
        scratch: &mut Scratch<'_, '_, '_>,
    )
        requires asked { P.asked plan.old self.now.from self.now.to }
        ensures same { plan.new ≡ plan.old }
        ensures side { (q : ℕ) → marked marks.new q ≡ residual_side (P.digraph plan.old) (carried flow.now) self.now.from q }
    {
        let near_end = self.from;
        search(
            plan,
            flow,
            marks,
            &mut scratch.notes,
            &mut scratch.nodes,
            near_end,
            None,
            &Marks::none(),
        );
    }

    // Marks the side of the nearest cut: the arcs that leave it are the cut.
    fn sweep<P: CutPlan>(
        &self,
        plan: &mut P,
        flow: &Arcs<'_>,
        marks: &mut Marks,
        scratch: &mut Scratch<'_, '_, '_>,
    )
        requires asked { P.asked plan.old self.now.from self.now.to }
        requires largest { Largest (P.digraph plan.old) self.now flow.now }
        ensures same { plan.new ≡ plan.old }
        ensures side { P.crossing plan.old self.now.from (marked marks.new) ≡ P.nearest plan.old self.now.from self.now.to }
    {
        self.mark_side(plan, flow, marks, scratch);
    }

    // Writes the smallest cut that is nearest to the first end, and says how many items it has.
    // Entries past them keep their content.
    pub(crate) fn write_cut<P: CutPlan>(
        &self,
        plan: &mut P,
        flow: &Arcs<'_>,
        scratch: &mut Scratch<'_, '_, '_>,
        cut: &mut [P::Item],
    ) -> usize
        requires asked { P.asked plan.old self.now.from self.now.to }
        requires largest { Largest (P.digraph plan.old) self.now flow.now }
        requires room { length (P.nearest plan.old self.now.from self.now.to) ≤ length cut.old }
        ensures same { plan.new ≡ plan.old }
        ensures count { result ≡ length (P.nearest plan.old self.now.from self.now.to) }
        ensures items { cut.new ≡ in_front (P.nearest plan.old self.now.from self.now.to) cut.old }
    {
        let mut marks = Marks::none();
        self.sweep(plan, flow, &mut marks, scratch);
        plan.write_cut(self.from, &marks, cut)
    }
}

// Begins a run from one node to another, and pushes until it is finished.
pub(crate) fn complete<P: CutPlan>(
    count: &mut RunCount,
    plan: &mut P,
    flow: &mut Arcs<'_>,
    scratch: &mut Scratch<'_, '_, '_>,
    from: u16,
    to: u16,
) -> Finished
    requires count { count.old.begun + 1 < 2 ^ 32 }
    requires asked { P.asked plan.old from to }
    ensures counted { count.new.begun ≡ count.old.begun + 1 }
    ensures same { plan.new ≡ plan.old }
    ensures run { result ≡ record { from = from; to = to; value = P.valued plan.old from to } }
    ensures largest { Largest (P.digraph plan.old) result flow.new }
{
    let mut run = Searching::begin(count, plan, flow, from, to);
    let far = far_from(plan, to);
    loop {
        match run.push(plan, flow, &far, scratch) {
            Pushed::Continue(next) => run = next,
            Pushed::Break(last) => return last,
        }
    }
}
