// The computations of connectivity are right: theorems. There is nothing to run here: each
// function's contract is a theorem, and the crate is refused without its proof.
#![tactic(auto)]

ghost use Rattle.cuts.specs.Pairs.{EdgeValueLaws};
ghost use Rattle.strength.specs.Strength.{FewEdgeRuns, EdgeRunsTrue, NoSmallerEdgeCut, EdgeStrength, EdgePair, EdgeCutFound, EdgeCutParts};
ghost use Rattle.strength.specs.Strength.{FewVertexRuns, VertexRunsTrue, NoSmallerVertexCut, VertexStrength, VertexPair, VertexCutFound, VertexCutParts};
ghost use Rattle.strength.specs.Memory.{CutsFit, RunsFit};
ghost use Rattle.strength.specs.Checked.{CheckMapsHold};
ghost use Rattle.strength.specs.Variants.{VariantsRefuted, RightEnds, SevenRefutes, HubRefutes, NearEndRefuted};

// The runs of the edge computation are at most half the order less one.
pub fn few_edge_runs()
    ensures { FewEdgeRuns }
{}

// Each of them is of two different vertices, and has their edge value.
pub fn edge_runs_true()
    ensures { EdgeRunsTrue }
{}

// No edge cut is smaller than the strength of the edge computation.
pub fn no_smaller_edge_cut()
    ensures { NoSmallerEdgeCut }
{}

// The strength of the edge computation is the edge connectivity.
pub fn edge_strength()
    ensures { EdgeStrength }
{}

// The pair that the edge computation names has the strength as its edge value.
pub fn edge_pair()
    ensures { EdgePair }
{}

// The cut of the edge computation is an edge cut of that size.
pub fn edge_cut_found()
    ensures { EdgeCutFound }
{}

// The cut of the edge computation is made of edges and parts the pair that is named.
pub fn edge_cut_parts()
    ensures { EdgeCutParts }
{}

// The edge value of a pair is the same both ways, and at most the degree of either end.
pub fn edge_value_laws()
    ensures { EdgeValueLaws }
{}

// No vertex cut is smaller than the strength of the vertex computation.
pub fn no_smaller_vertex_cut()
    ensures { NoSmallerVertexCut }
{}

// The strength of the vertex computation is the vertex connectivity.
pub fn vertex_strength()
    ensures { VertexStrength }
{}

// The pair that the vertex computation names is unjoined, and its value is the strength.
pub fn vertex_pair()
    ensures { VertexPair }
{}

// The vertex computation takes few runs.
pub fn few_vertex_runs()
    ensures { FewVertexRuns }
{}

// Each of them is of two different vertices that are not joined, and has their vertex value.
pub fn vertex_runs_true()
    ensures { VertexRunsTrue }
{}

// The cut of the vertex computation is a vertex cut of that size.
pub fn vertex_cut_found()
    ensures { VertexCutFound }
{}

// The cut of the vertex computation parts the pair that is named, and holds neither of the two.
pub fn vertex_cut_parts()
    ensures { VertexCutParts }
{}

// No cut has as many items as there are vertices.
pub fn cuts_fit()
    ensures { CutsFit }
{}

// The edge runs are at most half as many as vertices, and the vertex runs at most as many as
// unjoined pairs, of which none is run twice.
pub fn runs_fit()
    ensures { RunsFit }
{}

// The check maps are simple graphs with the strengths, runs, pairs, cuts and connectivities that
// are written down.
pub fn check_maps_hold()
    ensures { CheckMapsHold }
{}

// Three computations that look right and are wrong: stopping after the runs from the sparsest
// vertex, ending each round among its neighbours one run too early, and ending the rounds one too
// early.
pub fn variants_refuted()
    ensures { VariantsRefuted }
{}

// With the right ends the rounds of these variants are the runs of the computation, and give its strength.
pub fn right_ends()
    ensures { RightEnds }
{}

// On a map of seven vertices the runs from the sparsest vertex give 4, and the truth is 3.
pub fn seven_refutes()
    ensures { SevenRefutes }
{}

// On two cliques with a hub they give 2, and the truth is 1.
pub fn hub_refutes()
    ensures { HubRefutes }
{}

// A vertex cut read at the near end of the arcs that leave a side need not be a cut.
pub fn near_end_refuted()
    ensures { NearEndRefuted }
{}
