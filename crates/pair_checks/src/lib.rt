// Tests of what a planner says of pairs of vertices: values and nearest cuts of the check maps and
// of random small ones, and refusals, over each store; of a script of calls, played over any store; and
// of a search over a flow, in words lent for writing and in words lent for reading.
#![tactic(auto)]

#[cfg(test)]
mod asking;
#[cfg(test)]
mod lent_flows;
#[cfg(test)]
mod maps;
#[cfg(test)]
mod random;
#[cfg(test)]
mod refusals;
#[cfg(test)]
mod scripts;
#[cfg(test)]
mod simple;
