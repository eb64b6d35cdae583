// Tests of whole sessions over each store: what frames meet, refusal by refusal.
#![tactic(auto)]

#[cfg(test)]
mod library;
#[cfg(test)]
mod limits;
#[cfg(test)]
mod prints;
#[cfg(test)]
mod refusals;
#[cfg(test)]
mod scripts;
