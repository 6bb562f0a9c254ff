// Tests of the kinds on examples, in a crate of their own so that the kinds' crates are not proved a second time. The
// kinds are found by number, in the set of the four with a further one.
#![tactic(auto)]

#[cfg(test)]
mod judging;
#[cfg(test)]
mod set;
#[cfg(test)]
mod testing;
#[cfg(test)]
mod writing;
