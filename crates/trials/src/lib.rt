// Tests of the library crates on examples, in a crate of its own so that theirs are not proved a second time.
#![tactic(auto)]

#[cfg(test)]
mod drafts;
#[cfg(test)]
mod places_by_hand;
#[cfg(test)]
mod sums;
#[cfg(test)]
mod texts;
