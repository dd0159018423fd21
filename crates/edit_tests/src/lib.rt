// Tests of the edits: each operation on each kind of target, the faults of an item, the error options and edit lists as bytes.
#![tactic(auto)]

#[cfg(test)]
mod absent;
#[cfg(test)]
mod faults;
#[cfg(test)]
mod full;
#[cfg(test)]
mod given;
#[cfg(test)]
mod lists;
#[cfg(test)]
mod one;
#[cfg(test)]
mod options;
#[cfg(test)]
mod present;
#[cfg(test)]
mod under;
