// Tests of the validators: each rule at its edges, what is told, and which of two validators is asked first.
#![tactic(auto)]

#[cfg(test)]
mod history;
#[cfg(test)]
mod made;
#[cfg(test)]
mod order;
#[cfg(test)]
mod support;
