// Tests of sessions, locks and the trial, at the edges of their rules.
#![tactic(auto)]

#[cfg(test)]
mod given;
#[cfg(test)]
mod locks;
#[cfg(test)]
mod trials;
