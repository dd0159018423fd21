// Tests of the refusals, the ordered table, the schema and the configurations, at the edges of their rules.
#![tactic(auto)]

#[cfg(test)]
mod configs;
#[cfg(test)]
mod faults;
#[cfg(test)]
mod given;
#[cfg(test)]
mod images;
#[cfg(test)]
mod paths;
#[cfg(test)]
mod schemas;
#[cfg(test)]
mod tables;
