//! Layouts, exclusion, names, homes, and calls that wait, picked by place and by affinity: all with
//! values typed by hand. What a test has made is left to the end of its process.
#![tactic(auto)]

#[cfg(test)]
mod holds;
#[cfg(test)]
mod homes;
#[cfg(test)]
mod layouts;
#[cfg(test)]
mod sizes;
#[cfg(test)]
mod waiting;
