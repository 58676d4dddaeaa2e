//! The state of a volume tried: names, inodes, cards, files, block numbers and calls remembered,
//! with what each call gives. What a test has made is left to the end of its process.
#![tactic(auto)]

#[cfg(test)]
mod blocks;
#[cfg(test)]
mod cards;
#[cfg(test)]
mod files;
#[cfg(test)]
mod names;
#[cfg(test)]
mod nodes;
#[cfg(test)]
mod repeated;
#[cfg(test)]
mod same;
#[cfg(test)]
mod sizes;
