//! Lanes over devices in memory: calls that go on under one grant, one that ends in the midst of
//! another lane's, and what is left when lanes are put together and closed.
#![tactic(auto)]

#[cfg(test)]
mod chained;
#[cfg(test)]
mod closing;
#[cfg(test)]
mod laned;
#[cfg(test)]
mod latch;
#[cfg(test)]
mod memory;
#[cfg(test)]
mod opening;
#[cfg(test)]
mod texts;
