//! Connections that are read and written, whole and cut anywhere, over devices that fail: all with
//! bytes typed from the standards.
#![tactic(auto)]

#[cfg(test)]
mod connected;
#[cfg(test)]
mod devices;
#[cfg(test)]
mod failing;
#[cfg(test)]
mod gathered;
#[cfg(test)]
mod memory;
#[cfg(test)]
mod placed;
#[cfg(test)]
mod reading;
#[cfg(test)]
mod texts;
#[cfg(test)]
mod waiting;
#[cfg(test)]
mod watching;
#[cfg(test)]
mod writing;
