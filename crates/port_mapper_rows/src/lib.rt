//! What a port mapper answers, with bytes typed from RFC 1833 and RFC 5531.
#![tactic(auto)]

#[cfg(test)]
mod bytes;
#[cfg(test)]
mod datagrams;
#[cfg(test)]
mod heads;
#[cfg(test)]
mod procedures;
#[cfg(test)]
mod streams;
