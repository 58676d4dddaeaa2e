//! Records, heads, arguments, results and replies with their bytes, typed from the standards.
#![tactic(auto)]

#[cfg(test)]
mod admin;
#[cfg(test)]
mod arguments;
#[cfg(test)]
mod bytes;
#[cfg(test)]
mod handles;
#[cfg(test)]
mod heads;
#[cfg(test)]
mod paths;
#[cfg(test)]
mod records;
#[cfg(test)]
mod replies;
#[cfg(test)]
mod results;
