//! Turns and tends of workers on the real depot, and a pool of threads that run them: what each
//! answers and leaves, that what is put is finished or left, and that calls that don't exclude each
//! other run beside each other.
#![tactic(auto)]

#[cfg(test)]
mod beside;
#[cfg(test)]
mod calls;
#[cfg(test)]
mod crowd;
#[cfg(test)]
mod full;
#[cfg(test)]
mod latch;
#[cfg(test)]
mod leaving;
#[cfg(test)]
mod mail;
#[cfg(test)]
mod opening;
#[cfg(test)]
mod putting;
#[cfg(test)]
mod rows;
#[cfg(test)]
mod running;
#[cfg(test)]
mod scene;
#[cfg(test)]
mod scenes;
#[cfg(test)]
mod shutting;
#[cfg(test)]
mod station;
#[cfg(test)]
mod xids;
