//! That what threads of a filer share, and what they take with them, may cross threads: proofs for
//! `thread::spawn_with`, in the reach of whoever starts a thread.
