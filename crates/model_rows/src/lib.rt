//! Worked rows of definitions of `nfs_model` and `rpc_msg`, typed by hand from the standard and
//! from our profile, and computed. It has no code; its lemmas are checked.
#![tactic(auto)]
