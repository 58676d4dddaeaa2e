//! Worked rows: what the definitions of `nfs_model` say of small cases, typed from the standard and
//! from our profile by hand, and computed. It has no code; its lemmas are checked.
