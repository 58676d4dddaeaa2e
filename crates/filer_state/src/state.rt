//! The parcels of a filer: which server they stand for, what has to hold of them, and what a call
//! may do to those that it holds. Definitions, and no code.
