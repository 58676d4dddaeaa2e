//! The state of a volume as plain records, one for each type that keeps a part of it, and the
//! changes that are made to them. Definitions, and no code.
