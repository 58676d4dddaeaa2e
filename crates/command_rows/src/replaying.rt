//! Devices that fail and lists of events, with what each gives, typed from the standards. Scripts
//! are tried by `trials/worked_scripts` and `trials/made_scripts`.

mod devices;
mod lists;
mod texts;
