//! What the owner, the groups and the mode of an object give a caller (RFC 1813 sections 2.6 and
//! 4.4), what a call is refused by them, and what a caller's attributes are taken as.
#![tactic(auto)]

mod access;
mod bits;
mod granting;
mod making;
mod mode;
mod protection;
mod refusing;
mod setting;

pub use access::access_given;
pub use bits::{has_bit, without_set_ids};
pub use granting::{
    is_owner_or_root, may_change, may_drop, may_list, may_read, may_search, may_write,
};
pub use making::{Maker, over_taken};
pub use mode::{Rights, rights_of};
pub use protection::Protection;
pub use refusing::{
    asked_first, clears_set_ids, device_fault, needs, read_refusal, refusal_of, write_refusal,
};
pub use setting::{set_checked, set_refusal};
