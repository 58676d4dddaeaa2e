//! Bytes of a file over the spans in which they lie.

ghost use Rattle.std.specs.Prelude.{◌≡◌, ◌+◌, ◌%◌, ◌≤◌, ◌<◌, ◌++◌, is_some, true};
ghost use Rattle.std.specs.Vec.{vec_len, vec_capacity};
ghost use Rattle.nfs_model.specs.Home.{span_bytes};
ghost use Rattle.nfs_model.specs.volume.Stripes.{bytes_read};
ghost use Rattle.filer_state.specs.state.Sets.{logical_before, stripe_value};
ghost use Rattle.filer_state.specs.bytes.Reading.{bytes_under};
ghost use Rattle.service_data.specs.Stripes.{HasStripes};

use filer_state::Files;
use nfs_values::{Fileid, SPAN_BYTES};
use parcels::{LogicalHeld, StripeHeld};

/// Appends n bytes of a file from an offset on, whatever its size, from one span or two. It takes
/// no memory.
pub(crate) fn read_spans(
    held: &LogicalHeld<Files>,
    fileid: Fileid,
    offset: u64,
    n: usize,
    into: &mut Vec<u8>,
)
    requires stripes { HasStripes held.now }
    requires two { n ≤ span_bytes }
    requires below { offset + n < 18446744073709551616 }
    requires room { vec_len into.old + n ≤ vec_capacity into.old }
    ensures bytes { into.new.items ≡ into.old.items
        ++ bytes_under (logical_before held.now).stripes fileid.0 offset n }
    ensures capacity { vec_capacity into.old ≤ vec_capacity into.new }
{
    let first = (SPAN_BYTES - offset % SPAN_BYTES) as usize;
    if n <= first {
        read_span(held, fileid, offset, n, into);
    } else {
        read_span(held, fileid, offset, first, into);
        read_span(held, fileid, offset + first as u64, n - first, into);
    }
}

/// Appends n bytes of a file, which lie in one span, from its stripe.
fn read_span(held: &LogicalHeld<Files>, fileid: Fileid, offset: u64, n: usize, into: &mut Vec<u8>)
    requires stripes { HasStripes held.now }
    requires span { offset % span_bytes + n ≤ span_bytes }
    requires room { vec_len into.old + n ≤ vec_capacity into.old }
    ensures bytes { into.new.items ≡ into.old.items
        ++ bytes_under (logical_before held.now).stripes fileid.0 offset n }
    ensures capacity { vec_capacity into.old ≤ vec_capacity into.new }
{
    let stripes = u64::from(held.own.get().stripes);
    let stripe = (fileid.0 % stripes + offset / SPAN_BYTES % stripes) % stripes;
    read_place(&held.stripes.at[stripe as usize], fileid, offset, n, into);
}

/// Appends n bytes of a file, which lie in one span, from the stripe in a place, if there is one.
fn read_place(
    place: &Option<StripeHeld<Files>>,
    fileid: Fileid,
    offset: u64,
    n: usize,
    into: &mut Vec<u8>,
)
    requires span { offset % span_bytes + n ≤ span_bytes }
    requires room { vec_len into.old + n ≤ vec_capacity into.old }
    ensures bytes { is_some place.now ≡ true → into.new.items ≡ into.old.items
        ++ bytes_read (stripe_value place.now) fileid.0 offset n }
    ensures capacity { vec_capacity into.old ≤ vec_capacity into.new }
{
    match place {
        Some(stripe) => stripe.own.get().read(fileid, offset, n, into),
        None => {}
    }
}
