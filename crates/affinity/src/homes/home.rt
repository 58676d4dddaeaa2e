//! Where a call is at home.

ghost use Rattle.std.specs.Prelude.{◌≡◌, ◌==◌, ◌+◌, ◌-◌, ◌/◌, ◌<◌, length, min, option_map};
ghost use Rattle.std.specs.Prelude.{slice_get, IfSome};
ghost use Rattle.nfs_model.specs.Home.{home, bytes_home, grow_home, home_of_route, logical_home};
ghost use Rattle.nfs_model.specs.Home.{named_by, rename_home, span_bytes, stripe_of_span};
ghost use Rattle.nfs_model.specs.Home.{volume_home};
ghost use Rattle.nfs_values.specs.Call.{call_of};
ghost use Rattle.nfs_values.specs.Handle.{named_of};
ghost use Rattle.nfs_values.specs.Route.{route_of};
ghost use Rattle.affinity.specs.Affinity.{call_node};
ghost use Rattle.affinity.specs.Layout.{layout_of};
ghost use Rattle.affinity.specs.Tree.{IsNode};

use crate::{CallNode, Layout};
use nfs_values::{COUNT_LIMIT, Call, FileHandle, Named, Route, SPAN_BYTES, VolumeNumber};

/// What a good handle names, which has 12 bytes and a volume that the layout has.
pub fn named_by(handle: &FileHandle, layout: &Layout) -> Option<Named>
    ensures named { option_map named_of result ≡ named_by (layout_of layout.now) handle.now }
    ensures there { IfSome result (λ n. n.volume.0 < length (layout_of layout.now).volumes) }
{
    let named = handle.named()?;
    if named.volume.0 as usize >= layout.volume_count() {
        return None;
    }
    Some(named)
}

/// Whether bytes, as many as a count that isn't 0, lie in one span.
fn is_in_one_span(offset: u64, count: u32) -> bool
    requires { 0 < count }
    ensures { result ≡ (offset / span_bytes == (offset + count - 1) / span_bytes) }
{
    offset % SPAN_BYTES + u64::from(count) <= SPAN_BYTES
}

/// The stripe of a file's span.
#[tactic(auto, using(crate::proofs::homes::Spans::remainder_of_parts))]
fn stripe_of_span(layout: &Layout, named: Named, span: u64) -> CallNode
    requires { named.volume.0 < length (layout_of layout.now).volumes }
    ensures stripe { call_node result
        ≡ stripe_of_span (layout_of layout.now) (named_of named) span }
    ensures node { IsNode (layout_of layout.now) (call_node result) }
{
    let volume = named.volume.0;
    let stripes = u64::from(layout.stripes_of(volume));
    let stripe = (named.fileid.0 % stripes + span % stripes) % stripes;
    CallNode::Stripe {
        volume,
        stripe: stripe as u32,
    }
}

/// Where a call on bytes of a file is at home.
fn home_of_bytes(handle: &FileHandle, offset: u64, count: u32, layout: &Layout) -> Option<CallNode>
    ensures home { let L = layout_of layout.now in option_map call_node result
        ≡ bytes_home L (named_by L handle.now) offset (min count COUNT_LIMIT) }
    ensures node { IfSome result (λ a. IsNode (layout_of layout.now) (call_node a)) }
{
    let named = named_by(handle, layout)?;
    let count = count.min(COUNT_LIMIT);
    if count == 0 || is_in_one_span(offset, count) {
        Some(stripe_of_span(layout, named, offset / SPAN_BYTES))
    } else {
        Some(CallNode::Logical(named.volume.0))
    }
}

/// Where a call on names and attributes is at home.
fn home_of_names(handle: &FileHandle, layout: &Layout) -> Option<CallNode>
    ensures home { option_map call_node result
        ≡ logical_home (named_by (layout_of layout.now) handle.now) }
    ensures node { IfSome result (λ a. IsNode (layout_of layout.now) (call_node a)) }
{
    let named = named_by(handle, layout)?;
    Some(CallNode::Logical(named.volume.0))
}

/// Where a call with two handles is at home: with the one volume that both name.
fn home_of_two(from: &FileHandle, to: &FileHandle, layout: &Layout) -> Option<CallNode>
    ensures home { let L = layout_of layout.now in option_map call_node result
        ≡ rename_home (named_by L from.now) (named_by L to.now) }
    ensures node { IfSome result (λ a. IsNode (layout_of layout.now) (call_node a)) }
{
    let from = named_by(from, layout)?;
    let to = named_by(to, layout)?;
    if from.volume.0 == to.volume.0 {
        Some(CallNode::Logical(from.volume.0))
    } else {
        None
    }
}

/// Where a call on a whole volume is at home.
fn home_of_volume(handle: &FileHandle, layout: &Layout) -> Option<CallNode>
    ensures home { option_map call_node result
        ≡ volume_home (named_by (layout_of layout.now) handle.now) }
    ensures node { IfSome result (λ a. IsNode (layout_of layout.now) (call_node a)) }
{
    let named = named_by(handle, layout)?;
    Some(CallNode::Volume(named.volume.0))
}

/// Where a volume's growth is at home.
fn home_of_growth(volume: VolumeNumber, layout: &Layout) -> Option<CallNode>
    ensures home { option_map call_node result
        ≡ grow_home (slice_get (layout_of layout.now).volumes volume.0) }
    ensures node { IfSome result (λ a. IsNode (layout_of layout.now) (call_node a)) }
{
    if volume.0 as usize >= layout.volume_count() {
        return None;
    }
    Some(CallNode::Aggregate(layout.aggregate_of(volume.0)))
}

/// The node that a call of a route tries first; nothing for one that is on no state.
fn home_of_route(route: Route<'_>, layout: &Layout) -> Option<CallNode>
    ensures home { option_map call_node result
        ≡ home_of_route (layout_of layout.now) (route_of route.entry) }
    ensures node { IfSome result (λ a. IsNode (layout_of layout.now) (call_node a)) }
{
    match route {
        Route::AtOnce => None,
        Route::Names { handle } => home_of_names(handle, layout),
        Route::BytesRead {
            handle,
            offset,
            count,
        } => home_of_bytes(handle, offset, count, layout),
        Route::BytesWritten {
            handle,
            offset,
            count,
        } => home_of_bytes(handle, offset, count, layout),
        Route::TwoHandles { from, to } => home_of_two(from, to, layout),
        Route::Volume { handle } => home_of_volume(handle, layout),
        Route::Aggregate { volume } => home_of_growth(volume, layout),
        Route::Everything => Some(CallNode::Serial),
    }
}

/// The node that a call tries first; nothing for a call that is answered without one.
pub fn home_of(call: &Call, layout: &Layout) -> Option<CallNode>
    ensures home { option_map call_node result ≡ home (layout_of layout.now) (call_of call.now) }
    ensures node { IfSome result (λ a. IsNode (layout_of layout.now) (call_node a)) }
{
    home_of_route(call.route(), layout)
}
