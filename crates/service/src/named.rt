//! What the handles of calls name, which they know since they were made.

ghost use Rattle.std.specs.Prelude.{◌≡◌, option_map};
ghost use Rattle.nfs_model.specs.Home.{named_by};
ghost use Rattle.nfs_model.specs.Route.{handle_on};
ghost use Rattle.affinity.specs.Layout.{layout_of};
ghost use Rattle.nfs_values.specs.Call.{call_of};
ghost use Rattle.nfs_values.specs.Handle.{named_of};
ghost use Rattle.nfs_values.specs.Route.{route_of};
ghost use Rattle.filer_state.specs.state.Calls.{handle_in};
ghost use Rattle.service.specs.Running.{fileid_in};

use affinity::Layout;
use affinity::homes::named_by;
use nfs_values::{Call, FileHandle, Fileid, Named, Route};

/// The fileid of what is named; 0, which no file has, where nothing is.
fn fileid_in(named: Option<Named>) -> Fileid
    ensures { result.0 ≡ fileid_in (option_map named_of named) }
{
    match named {
        Some(named) => named.fileid,
        None => Fileid(0),
    }
}

/// The fileid that a handle names; 0 where it is bad.
pub(crate) fn fileid_of(handle: &FileHandle, layout: &Layout) -> Fileid
    ensures { result.0 ≡ fileid_in (named_by (layout_of layout.now) handle.now) }
{
    fileid_in(named_by(handle, layout))
}

/// The fileid that the handle of a call names, the first of two; 0 where it is bad, or there is
/// none.
pub(crate) fn fileid_of_call(layout: &Layout, call: &Call) -> Fileid
    ensures { result.0
        ≡ fileid_in (named_by (layout_of layout.now) (handle_in (call_of call.now))) }
{
    fileid_in(named_on(call.route(), layout))
}

/// What the handle of a route names, the first of two; nothing where it is bad, or there is none.
fn named_on(route: Route<'_>, layout: &Layout) -> Option<Named>
    ensures { option_map named_of result
        ≡ named_by (layout_of layout.now) (handle_on (route_of route.entry)) }
{
    match route {
        Route::Names { handle } => named_by(handle, layout),
        Route::BytesRead { handle, .. } => named_by(handle, layout),
        Route::BytesWritten { handle, .. } => named_by(handle, layout),
        Route::TwoHandles { from, .. } => named_by(from, layout),
        Route::Volume { handle } => named_by(handle, layout),
        Route::AtOnce | Route::Aggregate { .. } | Route::Everything => None,
    }
}
