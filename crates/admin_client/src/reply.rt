//! What replies tell.

ghost use Rattle.std.specs.Prelude.{◌≡◌};
ghost use Rattle.nfs_types.specs.Results.{census_shape};
ghost use Rattle.admin_client.specs.Telling.{TellsResult, TellsCensus, growth_shape, growth_value};
ghost use Rattle.admin_client.specs.Telling.{results_at, stopped_value, told_by};
ghost use Rattle.xdr.specs.Shape.{Void};

use crate::counts::read_counts;
use crate::fault::AdminFault;
use crate::growth::{Growth, read_outcome};
use crate::head::{read_head, refusal};
use crate::volumes::Census;
use std::alloc::Global;
use xdr::Cursor;

/// The results in a reply to the call of this xid, where it was done.
fn results(xid: u32, reply: &[u8]) -> Result<Cursor<'_>, AdminFault>
    ensures { result ≡ results_at xid reply.now }
{
    let mut from = Cursor::new(reply);
    let head = read_head(&mut from)?;
    if head.xid != xid {
        return Err(AdminFault::OfAnotherCall);
    }
    let Some(refusal) = refusal(&head.body) else {
        return Ok(from);
    };
    from.end()?;
    Err(AdminFault::Refused(refusal))
}

/// What the reply to a CENSUS of this xid tells.
pub fn read_census(alloc: Global, xid: u32, reply: &[u8]) -> Result<Census, AdminFault>
    ensures { TellsCensus result (told_by census_shape xid reply.now) }
{
    let mut from = results(xid, reply)?;
    let volumes = read_counts(alloc, &mut from)?;
    from.end()?;
    Ok(Census { volumes })
}

/// What the reply to a GROW of this xid tells.
pub fn read_growth(xid: u32, reply: &[u8]) -> Result<Growth, AdminFault>
    ensures { TellsResult growth_value result (told_by growth_shape xid reply.now) }
{
    let mut from = results(xid, reply)?;
    let growth = read_outcome(&mut from)?;
    from.end()?;
    Ok(growth)
}

/// What the reply to a STOP of this xid tells: nothing, where the server stops.
pub fn read_stop(xid: u32, reply: &[u8]) -> Result<(), AdminFault>
    ensures { TellsResult stopped_value result (told_by Void xid reply.now) }
{
    let from = results(xid, reply)?;
    from.end()?;
    Ok(())
}
