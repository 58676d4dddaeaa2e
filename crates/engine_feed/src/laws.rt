//! What the definitions say, where they say it in two ways: for every offer.

ghost use Rattle.std.specs.Prelude.{List, ℕ};
ghost use Rattle.nfs_model.specs.World.{IsScan};
ghost use Rattle.rpc_record.specs.Stream.{AreBytes};
ghost use Rattle.rpc_msg.specs.declared.offer.Offer.{Offer};
ghost use Rattle.engine_feed.specs.Streams.{IsServed, scan_stream, codec};

use rpc_record::reading_is_exact;

/// What is read of a whole stream is what its records are (RFC 5531 section 11).
pub fn streams_are_served()
    ensures { (offer : Offer) (stream : List ℕ)
        → AreBytes stream
        → IsServed offer stream (scan_stream offer stream) }
{
    reading_is_exact();
}

/// A byte adds at most one record to what is read, and none where it reaches a fault.
pub fn codecs_are_scans()
    ensures { (offer : Offer) → IsScan (codec offer) }
{}
