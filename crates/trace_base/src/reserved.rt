//! The top-level fields of a packet that a writer may not write.
ghost use Rattle.std.specs.Prelude.{◌≡◌, ◌↔◌, IsTrue, Contains};
ghost use Rattle.trace_base.specs.Reserved as spec;

/// The fields of `TracePacket` by which the service or the consumer tells of the packet itself, as
/// the sequence id (10) and the mark of a dropped predecessor (42): this project's list.
pub const RESERVED_FIELDS: [u32; 8] = [3, 10, 33, 35, 36, 42, 50, 79];

/// Whether a field is the service's own at the top level of a packet.
pub fn is_reserved(field: u32) -> bool
    ensures member { IsTrue result ↔ Contains RESERVED_FIELDS field }
    ensures value { result ≡ spec.is_reserved field }
{
    RESERVED_FIELDS.contains(&field)
}
