ghost use Rattle.std.specs.Prelude.{◌≡◌, ◌≤◌, ◌++◌, length};

use arrayvec::ArrayVec;

/// A packet with the value of its checksum, the check, behind it.
pub(crate) fn with_checksum(packet: &[u8], check: &[u8]) -> ArrayVec<u8, 2048>
    requires { (length packet.now ≤ 2044) × (length check.now ≤ 4) }
    ensures { result.items ≡ packet.now ++ check.now }
{
    let mut bytes = ArrayVec::new();
    bytes.try_extend_from_slice(packet).unwrap();
    bytes.try_extend_from_slice(check).unwrap();
    bytes
}
