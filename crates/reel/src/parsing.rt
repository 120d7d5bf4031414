ghost use Rattle.std.specs.Prelude.{◌≡◌, ◌/◌, ◌^◌, ◌≤◌, ◌&&◌, length, drop, nat_le};
ghost use Rattle.reel.specs.Bits.{bits, size_of_map, count_of_set_bits, all_clear};
ghost use Rattle.reel.specs.Parts.{Read};

use crate::block::Block;
use crate::fault::BlockFault;

/// May a superframe have so many frames and gaps?
fn is_superframe_size(size: u8) -> bool
    ensures { result ≡ (nat_le 1 size && nat_le size 200) }
{
    (1..=200).contains(&size)
}

/// The number of bits that are set in a bit map.
fn set_bits(map: &[u8]) -> usize
    requires { length map.now ≤ 25 }
    ensures { result ≡ count_of_set_bits (bits map.now) }
{
    map.iter().map(|byte| byte.count_ones()).sum::<u32>() as usize
}

/// What is left of a byte behind its first, lowest, `used` bits.
fn behind(byte: u8, used: usize) -> u16
    requires { used ≤ 8 }
    ensures { result ≡ byte / 2 ^ used }
{
    u16::from(byte) >> used
}

/// Are the bits clear that lie behind the first `size` bits of a bit map?
fn spare_bits_are_clear(map: &[u8], size: u8) -> bool
    requires { (1 ≤ size) × (length map.now ≡ size_of_map size) }
    ensures { result ≡ all_clear (drop size (bits map.now)) }
{
    let last = map.len() - 1;
    behind(map[last], usize::from(size) - 8 * last) == 0
}

/// The block at the front of `bytes`, whose first byte has the place `at` in the reel.
pub fn read_block<'a>(bytes: &'a [u8], at: usize) -> Result<Block<'a>, BlockFault>
    ensures { Read bytes.now at result }
{
    let [size, rest @ ..] = bytes else {
        return Err(BlockFault::SuperframeSize);
    };
    let size = *size;
    if !is_superframe_size(size) {
        return Err(BlockFault::SuperframeSize);
    }
    let map_size = usize::from(size).div_ceil(8);
    let (map, behind_map) = rest.split_at_checked(map_size).ok_or(BlockFault::Map)?;
    if !spare_bits_are_clear(map, size) {
        return Err(BlockFault::Map);
    }
    let frames = behind_map
        .get(..122 * set_bits(map))
        .ok_or(BlockFault::Frames)?;
    Ok(Block {
        at,
        size,
        map,
        frames,
    })
}
