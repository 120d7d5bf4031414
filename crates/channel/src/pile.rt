ghost use Rattle.std.specs.Prelude.{◌≡◌, ◌/◌, [], length};
ghost use Rattle.channel.specs.Rings.{kept, room_in, RingTied};
ghost use Rattle.channel.specs.Fading.{fade_slots, fade_space, FadeTied};

use crate::fade::Fade;
use crate::pattern::FadePattern;
use crate::ring::Ring;

/// An empty ring over this memory under two fades, whose `lower` pattern comes first.
pub fn twice_faded(memory: &mut [u8], lower: FadePattern, upper: FadePattern) -> Fade<Fade<Ring>>
    ensures waits { fade_slots (fade_slots kept) result ≡ [] }
    ensures free { fade_space (fade_space room_in) result ≡ length memory.old / 123 }
    ensures memory { result.channel.channel.memory ≡ memory.entry }
    ensures ties { FadeTied (FadeTied RingTied) result }
    ensures exact { (result.pattern ≡ upper) × (result.number ≡ 0) × (result.channel.pattern ≡ lower) × (result.channel.number ≡ 0) }
{
    Fade::over(Fade::over(Ring::new(memory), lower), upper)
}
