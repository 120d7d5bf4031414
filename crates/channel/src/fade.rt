ghost use Rattle.std.specs.Prelude.{◌≡◌};
ghost use Rattle.channel.specs.Answers.{PutAnswer, TakeAnswer};
ghost use Rattle.channel.specs.Outgoings.{as_put};
ghost use Rattle.channel.specs.Patterns.{shown, faded, through, number_after};
ghost use Rattle.channel.specs.Fading.{fade_slots, fade_space, Fades, FadeTied, SameBit, PutBelow, TakeBelow};

use crate::channel::{Channel, Full};
use crate::pattern::FadePattern;
use crate::sending::Outgoing;
use framing::slot::Slot;

/// A layer over any channel that loses frames by a pattern, in the order in which they are taken.
#[derive(Drop)]
pub struct Fade<C> {
    channel: C,
    pattern: FadePattern,
    /// The number of the frame or gap that is taken next, which matters only modulo the pattern's bits.
    number: usize,
}

impl<C: Channel> Fade<C> {
    /// A fade over this channel, where the next frame or gap is number 0.
    pub fn over(channel: C, pattern: FadePattern) -> Fade<C>
        ensures waits { fade_slots C.slots result ≡ faded (shown pattern) 0 (C.slots channel) }
        ensures free { fade_space C.space result ≡ C.space channel }
        ensures tied { C.tied channel → FadeTied C.tied result }
        ensures exact { (result.channel ≡ channel) × (result.pattern ≡ pattern) × (result.number ≡ 0) }
    {
        Fade {
            channel,
            pattern,
            number: 0,
        }
    }

    /// The channel below.
    pub fn into_inner(self) -> C
        ensures { result ≡ self.channel }
    {
        let Fade {
            channel,
            pattern: _,
            number: _,
        } = self;
        channel
    }

    /// What comes through of the slot that is taken next.
    fn pass(&mut self, slot: Slot) -> Slot
        ensures gives { result ≡ through (shown self.old.pattern) self.old.number slot }
        ensures counts { SameBit self.old.pattern self.new.number (number_after self.old.number slot) }
        ensures same { (self.new.channel ≡ self.old.channel) × (self.new.pattern ≡ self.old.pattern) }
    {
        if let Slot::Mark = slot {
            return slot;
        }
        let number = self.number % self.pattern.bits();
        self.number = number + 1;
        if self.pattern.passes(number) {
            slot
        } else {
            Slot::Gap
        }
    }
}

impl<C: Channel> Channel for Fade<C> {
    ghost slots = { fade_slots C.Channel.slots };

    ghost space = { fade_space C.Channel.space };

    ghost made = { Fades C.Channel.made };

    ghost tied = { FadeTied C.Channel.tied };

    fn room(&self) -> usize {
        self.channel.room()
    }

    fn waits(&self) -> bool {
        self.channel.waits()
    }

    fn put(&mut self, item: &Outgoing) -> Result<(), Full>
        ensures answers { PutAnswer (fade_slots C.Channel.slots) (fade_space C.Channel.space) (Fades C.Channel.made) (FadeTied C.Channel.tied) (as_put item.now) result self.old self.new }
        ensures exact { PutBelow C.Channel.slots C.Channel.space C.Channel.made C.Channel.tied (as_put item.now) result self.old self.new }
    {
        self.channel.put(item)
    }

    fn take(&mut self) -> Option<Slot>
        ensures answers { TakeAnswer (fade_slots C.Channel.slots) (fade_space C.Channel.space) (FadeTied C.Channel.tied) result self.old self.new }
        ensures exact { TakeBelow C.Channel.slots C.Channel.space C.Channel.tied result self.old self.new }
    {
        let slot = self.channel.take()?;
        Some(self.pass(slot))
    }
}
