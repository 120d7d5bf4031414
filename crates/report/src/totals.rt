ghost use Rattle.std.specs.Prelude.{◌≡◌};
ghost use Rattle.report.specs.Tallies.{with_kind, counting_packet, counting_dropped, tallied, all_packets};

use crate::entry::{Entry, Packet, Verdict};
use service::header::Kind;

/// How many packets there are of each kind that a sync header names.
#[derive(Clone, Copy, PartialEq, Eq, Debug, Default)]
pub struct Kinds {
    pub video: u64,
    pub audio: u64,
    /// Timed data.
    pub captions: u64,
    pub adaptation: u64,
}

/// What the entries of a reel come to. A count that reaches the largest number stays there: the counts are
/// plain numbers, which every form of catalogue prints, so it is said where they grow and not in their type.
#[derive(Clone, Copy, PartialEq, Eq, Debug, Default)]
pub struct Totals {
    pub lost: u64,
    pub torn: u64,
    pub sound: u64,
    pub damaged: u64,
    pub foreign: u64,
    pub short: u64,
    /// Packets that a superframe, or the reel, ended inside.
    pub unfinished: u64,
    /// The bytes of packets that were begun and then dropped.
    pub dropped: u64,
    /// The sound packets by kind.
    pub kinds: Kinds,
    /// The damaged packets by the kind that they name.
    pub damaged_kinds: Kinds,
}

impl Kinds {
    /// With one more of this kind.
    pub fn with(mut self, kind: Kind) -> Kinds
        ensures { result ≡ with_kind self kind }
    {
        match kind {
            Kind::Video => self.video = self.video.saturating_add(1),
            Kind::Audio => self.audio = self.audio.saturating_add(1),
            Kind::TimedData => self.captions = self.captions.saturating_add(1),
            Kind::Adaptation => self.adaptation = self.adaptation.saturating_add(1),
        }
        self
    }
}

impl Totals {
    /// With one packet more.
    fn with_packet(mut self, packet: Packet) -> Totals
        ensures { result ≡ counting_packet self packet.verdict packet.header }
    {
        match packet.verdict {
            Verdict::Sound => {
                self.sound = self.sound.saturating_add(1);
                if let Some(header) = packet.header {
                    self.kinds = self.kinds.with(header.kind);
                }
            }
            Verdict::Damaged => {
                self.damaged = self.damaged.saturating_add(1);
                if let Some(header) = packet.header {
                    self.damaged_kinds = self.damaged_kinds.with(header.kind);
                }
            }
            Verdict::Foreign { .. } => self.foreign = self.foreign.saturating_add(1),
        }
        self
    }

    /// With so many bytes more that were dropped.
    fn with_dropped(mut self, dropped: u16) -> Totals
        ensures { result ≡ counting_dropped self dropped }
    {
        self.dropped = self.dropped.saturating_add(u64::from(dropped));
        self
    }

    /// With one entry more.
    pub fn with(mut self, entry: Entry) -> Totals
        ensures { result ≡ tallied self entry }
    {
        match entry {
            Entry::Packet(packet) => self.with_packet(packet),
            Entry::Short => {
                self.short = self.short.saturating_add(1);
                self
            }
            Entry::Lost { dropped, .. } => {
                self.lost = self.lost.saturating_add(1);
                self.with_dropped(dropped)
            }
            Entry::Torn { dropped, .. } => {
                self.torn = self.torn.saturating_add(1);
                self.with_dropped(dropped)
            }
            Entry::Unfinished { dropped } => {
                self.unfinished = self.unfinished.saturating_add(1);
                self.with_dropped(dropped)
            }
        }
    }

    /// The packets that came to their end, the short ones among them.
    pub fn packets(&self) -> u64
        ensures { result ≡ all_packets self.now }
    {
        self.sound
            .saturating_add(self.damaged)
            .saturating_add(self.foreign)
            .saturating_add(self.short)
    }
}
