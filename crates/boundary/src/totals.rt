use receiver::answer::Reading;

/// How much was read or written.
#[derive(Clone, Copy, Default, PartialEq, Eq, Debug)]
#[repr(C)]
pub struct Totals {
    /// The packets, and their bytes.
    pub packets: u64,
    pub bytes: u64,
    /// The answers without a packet, or the refusals.
    pub others: u64,
}

impl Totals {
    /// Counts one packet more.
    pub(crate) fn count_packet(&mut self, len: usize) {
        self.packets = self.packets.wrapping_add(1);
        self.bytes = self.bytes.wrapping_add(len as u64);
    }

    /// Counts one other answer more.
    pub(crate) fn count_other(&mut self) {
        self.others = self.others.wrapping_add(1);
    }

    /// Counts what was read; that there was nothing is no answer.
    pub(crate) fn count(&mut self, answer: Reading) {
        match answer {
            Reading::Sound { len } | Reading::Damaged { len } | Reading::Foreign { len, .. } => {
                self.count_packet(len);
            }
            Reading::Nothing => {}
            _ => self.count_other(),
        }
    }
}
