ghost use Rattle.std.specs.Prelude.{◌≡◌, ◌<◌, ◌≤◌, [], ◌∷◌, ◌++◌, length, IfErr, if◌then◌else◌, None, nat_eq};
ghost use Rattle.channel.specs.Asking.{waiting};
ghost use Rattle.framing.specs.Judging.{first_no};
ghost use Rattle.flow.specs.Asking.{opening_questions, offer_questions, token_question};
ghost use Rattle.flow.specs.Calls.{SetUp, OpeningAnswer, OfferAnswer, ClosingAnswer, ReadingAnswer, outcome};
ghost use Rattle.flow.specs.Happening.{HistoryOf, Happened, opening_reply, offer_reply, closing_reply, reading_reply, if_accepted};
ghost use Rattle.runlaw.specs.History.{History};
ghost use Rattle.runlaw.specs.History.{opening as an_opening, offer as an_offer, closing as a_closing, reading as a_reading};
ghost use Rattle.runlaw.specs.Law.{RunLaw};
ghost use Rattle.flow.specs.Numbers.{open_number, offer_number, inside, refusal};
ghost use Rattle.flow.specs.Writing.{state_of, opening, offering, closing};

use crate::faults::{CloseFault, OfferFault, OpenFault};
use crate::joining::with_checksum;
use crate::token::SuperframeToken;
use crate::writer::Writer;
use channel::channel::Channel;
use checksum::checksum::Checksum;
use framing::judging::PACKET_MAX;
use receiver::answer::{BufferTooShort, Reading};
use receiver::reader::Reader;
use receiver::terms::Terms;
use service::service::Service;

/// The most frames that a superframe has.
const FRAMES_MAX: usize = 200;

/// One flow of packets over a channel.
pub struct Flow<C, K, S> {
    channel: C,
    terms: Terms<K, S>,
    writer: Writer,
    reader: Reader,
    /// Whoever runs the flows gives each id to one flow only.
    id: u16,
}

// The clauses name one by one what they take of the channel, the checksum and the service: a record of it would be one more member
// of each of these traits, for every channel, checksum and service to state.
//
// A flow has a reader, as a `Receiver` has, and not a receiver: the writer puts on the same channel, which a receiver keeps to itself.

impl<C: Channel, K: Checksum, S: Service> Flow<C, K, S> {
    /// A flow over `channel`, with no superframe open and nothing carried over.
    pub fn new(channel: C, terms: Terms<K, S>, id: u16) -> Flow<C, K, S>
        ensures parts { SetUp C.space C.tied channel terms id result }
        ensures runs { C.slots channel ≡ [] → C.tied channel → HistoryOf C.slots C.space C.made C.tied K.width K.value S.verdict [] result × RunLaw terms.fasb K.width K.reach K.value [] }
    {
        Flow {
            channel,
            terms,
            writer: Writer::idle(),
            reader: Reader::new(),
            id,
        }
    }

    /// The channel's room.
    pub fn room(&self) -> usize
        ensures { result ≡ C.space self.now.channel }
    {
        self.channel.room()
    }

    /// Whether a slot waits on the channel.
    pub fn waits(&self) -> bool
        ensures { result ≡ waiting (C.slots self.now.channel) }
    {
        self.channel.waits()
    }

    /// Whether an opening for `n` frames would be accepted, and why not.
    pub fn check_opening(&self, n: usize) -> Result<(), OpenFault>
        ensures { refusal open_number result ≡ first_no (opening_questions n (state_of self.now.writer) (C.space self.now.channel)) }
    {
        if self.writer.left.is_some() {
            return Err(OpenFault::AlreadyOpen);
        }
        if !(1..=FRAMES_MAX).contains(&n) {
            return Err(OpenFault::FrameCount);
        }
        if self.channel.room() < n + 1 {
            return Err(OpenFault::NoRoom);
        }
        Ok(())
    }

    // Each of the four calls on a history has its answer proved first, in a function of its own: the call then adds what that answer
    // means for the history.

    fn start(&mut self, n: usize) -> Result<SuperframeToken, OpenFault>
        ensures { OpeningAnswer C.slots C.space C.made C.tied n result self.old self.new }
    {
        self.check_opening(n)?;
        self.writer.begin(&mut self.channel, n as u8);
        Ok(SuperframeToken { flow: self.id })
    }

    /// Whether a superframe is open here, and this is its token.
    pub fn holds(&self, token: &SuperframeToken) -> bool
        ensures { result ≡ (token_question token.now.flow self.now.id (state_of self.now.writer)).yes }
    {
        self.writer.left.is_some() && token.flow == self.id
    }

    /// Whether an offer of this packet would be accepted, and why not.
    pub fn check_offer(&self, token: &SuperframeToken, packet: &[u8]) -> Result<(), OfferFault>
        ensures asked { refusal offer_number result ≡ first_no (offer_questions token.now.flow self.now.id self.now.terms.fasb K.width (S.verdict self.now.terms.service packet.now) packet.now (state_of self.now.writer)) }
        ensures inside { IfErr result (λ e. inside e ≡ (if nat_eq (offer_number e) 6 then S.verdict self.now.terms.service packet.now else None)) }
    {
        if !self.holds(token) {
            return Err(OfferFault::NotOpenHere);
        }
        if !(1..=PACKET_MAX).contains(&packet.len()) {
            return Err(OfferFault::Length);
        }
        self.terms.service.admit(packet)?;
        let wanted = if self.terms.fasb {
            1
        } else {
            packet.len() + self.terms.checksum.value_len()
        };
        if self.writer.free_bytes() < wanted {
            return Err(OfferFault::NoSpace);
        }
        Ok(())
    }

    fn accept(&mut self, token: &SuperframeToken, packet: &[u8]) -> Result<(), OfferFault>
        ensures { OfferAnswer C.slots C.space C.made C.tied K.width K.value S.verdict token.now packet.now result self.old self.new }
    {
        self.check_offer(token, packet)?;
        let width = self.terms.checksum.value_len();
        let value = self.terms.checksum.value_of(packet);
        let bytes = with_checksum(packet, &value[..width]);
        self.writer.place(&mut self.channel, bytes.as_slice());
        Ok(())
    }

    fn end(&mut self, token: SuperframeToken) -> Result<(), CloseFault>
        ensures { ClosingAnswer C.slots C.space C.made C.tied token result self.old self.new }
    {
        if !self.holds(&token) {
            return Err(CloseFault::WrongToken(token));
        }
        self.writer.finish(&mut self.channel);
        let SuperframeToken { flow: _ } = token;
        Ok(())
    }

    fn read(&mut self, buffer: &mut [u8]) -> Result<Reading, BufferTooShort>
        ensures { ReadingAnswer C.slots C.space C.tied K.width K.value S.verdict buffer.old buffer.new result self.old self.new }
    {
        let terms = self.terms.as_ref();
        self.reader.read(&mut self.channel, terms, buffer)
    }
}

impl<C: Channel, K: Checksum, S: Service> Flow<C, K, S> {
    /// Opens a superframe of `n` frames. What was carried over is cut first.
    pub fn opening(&mut self, n: usize) -> Result<SuperframeToken, OpenFault>
        ensures answer { OpeningAnswer C.slots C.space C.made C.tied n result self.old self.new }
        ensures runs { (h : History) → HistoryOf C.slots C.space C.made C.tied K.width K.value S.verdict h self.old → Happened C.slots C.space C.made C.tied K.width K.reach K.value S.verdict (an_opening n) (opening_reply result) (if_accepted result (opening n (state_of self.old.writer)).puts) [] h self.old self.new }
    {
        self.start(n)
    }

    /// Offers a packet to the open superframe: cuts it, and then its checksum. The token comes back in every case.
    pub fn offer(
        &mut self,
        token: SuperframeToken,
        packet: &[u8],
    ) -> (SuperframeToken, Result<(), OfferFault>)
        ensures token { result.0 ≡ token }
        ensures answer { OfferAnswer C.slots C.space C.made C.tied K.width K.value S.verdict token packet.now result.1 self.old self.new }
        ensures runs { (h : History) → HistoryOf C.slots C.space C.made C.tied K.width K.value S.verdict h self.old → Happened C.slots C.space C.made C.tied K.width K.reach K.value S.verdict (an_offer packet.now) (offer_reply result.1) (if_accepted result.1 (offering (packet.now ++ K.value packet.now) (state_of self.old.writer)).puts) [] h self.old self.new }
    {
        let answer = self.accept(&token, packet);
        (token, answer)
    }

    /// Closes the superframe of `token`: what is left of it is padding. A refused closing gives the token back.
    pub fn closing(&mut self, token: SuperframeToken) -> Result<(), CloseFault>
        ensures answer { ClosingAnswer C.slots C.space C.made C.tied token result self.old self.new }
        ensures runs { (h : History) → HistoryOf C.slots C.space C.made C.tied K.width K.value S.verdict h self.old → Happened C.slots C.space C.made C.tied K.width K.reach K.value S.verdict a_closing (closing_reply result) (if_accepted result (closing (state_of self.old.writer)).puts) [] h self.old self.new }
    {
        self.end(token)
    }

    /// Reads on until one answer is due. A packet that is handed out is put at the front of the buffer, without its checksum.
    pub fn reading(&mut self, buffer: &mut [u8]) -> Result<Reading, BufferTooShort>
        ensures answer { ReadingAnswer C.slots C.space C.tied K.width K.value S.verdict buffer.old buffer.new result self.old self.new }
        ensures runs { (h : History) → HistoryOf C.slots C.space C.made C.tied K.width K.value S.verdict h self.old → Happened C.slots C.space C.made C.tied K.width K.reach K.value S.verdict a_reading (reading_reply result buffer.new) [] (if_accepted result (outcome C.slots K.width self.old).taken) h self.old self.new }
    {
        self.read(buffer)
    }

    /// Ends the flow, and gives its channel back.
    pub fn into_channel(self) -> C
    where
        K: Drop,
        S: Drop,
        ensures { result ≡ self.channel }
    {
        let Flow {
            channel,
            terms: _,
            writer: _,
            reader: _,
            id: _,
        } = self;
        channel
    }
}
