ghost use Rattle.std.specs.Prelude.{◌≡◌, length};
ghost use Rattle.std.specs.Iterator.{at_most};

use crate::reading::{Source, read_on};
use crate::session::{Refusal, Session};
use crate::terms::{OnTerms, on_terms};
use crate::tracing::Trace;
use channel::channel::Channel;
use channel::fade::Fade;
use channel::pattern::FadePattern;
use channel::ring::Ring;
use checksum::checksum::Checksum;
use checksum::none::NoChecksum;
use receiver::terms::Terms;
use service::choice::ServiceChoice;
use service::plain::Plain;
use service::service::Service;

/// One step of a script, as its three bytes say: which call it is, and a number. A packet stands behind them.
#[derive(Clone, Copy)]
enum Step<'a> {
    Opening(usize),
    Offer(&'a [u8]),
    Closing,
    /// A reading with so many bytes of buffer.
    Reading(usize),
    /// Readings through the first that answers nothing.
    ReadingOn,
    /// An offer, and a closing, with the token of another flow.
    StrayOffer(&'a [u8]),
    StrayClosing,
    /// The room, and whether a slot waits.
    Asking,
}

/// The steps of a script. One that is cut off asks.
#[derive(Clone, Copy)]
struct Steps<'a>(&'a [u8]);

impl<'a> Iterator for Steps<'a> {
    type Item = Step<'a>;

    ghost remaining = { λ s. at_most (length s.0.now) };

    fn next(&mut self) -> Option<Step<'a>> {
        let (code, low, high, rest) = match self.0 {
            [] => return None,
            [code, low, high, rest @ ..] => (*code, *low, *high, rest),
            _ => {
                self.0 = &[];
                return Some(Step::Asking);
            }
        };
        let n = usize::from(u16::from_le_bytes([low, high]));
        let (packet, behind) = rest.split_at(n.min(rest.len()));
        let (step, rest) = match code {
            0 => (Step::Opening(n), rest),
            1 => (Step::Offer(packet), behind),
            2 => (Step::Closing, rest),
            3 => (Step::Reading(n), rest),
            4 => (Step::ReadingOn, rest),
            5 => (Step::StrayOffer(packet), behind),
            6 => (Step::StrayClosing, rest),
            _ => (Step::Asking, rest),
        };
        self.0 = rest;
        Some(step)
    }
}

/// A script under way: the session that it runs on, and another of whose token it makes use there; the buffer that packets are
/// read into; and what is put down of it.
struct Play<'o, 'b, 't, C, K, S> {
    session: Session<C, K, S>,
    other: Session<Ring<'o>, NoChecksum, Plain>,
    buffer: &'b mut [u8],
    trace: Trace<'t>,
}

impl<C: Channel, K: Checksum, S: Service> Play<'_, '_, '_, C, K, S> {
    fn put_reply(&mut self, reply: Result<(), Refusal>)
        ensures stray { self.new.other.hand ≡ self.old.other.hand }
    {
        let numbers = reply.map_or_else(|refusal| refusal.numbers(), |()| [0, 0]);
        self.trace.put(&numbers);
    }

    /// One reading with at most so many bytes of the buffer, put down.
    fn read_once(&mut self, len: usize)
        ensures held { self.new.session.hand ≡ self.old.session.hand }
        ensures stray { self.new.other.hand ≡ self.old.other.hand }
    {
        let end = len.min(self.buffer.len());
        let buffer = &mut self.buffer[..end];
        match self.session.reading(buffer) {
            Ok(answer) => self.trace.put_answer(answer, buffer),
            Err(short) => self.trace.put(&[short.number()]),
        }
    }

    /// Readings through the first that answers nothing, put down.
    fn read_to_end(&mut self)
        ensures held { self.new.session.hand ≡ self.old.session.hand }
        ensures stray { self.new.other.hand ≡ self.old.other.hand }
    {
        let trace = &mut self.trace;
        let read = read_on(&mut self.session, self.buffer, |answer, buffer| {
            trace.put_answer(answer, buffer);
        });
        if let Err(short) = read {
            self.trace.put(&[short.number()]);
        }
    }

    /// Puts down the room, and whether a slot waits.
    fn ask(&mut self)
        ensures stray { self.new.other.hand ≡ self.old.other.hand }
    {
        self.trace.put(&self.session.room().to_le_bytes());
        self.trace.put(&[u8::from(self.session.waits())]);
    }

    /// Does one step, and puts down what came of it.
    fn do_step(&mut self, step: Step<'_>)
        ensures stray { self.new.other.hand ≡ self.old.other.hand }
    {
        let reply = match step {
            Step::Opening(frames) => self.session.open(frames),
            Step::Offer(packet) => self.session.offer(packet),
            Step::Closing => self.session.close(),
            Step::Reading(len) => return self.read_once(len),
            Step::ReadingOn => return self.read_to_end(),
            Step::StrayOffer(packet) => self.other.offer_astray(&mut self.session, packet),
            Step::StrayClosing => self.other.close_astray(&mut self.session),
            Step::Asking => return self.ask(),
        };
        self.put_reply(reply);
    }

    /// Does all steps of a script, and closes what is open at the end.
    fn run(&mut self, script: &[u8])
        ensures stray { self.new.other.hand ≡ self.old.other.hand }
    {
        for step in Steps(script) {
            self.do_step(step);
        }
        let reply = self.session.close();
        self.put_reply(reply);
        self.read_to_end();
        self.ask();
    }
}

/// To run a script on a flow over a ring in `memory` under a fade, and put down in `trace` what its calls answered.
struct Running<'a> {
    pattern: FadePattern,
    memory: &'a mut [u8],
    script: &'a [u8],
    buffer: &'a mut [u8],
    trace: &'a mut [u8],
}

impl OnTerms for Running<'_> {
    /// How many bytes of `trace` that took.
    type Output = usize;

    fn done<K: Checksum + Drop>(self, terms: Terms<K, ServiceChoice>) -> usize {
        let Running {
            pattern,
            memory,
            script,
            buffer,
            trace,
        } = self;
        let mut spare = [0; 246];
        let plain = Terms {
            checksum: NoChecksum,
            service: Plain,
            fasb: false,
        };
        let mut play = Play {
            session: Session::begin(Fade::over(Ring::new(memory), pattern), terms, 7),
            other: Session::begin(Ring::new(&mut spare), plain, 8),
            buffer,
            trace: Trace::over(trace),
        };
        // Its ring has room for two slots, so that one frame and the mark can be opened.
        let _ = play.other.open(1);
        play.run(script);
        let Play {
            session,
            other,
            buffer: _,
            trace,
        } = play;
        other.end();
        session.end();
        trace.end()
    }
}

/// Runs a script of calls on a flow over a ring in this memory, under a fade with this pattern (a refused one is as if there were
/// none). What each call answered goes into `trace`.
#[unsafe(no_mangle)]
pub extern "C" fn rothveam_run_script(
    crc16: bool,
    sync: bool,
    fasb: bool,
    pattern: &[u8],
    memory: &mut [u8],
    script: &[u8],
    buffer: &mut [u8],
    trace: &mut [u8],
) -> usize {
    let mut holder = FadePattern::new();
    // A refused pattern leaves the fade as it is, without one.
    let _ = holder.prepare(pattern);
    let running = Running {
        pattern: holder,
        memory,
        script,
        buffer,
        trace,
    };
    on_terms(running, crc16, sync, fasb)
}
