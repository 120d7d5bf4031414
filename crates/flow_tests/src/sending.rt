ghost use Rattle.std.specs.Prelude.{◌≡◌, true};
ghost use Rattle.flow.specs.Writing.{state_of};

use crate::draft::packet;
use channel::channel::Channel;
use checksum::checksum::Checksum;
use flow::faults::{CloseFault, OpenFault};
use flow::flow::Flow;
use flow::token::SuperframeToken;
use service::service::Service;

/// Closes the superframe of this token, which is never refused.
pub(crate) fn close<C: Channel, K: Checksum, S: Service>(
    flow: &mut Flow<C, K, S>,
    token: SuperframeToken,
)
    requires { ((state_of flow.old.writer).opened ≡ true) × (token.flow ≡ flow.old.id) }
{
    match flow.closing(token) {
        Ok(()) => {}
        Err(CloseFault::WrongToken(_held)) => unreachable!(),
    }
}

/// Sends one superframe of `n` frames with packets of these lengths. `answers` gets the number by which each offer was refused,
/// or none.
pub(crate) fn send<C: Channel, K: Checksum, S: Service>(
    flow: &mut Flow<C, K, S>,
    n: usize,
    data: &[u8],
    lens: &[usize],
    answers: &mut Vec<Option<u8>>,
) -> Result<(), OpenFault> {
    let mut token = flow.opening(n)?;
    for len in lens {
        let (back, answer) = flow.offer(token, packet(data, *len));
        token = back;
        // The token in hand, which must be closed, lets no `?` leave here: an answer that found no memory is missing from the list.
        let _ = answers.push(answer.err().map(|fault| fault.number()));
    }
    close(flow, token);
    Ok(())
}
