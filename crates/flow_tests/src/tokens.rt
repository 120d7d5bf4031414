use crate::sending::close;
use channel::channel::Channel;
use channel::ring::Ring;
use checksum::checksum::Checksum;
use checksum::none::NoChecksum;
use flow::faults::CloseFault;
use flow::flow::Flow;
use receiver::terms::Terms;
use service::plain::Plain;
use service::service::Service;

/// Opens a superframe of one flow, offers a packet to the other with its token, tries to close the other with it, and
/// closes. Gives the numbers of the three refusals, where there are any.
fn mistaken<C: Channel, K: Checksum, S: Service>(
    own: &mut Flow<C, K, S>,
    other: &mut Flow<C, K, S>,
) -> [Option<u8>; 3] {
    let token = match own.opening(1) {
        Ok(token) => token,
        Err(fault) => return [Some(fault.number()), None, None],
    };
    let (token, answer) = other.offer(token, &[1]);
    let offered = answer.err().map(|fault| fault.number());
    match other.closing(token) {
        Ok(()) => [None, offered, None],
        Err(fault) => {
            let number = fault.number();
            let CloseFault::WrongToken(token) = fault;
            close(own, token);
            [None, offered, Some(number)]
        }
    }
}

/// A token of another flow is refused by 4, and comes back.
#[test]
fn of_another_flow(rt: HostRuntime) {
    let mut memory = [0; 369];
    let mut more = [0; 369];
    let terms = Terms {
        checksum: NoChecksum,
        service: Plain,
        fasb: false,
    };
    let mut own = Flow::new(Ring::new(&mut memory), terms, 1);
    let mut other = Flow::new(Ring::new(&mut more), terms, 2);
    let answers = mistaken(&mut own, &mut other);
    let own = own.into_channel();
    let other = other.into_channel();
    assert_eq!(rt; answers, [None, Some(4), Some(4)]);
    assert!(rt; own.room() == 1 && other.room() == 3);
}
