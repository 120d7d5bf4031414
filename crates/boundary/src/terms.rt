use checksum::checksum::Checksum;
use checksum::crc16::Crc16;
use checksum::none::NoChecksum;
use receiver::terms::Terms;
use service::choice::ServiceChoice;

/// What is to be done on terms that only the caller in C knows.
pub(crate) trait OnTerms {
    type Output;

    fn done<K: Checksum + Drop>(self, terms: Terms<K, ServiceChoice>) -> Self::Output;
}

/// Does it with CRC-16 or no checksum, for sync packets or plain ones. Which checksum it is belongs to the type of what is done, so
/// that it is chosen here and by no value.
pub(crate) fn on_terms<T: OnTerms>(task: T, crc16: bool, sync: bool, fasb: bool) -> T::Output {
    let service = if sync {
        ServiceChoice::Sync
    } else {
        ServiceChoice::Plain
    };
    if crc16 {
        task.done(Terms {
            checksum: Crc16,
            service,
            fasb,
        })
    } else {
        task.done(Terms {
            checksum: NoChecksum,
            service,
            fasb,
        })
    }
}
