// The message sender for C, so that a phone can be played: numbers and lent bytes in; a status, a value and a frame's bytes out.
ghost use Rattle.std.specs.Prelude.{◌≡◌};
ghost use Rattle.tilambok.specs.Status.{left};
ghost use Rattle.tilambok.specs.Sending.{outgoing_from, tilambok_send};

use crate::status;
use frame::{MessageId, ServiceType, SessionId};
use sender::Outgoing;

// What all frames of a caller's message share.
fn outgoing_from(version: u8, service: u8, session: u8, id: u32, chunk: u32) -> Outgoing
    ensures { result ≡ outgoing_from version service session id chunk }
{
    Outgoing {
        version,
        service: ServiceType(service),
        session: SessionId(session),
        message: MessageId(id),
        chunk,
    }
}

// The k-th frame of a message, counted from 0, to the front of out.
#[unsafe(no_mangle)]
pub extern "C" fn tilambok_send(
    version: u8,
    service: u8,
    session: u8,
    id: u32,
    chunk: u32,
    k: u32,
    message: &[u8],
    out: &mut [u8],
    value: &mut u32,
) -> u32
    ensures { left result out.new value.new ≡ tilambok_send (outgoing_from version service session id chunk) k message.now out.old value.old }
{
    let outgoing = outgoing_from(version, service, session, id, chunk);
    status::written(sender::send(outgoing, k, message, out), value)
}
