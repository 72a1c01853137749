// The replies, written to the front of out. Document 01, "Opening" and "In a session". Each function gives the bytes written.
// The callers see to it that out has 128 bytes; no reply is longer than 75 bytes. As an array of 128 these would be lent as a part of out, and no proof closed
// of what out is then: it was tried of a row in a state (`put_row`, in the crate `state`).
ghost use Rattle.std.specs.Prelude.{◌≡◌, true, [], ◌≤◌, length};
ghost use Rattle.numbers.specs.Numbers.{bytes_be};
ghost use Rattle.frame.specs.Rules.{listed_service, info_fits};
ghost use Rattle.session.specs.Rows.{no_message_id};
ghost use Rattle.session.specs.Rules.{reply_version};
ghost use Rattle.payload.specs.Reply.{service_ack_payload};
ghost use Rattle.link.specs.Reply.{reply_bytes, start_ack, new_ack, granted_payload};
ghost use Rattle.headunit.specs.Unit.{sent, sent_of, rejection};

use figures::{command, frame_type, service};
use frame::{Header, MessageId, ServiceType, SessionId};
use payload::reply::Parameter;
use payload::version::Version;

// What the replies of one call share: whom they come from, with a version and a service that a frame may have.
#[derive(Clone, Copy)]
pub(crate) struct From {
    pub version: u8,
    pub service: ServiceType,
    pub session: SessionId,
    pub ghost least: { 1 ≤ version },
    pub ghost most: { version ≤ 5 },
    pub ghost listed: { listed_service service ≡ true },
}

impl From {
    // A reply with this payload.
    pub(crate) fn put(self, info: u8, message: MessageId, payload: &[u8], out: &mut [u8]) -> usize
        requires { (128 ≤ length out.old) × ((info_fits 0 info ≡ true) × (length payload.now ≤ 116)) }
        ensures { sent result out.new ≡ sent_of (reply_bytes self.version self.service info self.session message payload.now) out.old }
    {
        let header = Header {
            version: self.version,
            flag: false,
            kind: frame_type::CONTROL,
            service: self.service,
            info,
            session: self.session,
            size: payload.len() as u32,
            message,
        };
        frame::write(header, payload, out).unwrap()
    }

    // A Start's ACK below version 5: the raw hash.
    pub(crate) fn put_hash(self, message: MessageId, hash: u32, out: &mut [u8]) -> usize
        requires { 128 ≤ length out.old }
        ensures { sent result out.new ≡ sent_of (reply_bytes self.version self.service start_ack self.session message (bytes_be 4 hash)) out.old }
    {
        let mut raw = [0u8; 4];
        numbers::put_be4(&mut raw, 0, hash);
        self.put(command::START_ACK, message, &raw, out)
    }

    // A service's ACK in version 5: hashId and mtu.
    fn put_granted(self, message: MessageId, hash: u32, mtu: u32, out: &mut [u8]) -> usize
        requires { 128 ≤ length out.old }
        ensures { sent result out.new ≡ sent_of (reply_bytes self.version self.service start_ack self.session message (service_ack_payload hash mtu)) out.old }
    {
        let mut payload = [0u8; 64];
        let size = payload::reply::write_service_ack(hash, u64::from(mtu), &mut payload).unwrap();
        self.put(command::START_ACK, message, &payload[0..size], out)
    }

    // A service's ACK: hashId and mtu in version 5, below it the raw hash. `settled` is the session's version.
    #[tactic(auto, unfolding(link::specs::Reply::granted_payload))]
    pub(crate) fn put_started(
        self,
        settled: u8,
        message: MessageId,
        hash: u32,
        mtu: u32,
        out: &mut [u8],
    ) -> usize
        requires { 128 ≤ length out.old }
        ensures { sent result out.new ≡ sent_of (reply_bytes self.version self.service start_ack self.session message (granted_payload settled hash mtu)) out.old }
    {
        if settled == 5 {
            self.put_granted(message, hash, mtu, out)
        } else {
            self.put_hash(message, hash, out)
        }
    }

    // A NAK, which may name a parameter.
    pub(crate) fn put_nak(self, info: u8, rejected: Option<Parameter>, out: &mut [u8]) -> usize
        requires { (128 ≤ length out.old) × (info_fits 0 info ≡ true) }
        ensures { sent result out.new ≡ sent_of (reply_bytes self.version self.service info self.session no_message_id (rejection rejected)) out.old }
    {
        let Some(parameter) = rejected else {
            return self.put(info, MessageId(0), &[], out);
        };
        let mut payload = [0u8; 64];
        let size = payload::reply::write_nak(parameter, &mut payload).unwrap();
        self.put(info, MessageId(0), &payload[0..size], out)
    }
}

// The opening's ACK in version 5: hashId, mtu and protocolVersion. It is the session's first ACK.
pub(crate) fn put_opened(
    session: SessionId,
    hash: u32,
    mtu: u32,
    version: Version,
    out: &mut [u8],
) -> usize
    requires { (128 ≤ length out.old) × (1 ≤ version.major) }
    ensures { sent result out.new ≡ sent_of (new_ack session hash mtu version) out.old }
{
    let mut payload = [0u8; 64];
    let size = payload::reply::write_ack(hash, u64::from(mtu), version, &mut payload).unwrap();
    let from = From {
        version: 5,
        service: ServiceType(service::RPC),
        session,
    };
    from.put(command::START_ACK, MessageId(1), &payload[0..size], out)
}
