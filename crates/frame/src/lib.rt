// Frames: the header, the reader and the writers. Document 01, "Frame layout".
// It knows no session and keeps no state: bytes and values in, bytes and values out.
#![tactic(auto)]

ghost use Rattle.std.specs.Prelude.{◌≡◌, ◌-◌, ◌≤◌, length, IfErr};
ghost use Rattle.figures.specs.Refusal.{refusal_in};
ghost use Rattle.numbers.specs.Bytes.{part, laid};
ghost use Rattle.frame.specs.Rules.{known_version, listed_service, info_fits, flag_fits, largest, size_fits, fault_of, header_size};
ghost use Rattle.frame.specs.Read.{front_of, message_of, read_of};
ghost use Rattle.frame.specs.Write.{header_bytes, wrote, write_header_of, write_of};
ghost use Rattle.frame.specs.Message.{frame_number, totals_fit};

use figures::refusal::{self, Refusal};
use figures::{frame_type, service};

// Three kinds of number that are never exchanged by mistake. A service is a number too: any byte can stand in a header, and those not listed are refused.
#[derive(Clone, Copy, Default, PartialEq, Eq)]
pub struct SessionId(pub u8);

#[derive(Clone, Copy, PartialEq, Eq)]
pub struct ServiceType(pub u8);

#[derive(Clone, Copy, Default, PartialEq, Eq)]
pub struct MessageId(pub u32);

// A frame's header. A version 1 header has no message id; it reads as 0.
#[derive(Clone, Copy, PartialEq, Eq)]
pub struct Header {
    // a number, and so is the frame type: the writers promise refusals 1 and 2 for values that an enum would not have (fault_of)
    pub version: u8,
    // the encryption flag
    pub flag: bool,
    // the frame type (figures::frame_type)
    pub kind: u8,
    pub service: ServiceType,
    // the frame info: a control frame's command, a consecutive frame's number
    pub info: u8,
    pub session: SessionId,
    // the data size: bytes of payload
    pub size: u32,
    pub message: MessageId,
}

// Where a frame lies in the bytes that were read: its payload part, and how many bytes it takes in all.
#[derive(Clone, Copy, PartialEq, Eq)]
pub struct Extent {
    pub start: usize,
    pub end: usize,
    pub consumed: usize,
}

// What the front of some bytes is: a frame, a refusal 1 to 6, or too short, with the bytes needed in all. Three answers that callers tell apart,
// so no Option and no Result: who is short reads on, who is refused does not.
#[derive(Clone, Copy)]
pub enum Reading {
    Frame(Header, Extent),
    Refused(Refusal),
    Short(usize),
}

#[tactic(auto, unfolding(crate::specs::Rules::known_version))]
pub fn known_version(version: u8) -> bool
    ensures { result ≡ known_version version }
{
    matches!(version, 1..=5)
}

#[tactic(auto, unfolding(crate::specs::Rules::listed_service))]
pub fn listed_service(service: ServiceType) -> bool
    ensures { result ≡ listed_service service }
{
    service::ALL.contains(&service.0)
}

#[tactic(auto, unfolding(crate::specs::Rules::info_fits))]
fn info_fits(kind: u8, info: u8) -> bool
    ensures { result ≡ info_fits kind info }
{
    kind != frame_type::CONTROL || matches!(info, 0..=9 | 253..=255)
}

#[tactic(auto, unfolding(crate::specs::Rules::flag_fits))]
fn flag_fits(version: u8, kind: u8, flag: bool) -> bool
    ensures { result ≡ flag_fits version kind flag }
{
    !(flag && (version == 1 || kind == frame_type::FIRST))
}

// The largest data size of a version.
#[tactic(auto, unfolding(crate::specs::Rules::largest))]
pub fn largest_size(version: u8) -> u32
    ensures { result ≡ largest version }
{
    if version <= 2 { 1488 } else { 131072 }
}

#[tactic(auto, unfolding(crate::specs::Rules::size_fits, crate::specs::Rules::largest))]
fn size_fits(version: u8, kind: u8, size: u32) -> bool
    ensures { result ≡ size_fits version kind size }
{
    match kind {
        frame_type::FIRST => size == 8,
        frame_type::CONSECUTIVE => 0 < size && size <= largest_size(version),
        _ => size <= largest_size(version),
    }
}

// The lowest of the refusals 1 to 6 that a header earns.
#[tactic(auto, unfolding(crate::specs::Rules::fault_of))]
pub fn fault(header: Header) -> Result<(), Refusal>
    ensures lowest { refusal_in result ≡ fault_of header }
    ensures numbered { IfErr result (λ number. 1 ≤ number) }
{
    if !known_version(header.version) {
        return Err(refusal::BAD_VERSION);
    }
    if frame_type::CONSECUTIVE < header.kind {
        return Err(refusal::BAD_FRAME_TYPE);
    }
    if !listed_service(header.service) {
        return Err(refusal::BAD_SERVICE);
    }
    if !info_fits(header.kind, header.info) {
        return Err(refusal::BAD_CONTROL_INFO);
    }
    if !flag_fits(header.version, header.kind, header.flag) {
        return Err(refusal::BAD_FLAG);
    }
    if !size_fits(header.version, header.kind, header.size) {
        return Err(refusal::BAD_SIZE);
    }
    Ok(())
}

// 8 bytes in version 1, which has no message id, else 12.
#[tactic(auto, unfolding(crate::specs::Rules::header_size))]
pub fn header_size(version: u8) -> usize
    ensures { result ≡ header_size version }
{
    if version == 1 { 8 } else { 12 }
}

// The header as its first 8 bytes tell it, with message id 0.
#[tactic(auto, unfolding(crate::specs::Read::front_of))]
fn front(bytes: &[u8]) -> Header
    requires { 8 ≤ length bytes.now }
    ensures { result ≡ front_of bytes.now }
{
    let first = bytes[0];
    Header {
        version: first / 16,
        flag: 8 <= first % 16,
        kind: first % 8,
        service: ServiceType(bytes[1]),
        info: bytes[2],
        session: SessionId(bytes[3]),
        size: numbers::be4(bytes, 4),
        message: MessageId(0),
    }
}

// The message id of a header that is there whole: its four bytes are lent alone, so that they are read with no test of the length.
#[tactic(auto, unfolding(crate::specs::Read::message_of, crate::specs::Rules::header_size))]
fn message_id(bytes: &[u8], version: u8) -> MessageId
    requires { header_size version ≤ length bytes.now }
    ensures { result ≡ message_of bytes.now version }
{
    if version == 1 {
        return MessageId(0);
    }
    MessageId(numbers::be4(&bytes[8..12], 0))
}

// What stands at the front of `bytes`. What follows the frame is not looked at.
#[tactic(auto, unfolding(crate::specs::Read::read_of, crate::specs::Rules::header_size))]
pub fn read(bytes: &[u8]) -> Reading
    ensures { result ≡ read_of bytes.now }
{
    if bytes.len() < 8 {
        return Reading::Short(8);
    }
    let mut header = front(bytes);
    if let Err(refusal) = fault(header) {
        return Reading::Refused(refusal);
    }
    let start = header_size(header.version);
    let end = start + header.size as usize;
    if bytes.len() < end {
        return Reading::Short(end);
    }
    header.message = message_id(bytes, header.version);
    Reading::Frame(
        header,
        Extent {
            start,
            end,
            consumed: end,
        },
    )
}

// The payload part of the bytes that were read.
pub fn payload(bytes: &[u8], extent: Extent) -> &[u8]
    ensures { result.now ≡ part bytes.now extent.start (extent.end - extent.start) }
{
    let end = extent.end.min(bytes.len());
    let start = extent.start.min(end);
    &bytes[start..end]
}

// The header's bytes to the front of out. The message id's four are lent alone, so that they are written with no test of the length.
fn put_header(header: Header, out: &mut [u8])
    requires { (fault_of header ≡ 0) × (header_size header.version ≤ length out.old) }
    ensures { out.new ≡ laid (header_bytes header) out.old }
{
    out[0] = header.version * 16 + u8::from(header.flag) * 8 + header.kind;
    out[1] = header.service.0;
    out[2] = header.info;
    out[3] = header.session.0;
    numbers::put_be4(out, 4, header.size);
    if header.version == 1 {
        return;
    }
    numbers::put_be4(&mut out[8..12], 0, header.message.0);
}

// A header alone, to the front of out.
#[tactic(auto, using(crate::proofs::Laws::header_length), unfolding(crate::specs::Write::write_header_of, crate::specs::Rules::header_size))]
pub fn write_header(header: Header, out: &mut [u8]) -> Result<usize, Refusal>
    ensures { wrote result out.new ≡ write_header_of header out.old }
{
    fault(header)?;
    let size = header_size(header.version);
    if out.len() < size {
        return Err(refusal::TOO_SMALL);
    }
    put_header(header, out);
    Ok(size)
}

// A frame, header and payload, to the front of out.
#[tactic(auto, using(crate::proofs::Laws::frame_length), unfolding(crate::specs::Write::write_of, crate::specs::Rules::header_size))]
pub fn write(header: Header, payload: &[u8], out: &mut [u8]) -> Result<usize, Refusal>
    ensures { wrote result out.new ≡ write_of header payload.now out.old }
{
    fault(header)?;
    if header.size as usize != payload.len() {
        return Err(refusal::BAD_SIZE);
    }
    let start = header_size(header.version);
    let end = start + payload.len();
    if out.len() < end {
        return Err(refusal::TOO_SMALL);
    }
    put_header(header, out);
    numbers::copy(payload, &mut out[start..end]);
    Ok(end)
}

// The frame number of the consecutive frame at a place, from 1 to count: after 255 comes 1 again.
#[tactic(auto, unfolding(crate::specs::Message::frame_number))]
pub fn frame_number(place: usize, count: usize) -> usize
    ensures { result ≡ frame_number place count }
{
    if place == count {
        return 0;
    }
    place.saturating_sub(1) % 255 + 1
}

// Whether a First Frame may announce so many bytes in so many frames.
#[tactic(auto, unfolding(crate::specs::Message::totals_fit))]
pub fn totals_fit(total: usize, count: usize) -> bool
    ensures { result ≡ totals_fit total count }
{
    (1..=65536).contains(&total) && (1..=total).contains(&count)
}
