// The control payloads that the module writes: document 01, "Opening" and "In a session".
// Each is one document of bsonspec.org, element by element.
ghost use Rattle.std.specs.Prelude.{◌≡◌, ◌+◌, ◌≤◌, ◌++◌, length};
ghost use Rattle.numbers.specs.Numbers.{bytes_le};
ghost use Rattle.payload.specs.Append.{wrote, put_of};
ghost use Rattle.payload.specs.Tags.{protocol_version};
ghost use Rattle.payload.specs.Version.{version_text};
ghost use Rattle.payload.specs.Reply.{element_head, document, string_element, grant_elements, name_of, service_ack_payload, nak_payload, write_ack_of};

use crate::draft::{Draft, ROOM};
use crate::kind::Kind;
use crate::version::{self, Version};
use figures::refusal::{self, Refusal};

// The parameters that a NAK may name.
#[derive(Clone, Copy, Debug, PartialEq, Eq)]
pub enum Parameter {
    ProtocolVersion,
    HashId,
}

// What every ACK with a payload begins with, its numbers 0: the document's length, hashId (an int32) and mtu (an int64), 29 bytes. Whole, and not element by
// element, since a draft whose places are all known stays in registers.
const GRANT: [u8; ROOM] =
    *b"\0\0\0\0\x10hashId\0\0\0\0\0\x12mtu\0\0\0\0\0\0\0\0\0\0\0\0\0\0\0\0\0\0\0\0\0\0\0\0\0\0\0\0\0\0\0\0\0\0\0\0\0\0\0\0\0\0\0\0";

impl Draft {
    // An element's type and key.
    fn head(&mut self, kind: Kind, key: &[u8])
        requires { length self.old + (length key.now + 2) ≤ ROOM }
        ensures value { self.new ≡ self.old ++ element_head kind key.now }
        ensures len { length self.new ≡ length self.old + (length key.now + 2) }
    {
        self.byte(kind.number());
        self.bytes(key);
        self.byte(0);
    }

    // A string; its length counts its last 0.
    fn string(&mut self, key: &[u8], text: &[u8])
        requires { length self.old + (length key.now + length text.now + 7) ≤ ROOM }
        ensures value { self.new ≡ self.old ++ string_element key.now text.now }
        ensures len { length self.new ≡ length self.old + (length key.now + length text.now + 7) }
    {
        self.head(Kind::STRING, key);
        self.number(text.len() as u32 + 1);
        self.bytes(text);
        self.byte(0);
    }

    // The document's length, hashId and mtu, each number as its bits.
    fn grant(size: u32, hash: u32, mtu: u64) -> Self
        ensures value { result ≡ bytes_le 4 size ++ grant_elements hash mtu }
        ensures len { length result ≡ 29 }
    {
        let mut bytes = GRANT;
        numbers::put_le(&mut bytes, 0, size);
        numbers::put_le(&mut bytes, 12, hash);
        numbers::put_le(&mut bytes, 21, mtu);
        Draft::of(bytes, 29)
    }

    // protocolVersion: a version's string.
    fn protocol_version(&mut self, version: Version)
        requires { length self.old + 33 ≤ ROOM }
        ensures value { self.new ≡ self.old ++ string_element protocol_version (version_text version) }
        ensures bound { length self.new ≤ length self.old + 33 }
    {
        self.head(Kind::STRING, b"protocolVersion");
        self.number(version::size(version) as u32 + 1);
        self.version(version);
        self.byte(0);
    }

    // A document around its elements; its length counts all of it.
    fn document(&mut self, elements: &[u8])
        requires { length self.old + (length elements.now + 5) ≤ ROOM }
        ensures value { self.new ≡ self.old ++ document elements.now }
        ensures len { length self.new ≡ length self.old + (length elements.now + 5) }
    {
        self.number(5 + elements.len() as u32);
        self.bytes(elements);
        self.byte(0);
    }
}

// The payload of these elements to the front of out.
fn write(elements: &Draft, out: &mut [u8]) -> Result<usize, Refusal>
    requires { length elements.now + 5 ≤ ROOM }
    ensures { wrote result out.new ≡ put_of (document elements.now) out.old }
{
    let mut payload = Draft::new();
    payload.document(elements.as_slice());
    payload.write(out)
}

// The payload of the opening's ACK in version 5: hashId, mtu, protocolVersion. No string says a major of 0.
pub fn write_ack(hash: u32, mtu: u64, version: Version, out: &mut [u8]) -> Result<usize, Refusal>
    ensures { wrote result out.new ≡ write_ack_of hash mtu version out.old }
{
    // as in lib.rt, a name of its own for what is judged
    let unsaid = version.major < 1;
    if unsaid {
        return Err(refusal::BAD_SETTINGS);
    }
    let end = version::size(version) + 52;
    if out.len() < end {
        return Err(refusal::TOO_SMALL);
    }
    let mut payload = Draft::grant(end as u32, hash, mtu);
    payload.protocol_version(version);
    payload.byte(0);
    payload.write(out)
}

// The payload of a service's ACK in version 5: hashId, mtu.
pub fn write_service_ack(hash: u32, mtu: u64, out: &mut [u8]) -> Result<usize, Refusal>
    ensures { wrote result out.new ≡ put_of (service_ack_payload hash mtu) out.old }
{
    let end = 30;
    if out.len() < end {
        return Err(refusal::TOO_SMALL);
    }
    let mut payload = Draft::grant(end as u32, hash, mtu);
    payload.byte(0);
    payload.write(out)
}

// A payload with rejectedParams alone: an array of one name.
fn write_rejected(name: &[u8], out: &mut [u8]) -> Result<usize, Refusal>
    requires { length name.now ≤ 15 }
    ensures { wrote result out.new ≡ put_of (nak_payload name.now) out.old }
{
    let mut names = Draft::new();
    names.string(b"0", name);
    let mut elements = Draft::new();
    elements.head(Kind::ARRAY, b"rejectedParams");
    elements.document(names.as_slice());
    write(&elements, out)
}

// The payload of a NAK that names a parameter.
pub fn write_nak(parameter: Parameter, out: &mut [u8]) -> Result<usize, Refusal>
    ensures { wrote result out.new ≡ put_of (nak_payload (name_of parameter)) out.old }
{
    match parameter {
        Parameter::ProtocolVersion => write_rejected(b"protocolVersion", out),
        Parameter::HashId => write_rejected(b"hashId", out),
    }
}
