// The frame reader and the frame writers for C: numbers and lent bytes in; a status, a value and bytes out.
ghost use Rattle.std.specs.Prelude.{◌≡◌, ◌≤◌, length};
ghost use Rattle.numbers.specs.Bytes.{laid, put_at};
ghost use Rattle.numbers.specs.Numbers.{bytes_be};
ghost use Rattle.frame.specs.Rules.{header_size};
ghost use Rattle.frame.specs.Read.{front_of, message_of, with_message};
ghost use Rattle.tilambok.specs.Status.{result_of, left};
ghost use Rattle.tilambok.specs.Frames.{reading_result, ReadingFits, field_bytes, header_from, tilambok_read_frame, tilambok_write_header, tilambok_write_frame};

use crate::status;
use figures::refusal;
use frame::{Header, MessageId, Reading, ServiceType, SessionId};

// How many bytes tell a frame's header and where its payload starts.
const FIELDS: usize = 16;

// The reader's answer: done with the bytes consumed, refused, or Short with the bytes needed in all.
fn reading_status(reading: Reading, value: &mut u32) -> u32
    requires { ReadingFits reading }
    ensures { result_of result value.new ≡ reading_result value.old reading }
{
    match reading {
        Reading::Frame(_, extent) => status::done(extent.consumed as u32, value),
        Reading::Refused(refusal) => status::refused(refusal),
        Reading::Short(needed) => status::short(needed as u32, value),
    }
}

// The message id's four bytes as they stand in the frame, or 0 where it has none.
fn put_message(bytes: &[u8], header: Header, fields: &mut [u8])
    requires { (header_size header.version ≤ length bytes.now) × (header.message ≡ message_of bytes.now header.version) }
    ensures { fields.new ≡ put_at fields.old 12 4 (bytes_be 4 header.message.0) }
{
    if header.version == 1 {
        numbers::put_be4(fields, 12, 0);
        return;
    }
    numbers::put_be4(fields, 12, numbers::be4(&bytes[8..12], 0));
}

// The fields of a frame whose payload starts at start, to the front of fields. What is in the bytes as it stands is copied from them and not from the
// header, and the numbers come first: so the compiler moves each number at once, turns none around and keeps no byte of the header for it.
fn put_fields(bytes: &[u8], header: Header, start: u8, fields: &mut [u8])
    requires { (8 ≤ length bytes.now) × ((16 ≤ length fields.old) × ((header_size header.version ≤ length bytes.now) × (header ≡ with_message (front_of bytes.now) (message_of bytes.now header.version)))) }
    ensures { fields.new ≡ laid (field_bytes header start) fields.old }
{
    put_message(bytes, header, fields);
    numbers::put_be4(fields, 8, numbers::be4(bytes, 4));
    fields[0] = header.version;
    fields[1] = u8::from(header.flag);
    fields[2] = header.kind;
    fields[3] = bytes[1];
    fields[4] = bytes[2];
    fields[5] = bytes[3];
    fields[6] = start;
    fields[7] = 0;
}

// The header that a caller's numbers describe.
fn header_from(
    version: u8,
    flag: u8,
    kind: u8,
    service: u8,
    info: u8,
    session: u8,
    size: u32,
    message: u32,
) -> Header
    ensures { result ≡ header_from version flag kind service info session size message }
{
    Header {
        version,
        flag: flag != 0,
        kind,
        service: ServiceType(service),
        info,
        session: SessionId(session),
        size,
        message: MessageId(message),
    }
}

// What stands at the front of bytes; a frame's fields go to the front of fields.
#[unsafe(no_mangle)]
pub extern "C" fn tilambok_read_frame(bytes: &[u8], fields: &mut [u8], value: &mut u32) -> u32
    ensures { left result fields.new value.new ≡ tilambok_read_frame bytes.now fields.old value.old }
{
    let reading = frame::read(bytes);
    let Reading::Frame(header, extent) = reading else {
        return reading_status(reading, value);
    };
    if fields.len() < FIELDS {
        return status::refused(refusal::TOO_SMALL);
    }
    // Stored behind the fields, the value would share one store with that of Short, a jump away.
    let done = status::done(extent.consumed as u32, value);
    put_fields(bytes, header, extent.start as u8, fields);
    done
}

// A header alone, to the front of out.
#[unsafe(no_mangle)]
pub extern "C" fn tilambok_write_header(
    version: u8,
    flag: u8,
    kind: u8,
    service: u8,
    info: u8,
    session: u8,
    size: u32,
    message: u32,
    out: &mut [u8],
    value: &mut u32,
) -> u32
    ensures { left result out.new value.new ≡ tilambok_write_header (header_from version flag kind service info session size message) out.old value.old }
{
    let header = header_from(version, flag, kind, service, info, session, size, message);
    status::written(frame::write_header(header, out), value)
}

// A frame, header and payload, to the front of out.
#[unsafe(no_mangle)]
pub extern "C" fn tilambok_write_frame(
    version: u8,
    flag: u8,
    kind: u8,
    service: u8,
    info: u8,
    session: u8,
    size: u32,
    message: u32,
    payload: &[u8],
    out: &mut [u8],
    value: &mut u32,
) -> u32
    ensures { left result out.new value.new ≡ tilambok_write_frame (header_from version flag kind service info session size message) payload.now out.old value.old }
{
    let header = header_from(version, flag, kind, service, info, session, size, message);
    status::written(frame::write(header, payload, out), value)
}
