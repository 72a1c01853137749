// The commands that need no link: a function for each makes one call and answers its text. A further command is one function more here, and its name and
// limits in the library `words`. `input` are the bytes that the line says. `out` is an untouched out buffer; the bytes that an answer spells stand at its front.
// It assumes nothing of the line. No rule of the protocol stands here.
ghost use Rattle.std.specs.Prelude.{◌≡◌, [], ◌∷◌};
ghost use Rattle.frame.specs.Read.{read_of};
ghost use Rattle.frame.specs.Write.{wrote};
ghost use Rattle.payload.specs.Walk.{payload_of};
ghost use Rattle.text.specs.Said.{Started, Longer};
ghost use Rattle.driver.specs.Spelling.{Holds, numbers_by};
ghost use Rattle.driver.specs.Answers.{header_numbers, frame_line, read_by, header_of, outgoing_of, wrote_by, written_line, filled_of, tag_text, version_text, tags_text, payload_text, plain_line, line_in, lent_out, answer_to};

use crate::{messages, output};
use figures::refusal::Refusal;
use frame::{Header, MessageId, Reading, ServiceType, SessionId};
use output::Line;
use payload::{Span, Tags};
use sender::Outgoing;
use text::Text;
use words::{Command, Kind};

// version flag type service info session size id
fn with_header(text: Text, header: Header) -> Text
    ensures { Longer text (numbers_by 32 (header_numbers header)) result }
{
    let mut after = text.number(b' ', header.version);
    after = after.number(b' ', u8::from(header.flag));
    after = after.number(b' ', header.kind);
    after = after.number(b' ', header.service.0);
    after = after.number(b' ', header.info);
    after = after.number(b' ', header.session.0);
    after = after.number(b' ', header.size);
    after.number(b' ', header.message.0)
}

// A frame whose payload of so many bytes stands at the front of the out buffer.
fn frame_text(header: Header, consumed: usize, size: usize) -> Text
    ensures { Holds (frame_line header consumed size) result }
{
    let text = with_header(Text::empty().byte(b'F'), header);
    text.number(b' ', consumed as u64).hex(size)
}

// read HEX
fn read(input: &[u8], out: &mut [u8]) -> Text
    ensures holds { Holds (read_by input.now out.old (read_of input.now)).line result }
    ensures out_after { out.new ≡ (read_by input.now out.old (read_of input.now)).out }
{
    let reading = frame::read(input);
    match reading {
        Reading::Frame(header, extent) => {
            let size = text::put(out, 0, frame::payload(input, extent));
            frame_text(header, extent.consumed, size)
        }
        Reading::Refused(refusal) => Text::refused(refusal),
        Reading::Short(needed) => Text::answer(b'S', needed),
    }
}

fn header_of(command: Command) -> Header
    ensures { result ≡ header_of command }
{
    Header {
        version: command.byte(0),
        flag: command.byte(1) == 1,
        kind: command.byte(2),
        service: ServiceType(command.byte(3)),
        info: command.byte(4),
        session: SessionId(command.byte(5)),
        size: command.wide(6),
        message: MessageId(command.wide(7)),
    }
}

fn outgoing_of(command: Command) -> Outgoing
    ensures { result ≡ outgoing_of command }
{
    Outgoing {
        version: command.byte(0),
        service: ServiceType(command.byte(1)),
        session: SessionId(command.byte(2)),
        message: MessageId(command.wide(3)),
        chunk: command.wide(4),
    }
}

// How many bytes a call wrote to `out`, CHECK of the whole of `out`, and the bytes written.
fn written_text(written: Result<usize, Refusal>, out: &[u8]) -> Text
    ensures { Holds (written_line written out.now) result }
{
    match written {
        Ok(count) => {
            let text = Text::answer(b'B', count);
            text.number(b' ', text::check(out)).hex(count)
        }
        Err(refusal) => Text::refused(refusal),
    }
}

// write version flag type service info session size id OUTLEN HEX
// send version service session id chunk k OUTLEN HEX
// rpcwrite FORM version type function correlation size OUTLEN JSON BULK
fn write(command: Command, input: &[u8], out: &mut [u8]) -> Result<usize, Refusal>
    ensures { wrote result out.new ≡ wrote_by command input.now out.old }
{
    match command.kind {
        Kind::Write => frame::write(header_of(command), input, out),
        Kind::RpcWrite => messages::write(command, input, out),
        _ => sender::send(outgoing_of(command), command.wide(5), input, out),
    }
}

// A name and a tag's number, or `-` where it is absent.
fn with_tag(text: Text, name: &[u8], value: Option<u64>) -> Text
    ensures { Longer text (tag_text name.now value) result }
{
    let named = text.put(name);
    match value {
        Some(number) => named.decimal(number),
        None => named.byte(b'-'),
    }
}

// The version string's bytes, which may be none, or `-` where it is absent.
fn version_text(version: Option<Span>, input: &[u8]) -> Text
    ensures { Started (version_text version input.now) result }
{
    let named = Text::empty().put(b"T version=");
    match version {
        Some(span) => named.digits(text::part(input, span.at, span.length)),
        None => named.byte(b'-'),
    }
}

// The tags behind the version.
fn with_tags(text: Text, tags: Tags) -> Text
    ensures { Longer text (tags_text tags) result }
{
    let mut after = with_tag(text, b" hash=", tags.hash.map(u64::from));
    after = with_tag(after, b" mtu=", tags.mtu);
    with_tag(after, b" rejected=", tags.rejected.is_some().then_some(1))
}

// payload HEX
fn read_payload(input: &[u8]) -> Text
    ensures { Started (payload_text input.now (payload_of input.now)) result }
{
    match payload::read(input) {
        Ok(tags) => with_tags(version_text(tags.version, input), tags),
        Err(refusal) => Text::refused(refusal),
    }
}

// The answer to a command whose call takes an out buffer.
#[tactic(auto, unfolding(crate::specs::Answers::filled_of))]
fn filled_text(command: Command, input: &[u8], out: &mut [u8]) -> Text
    ensures holds { Holds (filled_of command input.now out.old).line result }
    ensures out_after { out.new ≡ (filled_of command input.now out.old).out }
{
    match command.kind {
        Kind::Read => read(input, out),
        _ => {
            let written = write(command, input, out);
            written_text(written, out)
        }
    }
}

// Carries out a command that fills an out buffer, and spells its answer.
fn fill_into(command: Command, input: &[u8], out: &mut [u8], line: &mut Line)
    ensures { line.new ≡ line_in (filled_of command input.now out.old) }
{
    let text = filled_text(command, input, out);
    line.lay(text, out);
}

// The same with an untouched out buffer.
fn fill(command: Command, input: &[u8], line: &mut Line)
    ensures { line.new ≡ line_in (filled_of command input.now (lent_out command)) }
{
    let mut out = output::untouched();
    let lent = (command.lent as usize).min(output::OUTLEN);
    fill_into(command, input, &mut out[..lent], line);
}

// The answer to a payload. This one and the next stay functions of their own: put into the one that calls them, the characters of their texts would be cleared
// for each line, also for one that gets no answer.
#[inline(never)]
fn lay_payload(input: &[u8], line: &mut Line)
    ensures { line.new ≡ plain_line (payload_text input.now (payload_of input.now)) }
{
    line.lay_plain(read_payload(input));
}

// The answer to what is no command, or none without a link.
#[inline(never)]
fn lay_unreadable(line: &mut Line)
    ensures { line.new ≡ plain_line (63 ∷ []) }
{
    line.lay_plain(Text::empty().byte(b'?'));
}

// Carries out a command, and spells its answer.
#[tactic(auto, unfolding(crate::specs::Answers::answer_to))]
pub fn obey(command: Command, input: &[u8], line: &mut Line)
    ensures { line.new ≡ answer_to command input.now }
{
    match command.kind {
        Kind::Silent => line.clear(),
        Kind::Payload => lay_payload(input, line),
        Kind::Rpc => messages::read(command, input, line),
        Kind::Read | Kind::Write | Kind::Send | Kind::RpcWrite => fill(command, input, line),
        Kind::Unreadable | Kind::New | Kind::Call => lay_unreadable(line),
    }
}
