// The commands `rpc` and `rpcwrite`: what is inside joined messages. `input` are the bytes that the line says.
// It assumes nothing of the line. No rule of the protocol stands here.
ghost use Rattle.std.specs.Prelude.{◌≡◌};
ghost use Rattle.frame.specs.Write.{wrote};
ghost use Rattle.rpc.specs.Layout.{fields_of};
ghost use Rattle.text.specs.Said.{Started};
ghost use Rattle.driver.specs.Answers.{form_at, fields_at, message_header, fields_text, bare_text, rpc_wrote_by, rpc_answer};

use crate::output::Line;
use figures::refusal::Refusal;
use rpc::{Content, Fields, Form, Header};
use text::Text;
use words::Command;

// The form that the line names, by the number that `words` gives its name. C's numbers of the forms are the C interface's own (tilambok).
fn form_of(command: Command) -> Form
    ensures { result ≡ form_at command }
{
    match command.byte(0) {
        0 => Form::Rpc,
        1 => Form::Bulk,
        _ => Form::Query,
    }
}

// Type, function id and correlation id; for a query its type, id and sequence number.
fn fields_of(command: Command) -> Fields
    ensures { result ≡ fields_at command }
{
    Fields {
        kind: command.byte(2),
        id: command.wide(3),
        number: command.wide(4),
        size: command.wide(5),
    }
}

fn header_of(command: Command) -> Header
    ensures { result ≡ message_header command }
{
    rpc::header_of(form_of(command), fields_of(command))
}

// P type function correlation size
fn fields_text(fields: Fields) -> Text
    ensures { Started (fields_text fields) result }
{
    let text = Text::empty().byte(b'P').number(b' ', fields.kind);
    text.number(b' ', fields.id)
        .number(b' ', fields.number)
        .number(b' ', fields.size)
}

fn message_text(header: Header, size: u32) -> Text
    ensures { Started (fields_text (fields_of header size)) result }
{
    fields_text(rpc::fields_of(header, size))
}

// Where there is no header.
fn bare_text() -> Text
    ensures { Started bare_text result }
{
    Text::empty().put(b"P - - - -")
}

// rpc FORM version HEX
pub fn read(command: Command, input: &[u8], line: &mut Line)
    ensures { line.new ≡ rpc_answer command input.now }
{
    match rpc::read(form_of(command), command.byte(1), input) {
        Ok(Content::Message(header, size, parts)) => line.lay_parts(
            message_text(header, size),
            input,
            parts,
        ),
        Ok(Content::Bare(parts)) => line.lay_parts(bare_text(), input, parts),
        Err(refusal) => line.lay_plain(Text::refused(refusal)),
    }
}

// rpcwrite FORM version type function correlation size OUTLEN JSON BULK
pub fn write(command: Command, input: &[u8], out: &mut [u8]) -> Result<usize, Refusal>
    ensures { wrote result out.new ≡ rpc_wrote_by command input.now out.old }
{
    let json = text::front(input, command.first);
    let bulk = text::part(input, command.first, input.len());
    rpc::write(
        command.byte(1),
        header_of(command),
        command.wide(5),
        json,
        bulk,
        out,
    )
}
