// The RPC payloads for C: numbers and lent bytes in; a status, a value and bytes out. Document 02, request A1: "A crate for the RPC smoke tester."
ghost use Rattle.std.specs.Prelude.{◌≡◌, ◌≤◌, length};
ghost use Rattle.numbers.specs.Bytes.{laid};
ghost use Rattle.rpc.specs.Layout.{header_of};
ghost use Rattle.tilambok.specs.Status.{result_of, left};
ghost use Rattle.tilambok.specs.Payloads.{form_from, form_result, fields_from, field_bytes, no_fields, told, read_in, start, write_in, tilambok_read_rpc, tilambok_write_rpc, tilambok_rpc_form};

use crate::status;
use figures::refusal;
use frame::ServiceType;
use rpc::{Content, Fields, Form, Header};

// How many bytes tell a header and where the JSON begins.
const FIELDS: usize = 16;

// The form that a caller's number names: the numbers are the C interface's.
#[tactic(auto, unfolding(crate::specs::Payloads::form_from))]
fn form_from(number: u8) -> Option<Form>
    ensures { result ≡ form_from number }
{
    match number {
        0 => Some(Form::Rpc),
        1 => Some(Form::Bulk),
        2 => Some(Form::Query),
        _ => None,
    }
}

// The number of a form; a form that there is not is a setting out of range.
fn form_status(carried: Option<Form>, value: &mut u32) -> u32
    ensures { result_of result value.new ≡ form_result value.old carried }
{
    match carried {
        Some(Form::Rpc) => status::done(0, value),
        Some(Form::Bulk) => status::done(1, value),
        Some(Form::Query) => status::done(2, value),
        None => status::refused(refusal::BAD_SETTINGS),
    }
}

// The form that the messages of a service have.
#[unsafe(no_mangle)]
pub extern "C" fn tilambok_rpc_form(service: u8, value: &mut u32) -> u32
    ensures { result_of result value.new ≡ tilambok_rpc_form service value.old }
{
    form_status(rpc::form_of(ServiceType(service)), value)
}

// The fields of a payload to the front of fields: whether it has a header, its type, where the JSON begins, and the header's numbers.
fn put_fields(headed: u8, begins: u8, f: Fields, fields: &mut [u8])
    requires { 16 ≤ length fields.old }
    ensures { fields.new ≡ laid (field_bytes headed begins f) fields.old }
{
    fields[0] = headed;
    fields[1] = f.kind;
    fields[2] = begins;
    fields[3] = 0;
    numbers::put_be4(fields, 4, f.id);
    numbers::put_be4(fields, 8, f.number);
    numbers::put_be4(fields, 12, f.size);
}

// The same where there is room, and the call's result.
fn tell(headed: u8, begins: u8, f: Fields, fields: &mut [u8], value: &mut u32) -> u32
    ensures { left result fields.new value.new ≡ told headed begins f fields.old value.old }
{
    if fields.len() < FIELDS {
        return status::refused(refusal::TOO_SMALL);
    }
    let done = status::done(u32::from(begins), value);
    put_fields(headed, begins, f, fields);
    done
}

// The fields of a payload without a header are 0.
fn no_fields() -> Fields
    ensures { result ≡ no_fields }
{
    Fields {
        kind: 0,
        id: 0,
        number: 0,
        size: 0,
    }
}

// A payload in this form.
fn read_in(form: Form, version: u8, payload: &[u8], fields: &mut [u8], value: &mut u32) -> u32
    ensures { left result fields.new value.new ≡ read_in form version payload.now fields.old value.old }
{
    match rpc::read(form, version, payload) {
        Ok(Content::Message(header, size, _)) => tell(
            1,
            12,
            rpc::fields_of(header, size),
            fields,
            value,
        ),
        Ok(Content::Bare(_)) => tell(0, 0, no_fields(), fields, value),
        Err(refusal) => status::refused(refusal),
    }
}

// The same, each form by a call of its own, which stays for speed: so the compiler makes a way for each, with its constants.
fn read_known(form: Form, version: u8, payload: &[u8], fields: &mut [u8], value: &mut u32) -> u32
    ensures { left result fields.new value.new ≡ read_in form version payload.now fields.old value.old }
{
    match form {
        Form::Rpc => read_in(Form::Rpc, version, payload, fields, value),
        Form::Bulk => read_in(Form::Bulk, version, payload, fields, value),
        Form::Query => read_in(Form::Query, version, payload, fields, value),
    }
}

// What a payload is; its fields go to the front of fields.
#[unsafe(no_mangle)]
pub extern "C" fn tilambok_read_rpc(
    form: u8,
    version: u8,
    payload: &[u8],
    fields: &mut [u8],
    value: &mut u32,
) -> u32
    ensures { left result fields.new value.new ≡ tilambok_read_rpc form version payload.now fields.old value.old }
{
    let Some(known) = form_from(form) else {
        return status::refused(refusal::BAD_SETTINGS);
    };
    read_known(known, version, payload, fields, value)
}

// The header that a caller's numbers describe.
fn header_from(form: Form, kind: u8, id: u32, number: u32, size: u32) -> Header
    ensures { result ≡ header_of form (fields_from kind id number size) }
{
    rpc::header_of(
        form,
        Fields {
            kind,
            id,
            number,
            size,
        },
    )
}

// Where the JSON begins: behind the header, which RPC at version 1 does not have.
#[tactic(auto, unfolding(crate::specs::Payloads::start))]
fn start_of(form: Form, version: u8) -> u8
    ensures { result ≡ start form version }
{
    if rpc::is_bare(form, version) { 0 } else { 12 }
}

// A payload in this form, to the front of out.
fn write_in(
    form: Form,
    version: u8,
    header: Header,
    size: u32,
    json: &[u8],
    bulk: &[u8],
    out: &mut [u8],
    value: &mut u32,
) -> u32
    ensures { left result out.new value.new ≡ write_in form version header size json.now bulk.now out.old value.old }
{
    match rpc::write(version, header, size, json, bulk, out) {
        Ok(_) => status::done(u32::from(start_of(form, version)), value),
        Err(refusal) => status::refused(refusal),
    }
}

// A payload, header, JSON and bulk data, to the front of out.
#[unsafe(no_mangle)]
pub extern "C" fn tilambok_write_rpc(
    form: u8,
    version: u8,
    kind: u8,
    id: u32,
    number: u32,
    size: u32,
    json: &[u8],
    bulk: &[u8],
    out: &mut [u8],
    value: &mut u32,
) -> u32
    ensures { left result out.new value.new ≡ tilambok_write_rpc form version (fields_from kind id number size) json.now bulk.now out.old value.old }
{
    let Some(known) = form_from(form) else {
        return status::refused(refusal::BAD_SETTINGS);
    };
    let header = header_from(known, kind, id, number, size);
    write_in(known, version, header, size, json, bulk, out, value)
}
