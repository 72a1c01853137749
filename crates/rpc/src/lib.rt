// What is inside joined messages: the RPC header, the bulk form and the security query. Document 02, request A1.
// A payload comes as the link delivers it: bytes and the session's version. No frame, session or pool is known here, and JSON stays uninterpreted.
#![tactic(auto)]

ghost use Rattle.std.specs.Prelude.{◌≡◌, true, ◌++◌, ◌+◌, ◌-◌, ◌*◌, ◌≤◌, length, IfErr};
ghost use Rattle.figures.specs.Refusal.{refusal_in};
ghost use Rattle.numbers.specs.Bytes.{part, laid};
ghost use Rattle.numbers.specs.Numbers.{value_be};
ghost use Rattle.frame.specs.Write.{wrote};
ghost use Rattle.rpc.specs.Rules.{form_of, is_bare, id_span, kind_fits, id_fits, size_fault, fault_of};
ghost use Rattle.rpc.specs.Layout.{layout_bytes, fields_in, function_of, query_of, header_of, form_in, fields_of};
ghost use Rattle.rpc.specs.Read.{message_in, read_of};
ghost use Rattle.rpc.specs.Write.{bare_of, whole_of, write_of};

use figures::refusal::{self, Refusal};
use figures::service;
use frame::{Extent, ServiceType};

// Kinds of number that are never exchanged by mistake.
#[derive(Clone, Copy, PartialEq, Eq)]
pub struct FunctionId(pub u32);

#[derive(Clone, Copy, PartialEq, Eq)]
pub struct QueryId(pub u32);

#[derive(Clone, Copy, PartialEq, Eq)]
pub struct CorrelationId(pub u32);

#[derive(Clone, Copy, PartialEq, Eq)]
pub struct SequenceNumber(pub u32);

// The three forms of a payload.
#[derive(Clone, Copy, PartialEq, Eq)]
pub enum Form {
    Rpc,
    Bulk,
    Query,
}

// A header's fields but the JSON size: those of RPC and bulk, and those of a query. Two types, since their ids are never exchanged. Their types are numbers:
// the writer promises refusal 41 for a number that is none.
#[derive(Clone, Copy, PartialEq, Eq)]
pub struct FunctionHeader {
    // the RPC type: 0 request, 1 response, 2 notification
    pub kind: u8,
    pub function: FunctionId,
    pub correlation: CorrelationId,
}

#[derive(Clone, Copy, PartialEq, Eq)]
pub struct QueryHeader {
    // the query's type: 00, 10, 20 or FF (hex)
    pub kind: u8,
    pub query: QueryId,
    pub sequence: SequenceNumber,
}

#[derive(Clone, Copy, PartialEq, Eq)]
pub enum Header {
    OfRpc(FunctionHeader),
    OfBulk(FunctionHeader),
    OfQuery(QueryHeader),
}

// The 12 bytes as the layout has them, whatever the form: the numbers have no kind yet.
#[derive(Clone, Copy, PartialEq, Eq)]
pub struct Fields {
    // a number: `write` promises 41 for types that an enum would not have (write_of)
    pub kind: u8,
    pub id: u32,
    pub number: u32,
    pub size: u32,
}

// Where JSON and bulk data stand in the payload: the one from `json` to `bulk`, the other from `bulk` to `end`.
#[derive(Clone, Copy, PartialEq, Eq)]
pub struct Parts {
    pub json: usize,
    pub bulk: usize,
    pub end: usize,
}

// What a payload is: header, JSON size and parts, or JSON alone (RPC at version 1).
#[derive(Clone, Copy, PartialEq, Eq)]
pub enum Content {
    Message(Header, u32, Parts),
    Bare(Parts),
}

// The form of a delivery, by its service; audio and video carry none.
#[tactic(auto, unfolding(crate::specs::Rules::form_of))]
pub fn form_of(service: ServiceType) -> Option<Form>
    ensures { result ≡ form_of service }
{
    match service.0 {
        service::RPC => Some(Form::Rpc),
        service::BULK => Some(Form::Bulk),
        service::CONTROL => Some(Form::Query),
        _ => None,
    }
}

// Whether a payload is all JSON: RPC at version 1.
#[tactic(auto, unfolding(crate::specs::Rules::is_bare))]
pub fn is_bare(form: Form, version: u8) -> bool
    ensures { result ≡ is_bare form version }
{
    form == Form::Rpc && version == 1
}

// The first number that an id's bits cannot hold: the type stands above them.
#[tactic(auto, unfolding(crate::specs::Rules::id_span))]
fn id_span(form: Form) -> u32
    ensures { result ≡ id_span form }
{
    match form {
        Form::Rpc | Form::Bulk => 1 << 28,
        Form::Query => 1 << 24,
    }
}

#[tactic(auto, unfolding(crate::specs::Rules::kind_fits))]
fn kind_fits(form: Form, kind: u8) -> bool
    ensures { result ≡ kind_fits form kind }
{
    match form {
        Form::Rpc | Form::Bulk => kind <= 2,
        Form::Query => matches!(kind, 0x00 | 0x10 | 0x20 | 0xFF),
    }
}

#[tactic(auto, unfolding(crate::specs::Rules::id_fits))]
fn id_fits(form: Form, id: u32) -> bool
    ensures { result ≡ id_fits form id }
{
    match form {
        Form::Rpc | Form::Bulk => id < 1 << 28,
        Form::Query => matches!(id, 1 | 2 | 0xFFFFFF),
    }
}

// The first of 41 and 42 that a header earns, whatever the sizes are.
#[tactic(auto, unfolding(crate::specs::Rules::fault_of))]
fn header_fault(form: Form, fields: Fields) -> Result<(), Refusal>
    ensures lowest { refusal_in result ≡ fault_of form fields true true }
    ensures numbered { IfErr result (λ number. 1 ≤ number) }
{
    if !kind_fits(form, fields.kind) {
        return Err(refusal::RPC_BAD_TYPE);
    }
    if !id_fits(form, fields.id) {
        return Err(refusal::RPC_BAD_ID);
    }
    Ok(())
}

// The first of 43 and 44, which come behind those. `sized`: the JSON size is right; `ends`: nothing follows the JSON.
fn size_fault(form: Form, sized: bool, ends: bool) -> Result<(), Refusal>
    ensures lowest { refusal_in result ≡ size_fault form sized ends }
    ensures numbered { IfErr result (λ number. 1 ≤ number) }
{
    if !sized {
        return Err(refusal::RPC_BAD_JSON_SIZE);
    }
    if form == Form::Rpc && !ends {
        return Err(refusal::RPC_BULK);
    }
    Ok(())
}

// Most significant byte first, as all numbers of the header.
fn json_size(payload: &[u8]) -> u32
    ensures { result ≡ value_be (part payload.now 8 4) }
{
    numbers::be4(payload, 8)
}

// The 12 bytes taken apart.
fn fields_in(form: Form, payload: &[u8]) -> Fields
    requires { 12 ≤ length payload.now }
    ensures { result ≡ fields_in form payload.now }
{
    let word = numbers::be4(payload, 0);
    let span = id_span(form);
    Fields {
        kind: (word / span) as u8,
        id: word % span,
        number: numbers::be4(payload, 4),
        size: json_size(payload),
    }
}

// The numbers get their kinds.
impl From<Fields> for FunctionHeader {
    ghost from_gives = { λ fields header. header ≡ function_of fields };

    fn from(fields: Fields) -> FunctionHeader {
        FunctionHeader {
            kind: fields.kind,
            function: FunctionId(fields.id),
            correlation: CorrelationId(fields.number),
        }
    }
}

impl From<Fields> for QueryHeader {
    ghost from_gives = { λ fields header. header ≡ query_of fields };

    fn from(fields: Fields) -> QueryHeader {
        QueryHeader {
            kind: fields.kind,
            query: QueryId(fields.id),
            sequence: SequenceNumber(fields.number),
        }
    }
}

// A header in this form: the numbers get their kinds.
pub fn header_of(form: Form, fields: Fields) -> Header
    ensures { result ≡ header_of form fields }
{
    match form {
        Form::Rpc => Header::OfRpc(fields.into()),
        Form::Bulk => Header::OfBulk(fields.into()),
        Form::Query => Header::OfQuery(fields.into()),
    }
}

// A payload that has its 12 bytes.
#[tactic(auto, unfolding(crate::specs::Read::message_in, crate::specs::Rules::fault_of))]
fn read_whole(form: Form, payload: &[u8]) -> Result<Content, Refusal>
    requires { 12 ≤ length payload.now }
    ensures { result ≡ message_in form payload.now }
{
    let fields = fields_in(form, payload);
    let size = fields.size as usize;
    let behind = payload.len() - 12;
    header_fault(form, fields)?;
    size_fault(form, size <= behind, behind <= size)?;
    let parts = Parts {
        json: 12,
        bulk: 12 + size,
        end: payload.len(),
    };
    Ok(Content::Message(header_of(form, fields), fields.size, parts))
}

// What a delivered payload is.
#[tactic(auto, unfolding(crate::specs::Read::read_of))]
pub fn read(form: Form, version: u8, payload: &[u8]) -> Result<Content, Refusal>
    ensures { result ≡ read_of form version payload.now }
{
    if !frame::known_version(version) {
        return Err(refusal::BAD_VERSION);
    }
    let end = payload.len();
    if is_bare(form, version) {
        return Ok(Content::Bare(Parts {
            json: 0,
            bulk: end,
            end,
        }));
    }
    if end < 12 {
        return Err(refusal::RPC_TOO_SHORT);
    }
    read_whole(form, payload)
}

// A part of a payload, cut as the frame layer cuts.
fn cut(payload: &[u8], start: usize, end: usize) -> &[u8]
    ensures { result.now ≡ part payload.now start (end - start) }
{
    frame::payload(
        payload,
        Extent {
            start,
            end,
            consumed: end,
        },
    )
}

// The JSON of a payload that was read.
pub fn json(payload: &[u8], parts: Parts) -> &[u8]
    ensures { result.now ≡ part payload.now parts.json (parts.bulk - parts.json) }
{
    cut(payload, parts.json, parts.bulk)
}

// Its bulk data: in a query, the binary data behind the JSON.
pub fn bulk(payload: &[u8], parts: Parts) -> &[u8]
    ensures { result.now ≡ part payload.now parts.bulk (parts.end - parts.bulk) }
{
    cut(payload, parts.bulk, parts.end)
}

fn form_in(header: Header) -> Form
    ensures { result ≡ form_in header }
{
    match header {
        Header::OfRpc(_) => Form::Rpc,
        Header::OfBulk(_) => Form::Bulk,
        Header::OfQuery(_) => Form::Query,
    }
}

// A header's fields as the layout has them, with the JSON size: the numbers without their kinds.
pub fn fields_of(header: Header, size: u32) -> Fields
    ensures { result ≡ fields_of header size }
{
    match header {
        Header::OfRpc(header) | Header::OfBulk(header) => Fields {
            kind: header.kind,
            id: header.function.0,
            number: header.correlation.0,
            size,
        },
        Header::OfQuery(header) => Fields {
            kind: header.kind,
            id: header.query.0,
            number: header.sequence.0,
            size,
        },
    }
}

// Type and id as one number.
fn word_of(form: Form, fields: Fields) -> u32
    requires { (kind_fits form fields.kind ≡ true) × (id_fits form fields.id ≡ true) }
    ensures { result ≡ fields.kind * id_span form + fields.id }
{
    u32::from(fields.kind) * id_span(form) + fields.id
}

// Header, JSON and bulk data to the front of out.
fn put_whole(form: Form, fields: Fields, json: &[u8], bulk: &[u8], out: &mut [u8])
    requires { (kind_fits form fields.kind ≡ true) × ((id_fits form fields.id ≡ true) × (12 + length json.now + length bulk.now ≤ length out.old)) }
    ensures { out.new ≡ laid (layout_bytes form fields ++ json.now ++ bulk.now) out.old }
{
    let front = 12 + json.len();
    let end = front + bulk.len();
    numbers::put_be4(out, 0, word_of(form, fields));
    numbers::put_be4(out, 4, fields.number);
    numbers::put_be4(out, 8, fields.size);
    numbers::copy(json, &mut out[12..front]);
    numbers::copy(bulk, &mut out[front..end]);
}

// Version 1's RPC: the JSON alone.
#[tactic(auto, unfolding(crate::specs::Write::bare_of))]
fn write_bare(json: &[u8], bulk: &[u8], out: &mut [u8]) -> Result<usize, Refusal>
    ensures { wrote result out.new ≡ bare_of json.now bulk.now out.old }
{
    if !bulk.is_empty() {
        return Err(refusal::RPC_BULK);
    }
    let end = json.len();
    if out.len() < end {
        return Err(refusal::TOO_SMALL);
    }
    numbers::copy(json, &mut out[0..end]);
    Ok(end)
}

// Header, JSON and bulk data.
#[tactic(auto, using(crate::proofs::Buffers::whole), unfolding(crate::specs::Write::whole_of, crate::specs::Rules::fault_of))]
fn write_whole(
    header: Header,
    size: u32,
    json: &[u8],
    bulk: &[u8],
    out: &mut [u8],
) -> Result<usize, Refusal>
    ensures { wrote result out.new ≡ whole_of header size json.now bulk.now out.old }
{
    let form = form_in(header);
    let fields = fields_of(header, size);
    header_fault(form, fields)?;
    size_fault(form, size as usize == json.len(), bulk.is_empty())?;
    let front = 12 + json.len();
    if out.len() < front || out.len() - front < bulk.len() {
        return Err(refusal::TOO_SMALL);
    }
    put_whole(form, fields, json, bulk, out);
    Ok(front + bulk.len())
}

// A payload to the front of out: the header, with this JSON size, JSON and bulk data.
#[tactic(auto, unfolding(crate::specs::Write::write_of))]
pub fn write(
    version: u8,
    header: Header,
    size: u32,
    json: &[u8],
    bulk: &[u8],
    out: &mut [u8],
) -> Result<usize, Refusal>
    ensures { wrote result out.new ≡ write_of version header size json.now bulk.now out.old }
{
    if !frame::known_version(version) {
        return Err(refusal::BAD_VERSION);
    }
    if is_bare(form_in(header), version) {
        return write_bare(json, bulk, out);
    }
    write_whole(header, size, json, bulk, out)
}
