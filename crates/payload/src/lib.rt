// Control payloads: the reader of their one BSON document. Document 01, "Control payloads".
// It knows no frame and no session: a byte slice in, the known tags or a refusal out.
#![tactic(auto)]

mod draft;
mod kind;
pub mod reply;
pub mod version;

ghost use Rattle.std.specs.Prelude.{◌≡◌, false, ◌+◌, ◌-◌, ◌^◌, ◌≤◌, ◌<◌, length};
ghost use Rattle.numbers.specs.Bytes.{part};
ghost use Rattle.numbers.specs.Numbers.{value_le};
ghost use Rattle.payload.specs.Tags.{same_bytes, tag_of, found, clashes, no_tags, string_at, hash_at, mtu_at, array_at, with_tag, bytes_in, rejected_in};
ghost use Rattle.payload.specs.Walk.{read_type, nests, fixed_of, boolean_of, string_of, plain_of, tag_at, head_of, element_of, document_of, answer, payload_of};
ghost use Rattle.payload.specs.Step.{stepped, StepIn};

use crate::kind::{BsonType, Kind};
use figures::refusal::{self, Refusal};

// A place in the caller's slice: where it begins, and its bytes.
#[derive(Clone, Copy, Debug, Default, PartialEq, Eq)]
pub struct Span {
    pub at: usize,
    pub length: usize,
}

impl Span {
    // Its bytes in those of a caller, as far as these reach.
    pub fn of(self, bytes: &[u8]) -> &[u8]
        ensures { result.now ≡ bytes_in bytes.now self }
    {
        let start = self.at.min(bytes.len());
        let end = start + self.length.min(bytes.len() - start);
        &bytes[start..end]
    }
}

// The known tags of a payload, those that it has.
#[derive(Clone, Copy, Debug, Default, PartialEq, Eq)]
pub struct Tags {
    // protocolVersion: the string without the final 0 byte that BSON counts
    pub version: Option<Span>,
    // hashId as its 32 bits
    pub hash: Option<u32>,
    // mtu as its 64 bits
    pub mtu: Option<u64>,
    // rejectedParams: the array's document, all its bytes
    pub rejected: Option<Span>,
}

// What a key names.
#[derive(Clone, Copy, Debug)]
enum Tag {
    Unknown,
    ProtocolVersion,
    HashId,
    Mtu,
    RejectedParams,
}

// No match on the key: it makes a goal for each byte that can differ.
#[tactic(auto, using(crate::proofs::Tests::key_is), unfolding(crate::specs::Tags::tag_of))]
fn tag_of(key: &[u8]) -> Tag
    ensures { result ≡ tag_of key.now }
{
    if key == b"protocolVersion".as_slice() {
        return Tag::ProtocolVersion;
    }
    if key == b"hashId".as_slice() {
        return Tag::HashId;
    }
    if key == b"mtu".as_slice() {
        return Tag::Mtu;
    }
    if key == b"rejectedParams".as_slice() {
        return Tag::RejectedParams;
    }
    Tag::Unknown
}

// Only top-level tags count.
fn tag_at(top: bool, bytes: &[u8], key: usize, stop: usize) -> Tag
    requires { (key ≤ stop) × (stop ≤ length bytes.now) }
    ensures { result ≡ tag_at top bytes.now key stop }
{
    if top {
        tag_of(&bytes[key..stop])
    } else {
        Tag::Unknown
    }
}

fn was_found(tags: Tags, tag: Tag) -> bool
    ensures { result ≡ found tags tag }
{
    match tag {
        Tag::Unknown => false,
        Tag::ProtocolVersion => tags.version.is_some(),
        Tag::HashId => tags.hash.is_some(),
        Tag::Mtu => tags.mtu.is_some(),
        Tag::RejectedParams => tags.rejected.is_some(),
    }
}

// A known tag that comes twice, or has another type.
fn does_clash(tags: Tags, tag: Tag, kind: Kind) -> bool
    ensures { result ≡ clashes tags tag kind }
{
    if was_found(tags, tag) {
        return true;
    }
    match tag {
        Tag::Unknown => false,
        Tag::ProtocolVersion => !matches!(kind.bson, BsonType::String),
        Tag::HashId => !matches!(kind.bson, BsonType::Int32),
        Tag::Mtu => !matches!(kind.bson, BsonType::Int64),
        Tag::RejectedParams => !matches!(kind.bson, BsonType::Array),
    }
}

// The length that a string or a document starts with. It and the two tags below read a number each: a name for each, as the definitions have.
fn size_at(bytes: &[u8], at: usize) -> usize
    ensures { result ≡ value_le (part bytes.now at 4) }
{
    numbers::le::<u32>(bytes, at) as usize
}

// A string, whose value starts with its length.
fn string_at(bytes: &[u8], value: usize) -> Span
    requires { value + 4 < 2 ^ 64 }
    ensures { result ≡ string_at bytes.now value }
{
    let counted = size_at(bytes, value);
    Span {
        at: value + 4,
        length: counted.saturating_sub(1),
    }
}

// Least significant first.
fn hash_at(bytes: &[u8], value: usize) -> u32
    ensures { result ≡ hash_at bytes.now value }
{
    numbers::le::<u32>(bytes, value)
}

fn mtu_at(bytes: &[u8], value: usize) -> u64
    ensures { result ≡ mtu_at bytes.now value }
{
    numbers::le::<u64>(bytes, value)
}

fn array_at(bytes: &[u8], value: usize) -> Span
    ensures { result ≡ array_at bytes.now value }
{
    Span {
        at: value,
        length: size_at(bytes, value),
    }
}

// The tags with one more, whose value starts at a place.
fn with_tag(bytes: &[u8], tags: Tags, tag: Tag, value: usize) -> Tags
    requires { value + 4 < 2 ^ 64 }
    ensures { result ≡ with_tag bytes.now tags tag value }
{
    match tag {
        Tag::Unknown => tags,
        Tag::ProtocolVersion => Tags {
            version: Some(string_at(bytes, value)),
            ..tags
        },
        Tag::HashId => Tags {
            hash: Some(hash_at(bytes, value)),
            ..tags
        },
        Tag::Mtu => Tags {
            mtu: Some(mtu_at(bytes, value)),
            ..tags
        },
        Tag::RejectedParams => Tags {
            rejected: Some(array_at(bytes, value)),
            ..tags
        },
    }
}

// The bytes, a place and an end stay parameters below: a struct that holds a reference is no plainer, since each clause says
// `self.entry.bytes.now self.entry.at` and so on.
// A value of so many bytes.
#[tactic(auto, unfolding(crate::specs::Walk::fixed_of))]
fn fixed(width: usize, value: usize, end: usize) -> Option<usize>
    requires { value ≤ end }
    ensures { result ≡ fixed_of width value end }
{
    if width <= end - value {
        Some(value + width)
    } else {
        None
    }
}

#[tactic(auto, unfolding(crate::specs::Walk::boolean_of))]
fn boolean(bytes: &[u8], value: usize, end: usize) -> Option<usize>
    requires { end ≤ length bytes.now }
    ensures { result ≡ boolean_of bytes.now value end }
{
    if end <= value {
        return None;
    }
    if bytes[value] < 2 {
        Some(value + 1)
    } else {
        None
    }
}

fn string(bytes: &[u8], value: usize, end: usize) -> Option<usize>
    requires { (value ≤ end) × (end ≤ length bytes.now) }
    ensures { result ≡ string_of bytes.now value end }
{
    if end - value < 4 {
        return None;
    }
    let counted = size_at(bytes, value);
    if counted < 1 || end - value - 4 < counted {
        return None;
    }
    // a name of its own for what is judged, so that an edit of it changes a value and no branch (docs/PROVING.md); so below
    let closed = bytes[value + 3 + counted] == 0;
    if closed {
        Some(value + 4 + counted)
    } else {
        None
    }
}

// A value that holds no document.
#[tactic(auto, unfolding(crate::specs::Walk::plain_of))]
fn plain(bytes: &[u8], value: usize, end: usize, kind: Kind) -> Option<usize>
    requires { (value ≤ end) × (end ≤ length bytes.now) }
    ensures { result ≡ plain_of bytes.now value end kind }
{
    match kind.bson {
        BsonType::String => string(bytes, value, end),
        BsonType::Boolean => boolean(bytes, value, end),
        BsonType::Null => fixed(0, value, end),
        BsonType::Int32 => fixed(4, value, end),
        BsonType::Double | BsonType::Int64 => fixed(8, value, end),
        BsonType::Document | BsonType::Array => None,
    }
}

// What stands before an element's value: its type, its tag and the value's place. Judged by type, key and tag, in this order.
fn front(
    top: bool,
    bytes: &[u8],
    at: usize,
    end: usize,
    tags: Tags,
) -> Result<(Kind, Tag, usize), Refusal>
    requires { (at < end) × (end ≤ length bytes.now) }
    ensures { result ≡ head_of top bytes.now at end tags }
{
    let kind = Kind::try_from(bytes[at])?;
    let key = at + 1;
    let stop = lines::find(bytes, key, end, 0);
    if end <= stop {
        return Err(refusal::MALFORMED);
    }
    let value = stop + 1;
    let tag = tag_at(top, bytes, key, stop);
    if does_clash(tags, tag, kind) {
        return Err(refusal::BAD_TAG);
    }
    Ok((kind, tag, value))
}

// An element of a document that ends at `end`; documents inside it have so many levels left. The place past it, its tag and its value's place.
#[cycle(document_element)]
fn element(
    bytes: &[u8],
    at: usize,
    end: usize,
    levels: usize,
    top: bool,
    tags: Tags,
) -> Result<(usize, Tag, usize), Refusal>
    requires { (at < end) × (end ≤ length bytes.now) }
    ensures result_value { stepped bytes.now tags result ≡ element_of (document_of levels false bytes.now) top bytes.now at end tags }
    ensures step_in { StepIn end result }
{
    let (kind, tag, value) = front(top, bytes, at, end, tags)?;
    if kind.is_nested() {
        let (next, _) = document(bytes, value, end, levels, false, tags)?;
        Ok((next, tag, value))
    } else {
        let next = plain(bytes, value, end, kind).ok_or(refusal::MALFORMED)?;
        Ok((next, tag, value))
    }
}

// A document inside what ends at `end`, with so many levels left, its own among them: the place past it and the tags so far.
#[cycle(document_element)]
fn document(
    bytes: &[u8],
    at: usize,
    end: usize,
    levels: usize,
    top: bool,
    tags: Tags,
) -> Result<(usize, Tags), Refusal>
    requires { (at ≤ end) × (end ≤ length bytes.now) }
    ensures { result ≡ document_of levels top bytes.now at end tags }
{
    let too_deep = levels == 0;
    if too_deep {
        return Err(refusal::TOO_DEEP);
    }
    if end - at < 4 {
        return Err(refusal::MALFORMED);
    }
    let size = size_at(bytes, at);
    if size < 5 || end - at < size {
        return Err(refusal::MALFORMED);
    }
    let last = at + size;
    let mut place = at + 4;
    let mut so_far = tags;
    // No range counts this: each element tells where the next one starts.
    while place < last {
        if bytes[place] == 0 {
            if place + 1 == last {
                return Ok((last, so_far));
            }
            return Err(refusal::MALFORMED);
        }
        let (next, tag, value) = element(bytes, place, last, levels - 1, top, so_far)?;
        place = next;
        so_far = with_tag(bytes, so_far, tag, value);
    }
    Err(refusal::MALFORMED)
}

// A control payload: the bytes behind a control frame's header, all of them. No bytes, no tags.
#[tactic(auto, using(crate::proofs::Outcomes::is_no_tags), unfolding(crate::specs::Walk::payload_of))]
pub fn read(bytes: &[u8]) -> Result<Tags, Refusal>
    ensures { result ≡ payload_of bytes.now }
{
    let lent = bytes.len();
    if lent == 0 {
        return Ok(Tags::default());
    }
    if lent < 5 || 1024 < lent || size_at(bytes, 0) != lent {
        return Err(refusal::BAD_LENGTH);
    }
    let (_, tags) = document(bytes, 0, lent, 8, true, Tags::default())?;
    Ok(tags)
}

// The array of rejectedParams in the bytes that were read: its document. Nothing where there is none.
pub fn rejected_params(bytes: &[u8], tags: Tags) -> &[u8]
    ensures { result.now ≡ rejected_in bytes.now tags }
{
    tags.rejected.unwrap_or_default().of(bytes)
}
