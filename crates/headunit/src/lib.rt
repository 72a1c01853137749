// The head unit's side of a link: creation and the call. Document 01, "The link" to "Messages".
// State, pool and out buffer are lent. Every state, pool, input, out buffer and offer is answered.
#![tactic(auto)]

mod replies;

ghost use Rattle.std.specs.Prelude.{◌≡◌, true, List, ℕ, ◌+◌, ◌-◌, ◌≤◌, ◌<◌, length, take};
ghost use Rattle.std.specs.Option.{ForSome};
ghost use Rattle.std.specs.Result.{IfErr};
ghost use Rattle.figures.specs.Refusal.{bad_settings, refusal_in};
ghost use Rattle.numbers.specs.Bytes.{part, laid};
ghost use Rattle.numbers.specs.Numbers.{value_be};
ghost use Rattle.frame.specs.declared.Reading.TheVariants.{Frame};
ghost use Rattle.frame.specs.Rules.{listed_service};
ghost use Rattle.frame.specs.Read.{read_of};
ghost use Rattle.payload.specs.Version.{version_of};
ghost use Rattle.blocks.specs.Pool.{block_bytes, appended};
ghost use Rattle.session.specs.Rules.{reply_version, barred_by};
ghost use Rattle.session.specs.Decide.{share_of, first_of, control_of};
ghost use Rattle.link.specs.declared.Grant.{Grant as Offer};
ghost use Rattle.link.specs.declared.Link.{Link as State};
ghost use Rattle.link.specs.State.{index_of, owner_of, shares_in, guard_of, new_id};
ghost use Rattle.link.specs.Call.{after, wish_of_text, wish_of, opens, not_opened, opened, opening_by, said_of, decision_of, applied, frame_of};
ghost use Rattle.state.specs.Layout.{row_in, link_of};
ghost use Rattle.state.specs.Calls.{stored_in, with_owners_bytes, left, left_by, call_in, told_of as outcome_of, made, create_in};
ghost use Rattle.rules.specs.Parts.{Surveyed};
ghost use Rattle.headunit.specs.Unit.{sent, sent_of, rejection, wished, version_for, ack_for, FreeRow, Serves};
ghost use Rattle.headunit.specs.Steps.{owners_after, changes, link_after, origin_of, from_opening, from_row, case_of, told, told_of, Repliable, Roomy};

use blocks::Owner;
use figures::refusal::{self, Refusal};
use figures::{command, frame_type, service};
use frame::{Extent, Header, MessageId, Reading, ServiceType, SessionId};
use link::{Answer, Grant};
use payload::reply::Parameter;
use payload::version;
use payload::version::Version;
use replies::From;
use rules::Overview;
use session::{Act, Reassembly, Row, Said};
use state::{LENGTH, RowNumber};

// A call wants so many bytes of out.
const LEAST_OUT: usize = 128;

// The owner of the blocks of row i's message at a place.
fn owner(i: RowNumber, place: usize) -> Owner
    requires { place < 5 }
    ensures { result.0 ≡ owner_of i.number place }
{
    Owner((1 + (i.number * 5 + place)) as u8)
}

// The block map after a decision about row i's message at a place.
fn note_owners(link: &mut [u8; LENGTH], i: RowNumber, place: usize, act: &Act)
    requires { place < 5 }
    ensures { link.new ≡ with_owners_bytes link.old (owners_after i.number place (link_of link.old).owners act.now) }
{
    let mine = owner(i, place);
    match *act {
        Act::Drop(_) | Act::Stop | Act::Deliver => state::release(link, mine, mine),
        Act::Close => state::release(link, owner(i, 0), owner(i, 4)),
        Act::Claim(total, _) => state::claim(link, session::need_of(total), mine),
        Act::Refuse(_) | Act::Accept | Act::Beat | Act::Start => {}
        Act::NoStart | Act::NoEnd(_) | Act::Append | Act::Single => {}
    }
}

// Whether a decision changes its session's row, which has this version, or the block map.
fn is_change(version: u8, act: &Act) -> bool
    ensures { result ≡ changes version act.now }
{
    match *act {
        Act::Refuse(_) | Act::Accept | Act::Beat | Act::NoStart | Act::NoEnd(_) => false,
        Act::Drop(_) | Act::Start | Act::Stop | Act::Close => true,
        Act::Claim(_, _) | Act::Append | Act::Deliver => true,
        Act::Single => version == 0,
    }
}

// The state after a decision about a frame of row i. Where nothing changes, nothing is written: most calls of a bench are such.
fn note(link: &mut [u8; LENGTH], i: RowNumber, header: Header, hash: u32, act: &Act)
    ensures { link.new ≡ stored_in link.old (link_after (link_of link.old) i.number header hash act.now) }
{
    let row = state::row_at(link, i);
    if is_change(row.version, act) {
        state::put_row(link, i, session::row_after(row, header, hash, *act));
        note_owners(link, i, session::place_of(header.service), act);
    }
}

// What a control frame's payload says of a hash.
#[tactic(auto, unfolding(link::specs::Call::said_of))]
fn said(row: Row, payload: &[u8]) -> Said
    ensures { result ≡ said_of row payload.now }
{
    if row.version == 5 {
        return match payload::read(payload) {
            Ok(tags) => Said {
                readable: true,
                hash: tags.hash,
            },
            Err(_) => Said {
                readable: false,
                hash: None,
            },
        };
    }
    Said {
        readable: true,
        hash: (payload.len() == 4).then_some(numbers::be4(payload, 0)),
    }
}

// Bytes to the front of out.
fn put_front(bytes: &[u8], out: &mut [u8])
    requires { length bytes.now ≤ length out.old }
    ensures { out.new ≡ laid bytes.now out.old }
{
    let end = bytes.len();
    out[0..end].copy_from_slice(bytes);
}

// ---- what is done about a frame of a session

// Whom a reply in a session comes from; major is the module's own version.
fn from(major: u8, row: Row, service: ServiceType) -> From
    requires { (1 ≤ reply_version major row) × ((reply_version major row ≤ 5) × (listed_service service ≡ true)) }
    ensures { origin_of result ≡ from_row major row service }
{
    From {
        version: session::reply_version(row, major),
        service,
        session: row.id,
    }
}

// A payload goes to a message's blocks, right behind the bytes that are there.
fn feed(owners: &[u8], mine: Owner, message: Reassembly, payload: &[u8], pool: &mut [u8])
    ensures { pool.new ≡ appended mine.0 (message.total - message.missing) payload.now owners.now pool.old }
{
    let there = message.total.saturating_sub(message.missing);
    blocks::append(owners, mine, there as usize, payload, pool);
}

// The last one: the message is written to the front of out.
fn deliver(
    owners: &[u8],
    mine: Owner,
    message: Reassembly,
    payload: &[u8],
    pool: &mut [u8],
    out: &mut [u8],
)
    requires { message.total ≤ length out.old }
    ensures pool_after { pool.new ≡ appended mine.0 (message.total - message.missing) payload.now owners.now pool.old }
    ensures out_after { out.new ≡ laid (take message.total (block_bytes mine.0 owners.now pool.new)) out.old }
{
    feed(owners, mine, message, payload, pool);
    let size = message.total as usize;
    blocks::deliver(owners, mine, size, pool, out);
}

// What is done about a frame of row i, but for the state: its answer, and the bytes of pool and out. The row is read here, and so is a message where it is
// wanted: handed on from function to function, a row lies on the stack whole. Pool and out are no struct: each is lent on alone. Each kind of answer is an arm.
fn tell(
    link: &[u8; LENGTH],
    i: RowNumber,
    act: &Act,
    service: ServiceType,
    consumed: usize,
    hash: u32,
    payload: &[u8],
    pool: &mut [u8],
    out: &mut [u8],
) -> Answer
    requires { (Repliable (case_of (link_of link.now) i.number service hash consumed).from out.old × Roomy (length out.old) (length payload.now) (case_of (link_of link.now) i.number service hash consumed).message.total act.now) }
    ensures { told result pool.new out.new ≡ told_of (case_of (link_of link.now) i.number service hash consumed) (link_of link.now).owners payload.now pool.old out.old act.now }
{
    let row = state::row_at(link, i);
    let from = from(state::major(link), row, service);
    let place = session::place_of(service);
    match *act {
        Act::Refuse(refusal) | Act::Drop(refusal) => Answer::Refused(refusal),
        Act::Accept | Act::Claim(_, _) => Answer::Accepted(consumed),
        Act::Beat => {
            let size = from.put(command::HEARTBEAT_ACK, MessageId(0), &[], out);
            Answer::Beat(consumed, size)
        }
        Act::Start => {
            let size = from.put_started(row.version, row.next, hash, state::mtu(link), out);
            Answer::Acked(consumed, size)
        }
        Act::NoStart => Answer::Nacked(consumed, from.put_nak(command::START_NAK, None, out)),
        Act::Stop | Act::Close => {
            let size = from.put(command::END_ACK, row.next, &[], out);
            Answer::Acked(consumed, size)
        }
        Act::NoEnd(named) => {
            let rejected = named.then_some(Parameter::HashId);
            Answer::Nacked(consumed, from.put_nak(command::END_NAK, rejected, out))
        }
        Act::Append => {
            let message = state::message_at(link, i, place);
            feed(state::owners(link), owner(i, place), message, payload, pool);
            Answer::Accepted(consumed)
        }
        Act::Deliver => {
            let message = state::message_at(link, i, place);
            deliver(
                state::owners(link),
                owner(i, place),
                message,
                payload,
                pool,
                out,
            );
            Answer::Delivered(consumed, service, message.total as usize)
        }
        Act::Single => {
            put_front(payload, out);
            Answer::Delivered(consumed, service, payload.len())
        }
    }
}

// ---- decisions

// The room that all sessions take.
#[derive(Clone, Copy)]
struct Shares {
    all: usize,
    ghost bound: { all ≤ 671088640 },
}

// The room that the other sessions take.
fn others(shared: Shares, row: Row) -> u32
    ensures { result ≡ shared.all - share_of row }
{
    shared.all.saturating_sub(session::share(row)) as u32
}

// The lowest of 13 to 17 that a frame of row i earns.
fn barred(link: &[u8; LENGTH], i: RowNumber, header: Header) -> Result<(), Refusal>
    ensures lowest { refusal_in result ≡ barred_by (link_of link.now).version.major (link_of link.now).mtu (row_in link.now i.number) header }
    ensures numbered { IfErr result (λ number. 13 ≤ number) }
{
    let row = state::row_at(link, i);
    session::barred_by(row, header, state::major(link), state::mtu(link))
}

// A control frame of row i. Only a Start's and an End's payload is read.
fn control(link: &[u8; LENGTH], i: RowNumber, header: Header, payload: &[u8]) -> Act
    ensures { result ≡ control_of (row_in link.now i.number) header (said_of (row_in link.now i.number) payload.now) }
{
    let row = state::row_at(link, i);
    match header.info {
        command::START | command::END => session::control(row, header, said(row, payload)),
        _ => {
            let nothing = Said {
                readable: false,
                hash: None,
            };
            session::control(row, header, nothing)
        }
    }
}

// A First Frame of row i; its payload is total, then count. Here and in `decide` state, room, row's number and header are parameters: the state is lent to be
// read, and `note` writes it when they are done.
fn first(link: &[u8; LENGTH], shared: Shares, i: RowNumber, header: Header, payload: &[u8]) -> Act
    ensures { result ≡ first_of (row_in link.now i.number) (shared.all - share_of (row_in link.now i.number)) header (value_be (part payload.now 0 4)) (value_be (part payload.now 4 4)) }
{
    let row = state::row_at(link, i);
    let total = numbers::be4(payload, 0);
    let count = numbers::be4(payload, 4);
    session::first(row, others(shared, row), header, total, count)
}

// What is to be done about a frame of row i; room is out's length.
fn decide(
    link: &[u8; LENGTH],
    shared: Shares,
    i: RowNumber,
    header: Header,
    payload: &[u8],
    room: usize,
) -> Act
    requires { shared.all ≡ shares_in (link_of link.now).rows }
    ensures { result ≡ decision_of (link_of link.now) i.number header payload.now room }
{
    if let Err(refusal) = barred(link, i, header) {
        return Act::Refuse(refusal);
    }
    match header.kind {
        frame_type::CONTROL => control(link, i, header, payload),
        frame_type::SINGLE => session::single(room, header),
        frame_type::FIRST => first(link, shared, i, header, payload),
        _ => {
            let place = session::place_of(header.service);
            session::next_for(state::message_at(link, i, place), room, header)
        }
    }
}

// ---- opening
// Openings ask for a link's major of 1 or more, and no type says it: the version stays in the state's bytes, of which `guard_of` says it.

// A version 1 Start Service, service 07, session 0.
#[tactic(auto, unfolding(link::specs::Call::opens))]
fn is_opening(header: Header) -> bool
    ensures { result ≡ opens header }
{
    header.version == 1
        && header.kind == frame_type::CONTROL
        && header.service.0 == service::RPC
        && header.info == command::START
        && header.session.0 == 0
}

// The row of a new session: a free one, where there is room for the guarantee.
fn free_row(seen: Overview, grant: Grant) -> Option<RowNumber>
    requires { seen.shared ≤ 671088640 }
    ensures { (link : State) → Surveyed link seen → FreeRow link grant result }
{
    if 256 < seen.shared + usize::from(grant.guarantee) {
        return None;
    }
    rules::index_of(seen.ids, SessionId(0))
}

// What a version string wishes: a version from 5.0.0 on or an old one, and else it is rejected.
fn wished_text(text: &[u8]) -> Result<Option<Version>, Parameter>
    ensures { result ≡ wished (wish_of_text (version_of text.now)) }
{
    let version = version::read(text).ok_or(Parameter::ProtocolVersion)?;
    if version.major < 5 {
        Ok(None)
    } else {
        Ok(Some(version))
    }
}

// What an opening's payload wishes; major is the module's own.
fn wish_of(major: u8, payload: &[u8]) -> Result<Option<Version>, Parameter>
    ensures { result ≡ wished (wish_of major payload.now) }
{
    if major != 5 {
        return Ok(None);
    }
    let Ok(tags) = payload::read(payload) else {
        return Err(Parameter::ProtocolVersion);
    };
    let Some(text) = tags.version else {
        return Ok(None);
    };
    let end = text.at + text.length;
    wished_text(&payload[text.at..end])
}

// Whom a reply to an opening comes from; major is the module's own.
fn from_module(major: u8, session: SessionId) -> From
    requires { 1 ≤ major }
    ensures { origin_of result ≡ from_opening major session }
{
    From {
        version: major.min(4),
        service: ServiceType(service::RPC),
        session,
    }
}

// The NAK of an opening, which may name what is rejected; major is the module's own.
fn not_opened(major: u8, consumed: usize, rejected: Option<Parameter>, out: &mut [u8]) -> Answer
    requires { (128 ≤ length out.old) × (1 ≤ major) }
    ensures { (l : State) (p : List ℕ) (g : Offer) → major ≡ l.version.major → after result l p out.new ≡ not_opened l p out.old consumed g (rejection rejected) }
{
    let from = from_module(major, SessionId(0));
    Answer::Nacked(consumed, from.put_nak(command::START_NAK, rejected, out))
}

// The version of a session that wished this one: an old version is unsettled, but for a module of version 1.
#[tactic(auto, unfolding(link::specs::Call::old_version))]
fn version_for(major: u8, wish: Option<Version>) -> u8
    ensures { result ≡ version_for major wish }
{
    match wish {
        Some(_) => 5,
        None => u8::from(major == 1),
    }
}

// The opening's ACK: the raw hash for an old version, else in version 5 on the lesser of both versions.
fn put_ack(
    link: &[u8; LENGTH],
    session: SessionId,
    hash: u32,
    wish: Option<Version>,
    out: &mut [u8],
) -> usize
    requires { (128 ≤ length out.old) × ((1 ≤ (link_of link.now).version.major) × ForSome wish (λ v. 1 ≤ v.major)) }
    ensures { sent result out.new ≡ sent_of (ack_for (link_of link.now) session hash wish) out.old }
{
    match wish {
        None => from_module(state::major(link), session).put_hash(MessageId(1), hash, out),
        Some(wish) => {
            let version = version::lesser(state::version(link), wish);
            replies::put_opened(session, hash, state::mtu(link), version, out)
        }
    }
}

// The session in the free row i.
fn opened(
    link: &mut [u8; LENGTH],
    i: RowNumber,
    id: SessionId,
    consumed: usize,
    grant: Grant,
    wish: Option<Version>,
    out: &mut [u8],
) -> Answer
    requires { (i.number ≡ index_of 0 (link_of link.old).rows) × ((id ≡ new_id (link_of link.old).rows) × ((128 ≤ length out.old) × ((1 ≤ (link_of link.old).version.major) × ForSome wish (λ v. 1 ≤ v.major)))) }
    ensures { (p : List ℕ) → left result link.new p out.new ≡ left_by link.old (opened (link_of link.old) p out.old consumed grant (version_for (link_of link.old).version.major wish) (ack_for (link_of link.old) (new_id (link_of link.old).rows) grant.hash wish)) }
{
    let size = put_ack(link, id, grant.hash, wish, out);
    let version = version_for(state::major(link), wish);
    let row = Row::opened(id, grant.guarantee, grant.cap, version, grant.hash);
    state::put_row(link, i, row);
    Answer::Acked(consumed, size)
}

// An opening: what it wishes is granted where there is a row and room for the guarantee.
fn open(
    link: &mut [u8; LENGTH],
    seen: Overview,
    consumed: usize,
    payload: &[u8],
    grant: Grant,
    out: &mut [u8],
) -> Answer
    requires { (128 ≤ length out.old) × ((1 ≤ (link_of link.old).version.major) × Surveyed (link_of link.old) seen) }
    ensures { (p : List ℕ) → left result link.new p out.new ≡ left_by link.old (opening_by (link_of link.old) p out.old consumed grant (wish_of (link_of link.old).version.major payload.now)) }
{
    let major = state::major(link);
    match wish_of(major, payload) {
        Err(rejected) => not_opened(major, consumed, Some(rejected), out),
        Ok(wish) => match free_row(seen, grant) {
            None => not_opened(major, consumed, None, out),
            Some(i) => {
                let id = rules::lowest_free(seen.ids);
                opened(link, i, id, consumed, grant, wish, out)
            }
        },
    }
}

// ---- the call

// A frame of the session in row i: decided by its row, told in pool and out, and noted in row and block map.
fn within(
    link: &mut [u8; LENGTH],
    shared: Shares,
    i: RowNumber,
    header: Header,
    consumed: usize,
    payload: &[u8],
    grant: Grant,
    pool: &mut [u8],
    out: &mut [u8],
) -> Answer
    requires { Serves (link_of link.old) i.number header out.old × ((length payload.now ≡ header.size) × (shared.all ≡ shares_in (link_of link.old).rows)) }
    ensures { left result link.new pool.new out.new ≡ left_by link.old (applied (link_of link.old) i.number pool.old out.old header consumed payload.now grant (decision_of (link_of link.old) i.number header payload.now (length out.old))) }
{
    let act = decide(link, shared, i, header, payload, out.len());
    let answer = tell(
        link,
        i,
        &act,
        header.service,
        consumed,
        grant.hash,
        payload,
        pool,
        out,
    );
    note(link, i, header, grant.hash, &act);
    answer
}

// A frame of a link within the rules: 11, an opening, 12, or its session's.
fn take(
    link: &mut [u8; LENGTH],
    seen: Overview,
    header: Header,
    extent: Extent,
    input: &[u8],
    grant: Grant,
    pool: &mut [u8],
    out: &mut [u8],
) -> Answer
    requires { (read_of input.now ≡ Frame header extent) × ((guard_of (link_of link.old) (length pool.old) grant ≡ true) × Surveyed (link_of link.old) seen) }
    ensures { left result link.new pool.new out.new ≡ left_by link.old (frame_of (link_of link.old) pool.old input.now out.old header extent grant) }
{
    if out.len() < LEAST_OUT {
        return Answer::Refused(refusal::TOO_SMALL);
    }
    let payload = frame::payload(input, extent);
    if is_opening(header) {
        return open(link, seen, extent.consumed, payload, grant, out);
    }
    if header.session.0 == 0 {
        return Answer::Refused(refusal::NOT_OPEN);
    }
    let Some(i) = rules::index_of(seen.ids, header.session) else {
        return Answer::Refused(refusal::NOT_OPEN);
    };
    let shared = Shares { all: seen.shared };
    within(
        link,
        shared,
        i,
        header,
        extent.consumed,
        payload,
        grant,
        pool,
        out,
    )
}

// The call: the frame at the front of the input is answered, and what follows it is not looked at. The contract tells the answer by document 01's number and
// values; it fixes the answer itself (`outcome_tells`, link/proofs/Values).
pub fn call(link: &mut [u8], pool: &mut [u8], input: &[u8], out: &mut [u8], grant: Grant) -> Answer
    ensures { outcome_of (left result link.new pool.new out.new) ≡ outcome_of (call_in link.old pool.old input.now out.old grant) }
{
    let Some(state) = link.as_mut_array() else {
        return Answer::Refused(refusal::BAD_SETTINGS);
    };
    if !state::is_state(state) {
        return Answer::Refused(refusal::BAD_SETTINGS);
    }
    let seen = rules::survey(state, pool.len(), grant);
    if !seen.fit {
        return Answer::Refused(refusal::BAD_SETTINGS);
    }
    match frame::read(input) {
        Reading::Short(needed) => Answer::Short(needed),
        Reading::Refused(refusal) => Answer::Refused(refusal),
        Reading::Frame(header, extent) => {
            take(state, seen, header, extent, input, grant, pool, out)
        }
    }
}

// Creation. A refusal leaves every byte.
pub fn create(link: &mut [u8], version: Version, mtu: u32) -> Result<(), Refusal>
    ensures created { made (refusal_in result) link.new ≡ create_in link.old version mtu }
    ensures refused { IfErr result (λ number. number ≡ bad_settings) }
{
    let Some(state) = link.as_mut_array() else {
        return Err(refusal::BAD_SETTINGS);
    };
    if !rules::settings_fit(version, mtu) {
        return Err(refusal::BAD_SETTINGS);
    }
    state::create(state, version, mtu);
    Ok(())
}
