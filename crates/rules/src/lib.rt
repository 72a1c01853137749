// The link's state rules, in code: refusal 10 of document 01, and what a call looks up in the table of rows.
// It reads the state's lent bytes and changes nothing; it knows no frame and no pool but its length. One function, `survey`, goes over the rows once.
// Tests of all rows, ids, messages or owners go on after a failure: such a loop has no branch on what it tests.
#![tactic(auto)]

ghost use Rattle.std.specs.Prelude.{◌≡◌, ◌+◌, ◌<◌, ◌≤◌, true, ◌||◌, eqb, length, MatchOption};
ghost use Rattle.blocks.specs.Map.{free_in};
ghost use Rattle.session.specs.Decide.{held_of, share_of};
ghost use Rattle.link.specs.State.{all, all_from, settings_fit, room_fits, version_allowed, service_at, message_fits, unsettled_fits, free_fits, grant_fits, guard_of};
ghost use Rattle.state.specs.Layout.{row_of, link_of};
ghost use Rattle.rules.specs.Parts.{none_live, session_fits, ids_of, index_in, lowest_unused, missing_in, distinct_in, holds_need, open_fit, row_sound, of_session, share_sum, Looked, Summed, Surveyed};

use blocks::Owner;
use figures::service;
use frame::{ServiceType, SessionId};
use link::Grant;
use payload::version::Version;
use session::{Reassembly, Row};
use state::{LENGTH, ROW, RowNumber};

// The id of a free row.
const FREE: SessionId = SessionId(0);

// Where an id stands among the rows' ids.
pub fn index_of(ids: [SessionId; 8], id: SessionId) -> Option<RowNumber>
    ensures { MatchOption result (index_in id ids ≡ 8) (λ i. i.number ≡ index_in id ids) }
{
    for (number, one) in ids.iter().enumerate() {
        if *one == id {
            return Some(RowNumber { number });
        }
    }
    None
}

// The lowest id from 1 to 255 that no row has; 0 if each has a row, which eight rows cannot bring about: no Option, since `lowest_unused` gives an id.
pub fn lowest_free(ids: [SessionId; 8]) -> SessionId
    ensures { result ≡ lowest_unused 255 1 ids }
{
    for number in 1..=255 {
        let id = SessionId(number);
        if index_of(ids, id).is_none() {
            return id;
        }
    }
    FREE
}

// Whether a link may have this version and mtu.
#[tactic(auto, unfolding(link::specs::State::settings_fit))]
pub fn settings_fit(version: Version, mtu: u32) -> bool
    ensures { result ≡ settings_fit version mtu }
{
    (1 <= version.major) & ((version.major <= 5) & ((1500 <= mtu) & (mtu <= 131084)))
}

// With G ≤ C ≤ 256.
#[tactic(auto, unfolding(link::specs::State::grant_fits))]
fn grant_fits(grant: Grant) -> bool
    ensures { result ≡ grant_fits grant }
{
    (grant.guarantee <= grant.cap) & (grant.cap <= 256)
}

// Whether none of these ids is this one.
fn is_missing(ids: &[SessionId], id: SessionId) -> bool
    ensures { result ≡ missing_in id ids.now }
{
    let mut missing = true;
    for one in ids {
        missing &= *one != id;
    }
    missing
}

// Whether an id is not found again among those behind it; a free row has none to be found.
fn is_once(id: SessionId, behind: &[SessionId]) -> bool
    ensures { result ≡ (eqb id.0 0 || missing_in id behind.now) }
{
    if id == FREE {
        return true;
    }
    is_missing(behind, id)
}

// A row that is not free has an id that no later row has.
fn distinct(ids: [SessionId; 8]) -> bool
    ensures { result ≡ distinct_in ids }
{
    let mut apart = true;
    for (i, id) in ids.iter().enumerate() {
        apart &= is_once(*id, &ids[i + 1..]);
    }
    apart
}

// G ≤ C ≤ 256, and no more held than C.
#[tactic(auto, unfolding(link::specs::State::room_fits))]
fn room_fits(row: Row) -> bool
    ensures { result ≡ room_fits row }
{
    (row.guarantee <= row.cap) & ((row.cap <= 256) & (session::held(row) <= usize::from(row.cap)))
}

// Unsettled, or a version that an opening under the module's major one allows.
#[tactic(auto, unfolding(link::specs::State::version_allowed))]
fn version_allowed(major: u8, version: u8) -> bool
    ensures { result ≡ version_allowed major version }
{
    (version <= major.min(4)) | ((major == 5) & (version == 5))
}

#[tactic(auto, unfolding(link::specs::State::service_at))]
fn service_at(place: usize) -> u8
    ensures { result ≡ service_at place }
{
    service::ALL.get(place).copied().unwrap_or(0)
}

// An open message is on a running service, with totals as 18 allows and as much to come as its frames can carry.
#[tactic(auto, unfolding(link::specs::State::message_fits))]
fn message_fits(row: Row, place: usize, message: Reassembly) -> bool
    ensures { result ≡ message_fits row place message }
{
    if !message.live {
        return true;
    }
    session::runs(row, row.version, ServiceType(service_at(place)))
        & (frame::totals_fit(message.total as usize, message.count as usize)
            & ((1 <= message.frames)
                & ((message.frames <= message.count)
                    & ((message.frames <= message.missing) & (message.missing <= message.total)))))
}

fn messages_fit(row: Row, messages: [Reassembly; 5]) -> bool
    ensures { result ≡ all_from 0 (message_fits row) messages }
{
    let mut fit = true;
    for (place, message) in messages.iter().enumerate() {
        fit &= message_fits(row, place, *message);
    }
    fit
}

fn none_live(messages: [Reassembly; 5]) -> bool
    ensures { result ≡ none_live messages }
{
    let mut none = true;
    for message in &messages {
        none &= !message.live;
    }
    none
}

// An unsettled row has no open message.
#[tactic(auto, unfolding(link::specs::State::unsettled_fits))]
fn unsettled_fits(row: Row) -> bool
    ensures { result ≡ unsettled_fits row }
{
    (row.version != 0) | none_live(row.messages)
}

// A free row is as creation made it.
#[tactic(auto, unfolding(link::specs::State::free_fits))]
fn free_fits(row: Row) -> bool
    ensures { result ≡ free_fits row }
{
    (row.guarantee == 0) & ((row.cap == 0) & none_live(row.messages))
}

// What a session's row keeps besides its blocks.
fn session_fits(major: u8, row: Row) -> bool
    ensures { result ≡ session_fits major row }
{
    room_fits(row)
        & (version_allowed(major, row.version)
            & (unsettled_fits(row) & messages_fit(row, row.messages)))
}

// An open message holds as many blocks as it needs. What is not open is not looked up in the map: `survey` says why.
#[tactic(auto, unfolding(crate::specs::Parts::holds_need))]
fn holds_need(map: &[u8], owner: Owner, message: Reassembly) -> bool
    ensures { result ≡ holds_need map.now owner.0 message }
{
    if !message.live {
        return true;
    }
    blocks::held(map, owner) == session::need_of(message.total)
}

// Each of row i's open messages holds as many blocks as it needs.
#[tactic(auto, unfolding(link::specs::State::owner_of))]
fn blocks_fit(map: &[u8], i: RowNumber, messages: [Reassembly; 5]) -> bool
    ensures { result ≡ open_fit map.now i.number messages }
{
    let mut fit = true;
    for (place, message) in messages.iter().enumerate() {
        let owner = Owner((1 + (i.number * 5 + place)) as u8);
        fit &= holds_need(map, owner, *message);
    }
    fit
}

// What a row comes to, or all rows: what is held and shared is told where it does not fit, too (`Looked`, `Summed`).
#[derive(Clone, Copy)]
struct Sums {
    fit: bool,
    held: usize,
    shared: usize,
}

// A row with open messages. A free one has none that fits, so its blocks need no look, and what its messages need is not counted.
#[tactic(auto, unfolding(crate::specs::Parts::row_sound, crate::specs::Parts::of_session))]
fn look_open(major: u8, map: &[u8], i: RowNumber, row: Row) -> Sums
    ensures { Looked major map.now i.number row result.fit result.held result.shared }
{
    if row.id == FREE {
        return Sums {
            fit: free_fits(row),
            held: 0,
            shared: 0,
        };
    }
    Sums {
        fit: blocks_fit(map, i, row.messages) & session_fits(major, row),
        held: session::held(row),
        shared: session::share(row),
    }
}

// Row i by its bytes. Where no message is open, neither messages nor blocks are looked at.
fn look(major: u8, map: &[u8], i: RowNumber, bytes: &[u8; ROW]) -> Sums
    ensures { Looked major map.now i.number (row_of bytes.now) result.fit result.held result.shared }
{
    if !state::is_quiet(bytes) {
        return look_open(major, map, i, state::read_row(bytes));
    }
    let head = state::head_of(bytes);
    if head.id == FREE {
        return Sums {
            fit: (head.guarantee == 0) & (head.cap == 0),
            held: 0,
            shared: 0,
        };
    }
    Sums {
        fit: (head.guarantee <= head.cap)
            & ((head.cap <= 256) & version_allowed(major, head.version)),
        held: 0,
        shared: usize::from(head.guarantee),
    }
}

// One pass over the rows.
fn sum_rows(link: &[u8; LENGTH]) -> Sums
    ensures { Summed (link_of link.now) result.fit result.held result.shared }
{
    let major = state::major(link);
    let owners = state::owners(link);
    let mut fit = true;
    let mut held: usize = 0;
    let mut shared: usize = 0;
    for number in 0..8 {
        let i = RowNumber { number };
        let one = look(major, owners, i, state::row_bytes(link, i));
        fit &= one.fit;
        held += one.held;
        shared += one.shared;
    }
    Sums { fit, held, shared }
}

// Whether every block is free.
fn all_free(map: &[u8]) -> bool
    ensures { result ≡ all (λ owner. eqb owner 0) map.now }
{
    let mut free = true;
    for owner in map {
        free &= *owner == 0;
    }
    free
}

// Whether so many blocks and the free ones make 256. Where none is held all must be free, which is seen faster than counted.
fn rest_free(map: &[u8; 256], held: usize) -> bool
    requires { held ≤ 671088640 }
    ensures { result ≡ eqb (held + free_in map.now) 256 }
{
    if held == 0 {
        return all_free(map);
    }
    held + blocks::free_count(map) == 256
}

// What a call needs to know of all rows.
#[derive(Clone, Copy)]
pub struct Overview {
    // refusal 10 is not earned: no Option, since `survey` promises the rest of every link
    pub fit: bool,
    // the sum over sessions of the larger of held and guaranteed
    pub shared: usize,
    // the rows' ids
    pub ids: [SessionId; 8],
}

// Whether refusal 10 is earned: the pool's length, the settings, the offer and the state are as they must be, or not. If each open message holds
// what it needs, and these blocks and the free ones are the whole map, no other owner has any.
pub fn survey(link: &[u8; LENGTH], pool: usize, grant: Grant) -> Overview
    ensures { (result.fit ≡ guard_of (link_of link.now) pool grant)
        × ((result.shared ≡ share_sum (link_of link.now).rows)
        × ((result.ids ≡ ids_of (link_of link.now).rows)
        × (result.fit ≡ true → Surveyed (link_of link.now) result))) }
{
    let version = state::version(link);
    let sums = sum_rows(link);
    let ids = state::ids(link);
    let rest = rest_free(state::owners(link), sums.held);
    let sound = distinct(ids) & (sums.fit & ((sums.shared <= 256) & rest));
    Overview {
        fit: (pool == 65536)
            & (settings_fit(version, state::mtu(link)) & (grant_fits(grant) & sound)),
        shared: sums.shared,
        ids,
    }
}
