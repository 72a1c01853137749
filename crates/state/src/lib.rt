// The link's state as lent bytes of a fixed layout: rows are read and put as values.
#![tactic(auto)]

ghost use Rattle.std.specs.Prelude.{◌≡◌, ◌<◌, ◌≤◌, ◌+◌, ◌*◌, not, map, eqb, length};
ghost use Rattle.numbers.specs.Bytes.{AreBytes, part, put_at, laid};
ghost use Rattle.numbers.specs.Numbers.{bytes_le};
ghost use Rattle.state.specs.Fields.{number_fields, put_from, number_at, flag_at, AllFit};
ghost use Rattle.state.specs.Layout.{kept, flags_in, message_of, row_of, head_fields, live_fields, service_fields, message_fields, all_message_fields, row_fields, row_place, row_in, link_of, with_row_bytes, Sound, HeadOf};
ghost use Rattle.state.specs.Calls.{is_state, with_owners_bytes, settings_bytes, created_bytes};
ghost use Rattle.blocks.specs.Map.{claimed, released};
ghost use Rattle.session.specs.Rows.{message_at};
ghost use Rattle.link.specs.State.{all, with_row};

use blocks::Owner;
use frame::{MessageId, SessionId};
use numbers::Number;
use payload::version::Version;
use session::{Reassembly, Row, Running};
use std::array;

// Bytes of the state.
pub const LENGTH: usize = 2688;

// The number of the layout that specs/Layout tells.
const LAYOUT: u8 = 1;

// Bytes of a row in use; behind these is room for a second message on each service.
pub const ROW: usize = 129;

// Where the blocks' owners start and the first row, and from each row's start to the next one's.
const OWNERS: usize = 544;

const ROWS: usize = 800;

const STRIDE: usize = 236;

// A row's number.
#[derive(Clone, Copy, PartialEq, Eq)]
pub struct RowNumber {
    pub number: usize,
    pub ghost below: { number < 8 },
}

// The bytes of a number are lent alone: so the compiler makes one load or store of them, with no test of the length.
fn number<N: Number>(s: &[u8], at: usize) -> N
    requires { at + N.WIDTH ≤ length s.now }
    ensures { N.value result ≡ number_at s.now at N.WIDTH }
{
    let end = at + N::WIDTH;
    numbers::le(&s[at..end], 0)
}

fn put<N: Number>(s: &mut [u8], at: usize, x: N)
    requires { at + N.WIDTH ≤ length s.old }
    ensures { s.new ≡ put_at s.old at N.WIDTH (bytes_le N.WIDTH (N.value x)) }
{
    let end = at + N::WIDTH;
    numbers::put_le(&mut s[at..end], 0, x);
}

// Any byte but 0 is a flag that is set.
fn flag(s: &[u8], at: usize) -> bool
    requires { at + 1 ≤ length s.now }
    ensures { result ≡ flag_at s.now at }
{
    number::<u8>(s, at) != 0
}

// A flag's byte: as it was where it says the same.
fn flag_byte(old: u8, flag: bool) -> u8
    ensures { (result ≡ kept old flag) × (kept old flag < 256) }
{
    if flag { old.max(1) } else { 0 }
}

// The flags' bytes of a row.
fn flags(row: &[u8; ROW]) -> [u8; 7]
    ensures { result ≡ flags_in row.now }
{
    array::from_fn(|k| number(row, 6 + k))
}

// The message at a place of a row's bytes. A place is a number and no type as a row's is: `session` promises answers of any place (`Row::dropped`).
fn message(row: &[u8; ROW], place: usize) -> Reassembly
    requires { place < 5 }
    ensures { result ≡ message_of row.now place }
{
    let id = 29 + place * 20;
    let total = id + 4;
    let count = total + 4;
    let frames = count + 4;
    let missing = frames + 4;
    Reassembly {
        live: flag(row, 6 + place),
        id: MessageId(number(row, id)),
        total: number(row, total),
        count: number(row, count),
        frames: number(row, frames),
        missing: number(row, missing),
    }
}

fn messages(row: &[u8; ROW]) -> [Reassembly; 5]
    ensures { result ≡ (row_of row.now).messages }
{
    array::from_fn(|place| message(row, place))
}

// A row of its bytes; any bytes are some row's.
pub fn read_row(row: &[u8; ROW]) -> Row
    ensures { result ≡ row_of row.now }
{
    Row {
        id: SessionId(number(row, 0)),
        guarantee: number(row, 2),
        cap: number(row, 4),
        version: number(row, 1),
        next: MessageId(number(row, 13)),
        hash: number(row, 17),
        audio: Running {
            on: flag(row, 11),
            hash: number(row, 21),
        },
        video: Running {
            on: flag(row, 12),
            hash: number(row, 25),
        },
        messages: messages(row),
    }
}

fn put_head(row: &mut [u8; ROW], value: Row)
    ensures { (row.new ≡ put_from 0 (head_fields value) row.old) × AllFit (head_fields value) }
{
    put(row, 0, value.id.0);
    put(row, 1, value.version);
    put(row, 2, value.guarantee);
    put(row, 4, value.cap);
}

fn put_lives(row: &mut [u8; ROW], old: [u8; 7], messages: [Reassembly; 5])
    ensures { (row.new ≡ put_from 6 (live_fields old messages) row.old) × (AllFit (live_fields old messages) × (length messages ≡ 5)) }
{
    for (place, message) in messages.iter().enumerate() {
        put(row, 6 + place, flag_byte(old[place], message.live));
    }
}

// Numbers one behind the other.
fn put_numbers(row: &mut [u8; ROW], at: usize, numbers: &[u32])
    requires { at + 4 * length numbers.now ≤ 129 }
    ensures { (row.new ≡ put_from at (number_fields numbers.now) row.old) × AllFit (number_fields numbers.now) }
{
    for (k, x) in numbers.iter().enumerate() {
        put(row, at + 4 * k, *x);
    }
}

fn put_services(row: &mut [u8; ROW], old: [u8; 7], value: Row)
    ensures { (row.new ≡ put_from 11 (service_fields old value) row.old) × AllFit (service_fields old value) }
{
    put(row, 11, flag_byte(old[5], value.audio.on));
    put(row, 12, flag_byte(old[6], value.video.on));
    put_numbers(
        row,
        13,
        &[value.next.0, value.hash, value.audio.hash, value.video.hash],
    );
}

fn put_message(row: &mut [u8; ROW], at: usize, message: Reassembly)
    requires { at + 20 ≤ 129 }
    ensures { (row.new ≡ put_from at (message_fields message) row.old) × AllFit (message_fields message) }
{
    put_numbers(
        row,
        at,
        &[
            message.id.0,
            message.total,
            message.count,
            message.frames,
            message.missing,
        ],
    );
}

fn put_messages(row: &mut [u8; ROW], messages: [Reassembly; 5])
    ensures { (row.new ≡ put_from 29 (all_message_fields messages) row.old) × AllFit (all_message_fields messages) }
{
    for (place, message) in messages.iter().enumerate() {
        put_message(row, 29 + place * 20, *message);
    }
}

// A slice and not an array of ROW bytes: where `put_row` made the array of a part of the state, no proof closed of what the state is then.
fn write_row(bytes: &mut [u8], value: Row)
    requires { length bytes.old ≡ 129 }
    ensures { (bytes.new ≡ put_from 0 (row_fields (flags_in bytes.old) value) bytes.old) × Sound (flags_in bytes.old) value }
{
    let Some(row) = bytes.as_mut_array() else {
        unreachable!()
    };
    let messages = value.messages;
    let old = flags(row);
    put_head(row, value);
    put_lives(row, old, messages);
    put_services(row, old, value);
    put_messages(row, messages);
}

// What a row without an open message is judged by.
#[derive(Clone, Copy)]
pub struct Head {
    pub id: SessionId,
    pub version: u8,
    pub guarantee: u16,
    pub cap: u16,
}

pub fn head_of(row: &[u8; ROW]) -> Head
    ensures { HeadOf (row_of row.now) result.id result.version result.guarantee result.cap }
{
    Head {
        id: SessionId(number(row, 0)),
        version: number(row, 1),
        guarantee: number(row, 2),
        cap: number(row, 4),
    }
}

// No message of a row is open: two numbers instead of five flags.
pub fn is_quiet(row: &[u8; ROW]) -> bool
    ensures { result ≡ all (λ m. not m.live) (row_of row.now).messages }
{
    (number::<u32>(row, 6) == 0) & (number::<u8>(row, 10) == 0)
}

// Row i's bytes.
pub fn row_bytes(state: &[u8; LENGTH], i: RowNumber) -> &[u8; ROW]
    ensures { result.now ≡ part state.now (row_place i.number) 129 }
{
    let at = ROWS + i.number * STRIDE;
    let end = at + ROW;
    state[at..end].as_array().unwrap()
}

// The rows' ids.
pub fn ids(state: &[u8; LENGTH]) -> [SessionId; 8]
    ensures { result ≡ map (λ row. row.id) (link_of state.now).rows }
{
    array::from_fn(|i| SessionId(number(state, ROWS + i * STRIDE)))
}

// Whether bytes are a state: their number, and the layout's. And they are bytes, for the caller's proof.
pub fn is_state(state: &[u8]) -> bool
    ensures { (result ≡ is_state state.now) × AreBytes state.now }
{
    if state.len() != LENGTH {
        return false;
    }
    number::<u8>(state, 0) == LAYOUT
}

// The module's own version, its major part alone, mtu, and the owners of the blocks.
pub fn version(state: &[u8; LENGTH]) -> Version
    ensures { result ≡ (link_of state.now).version }
{
    Version {
        major: number(state, 1),
        minor: number(state, 2),
        patch: number(state, 3),
    }
}

pub fn major(state: &[u8; LENGTH]) -> u8
    ensures { result ≡ (link_of state.now).version.major }
{
    number(state, 1)
}

pub fn mtu(state: &[u8; LENGTH]) -> u32
    ensures { result ≡ (link_of state.now).mtu }
{
    number(state, 4)
}

pub fn owners(state: &[u8; LENGTH]) -> &[u8; 256]
    ensures { result.now ≡ (link_of state.now).owners }
{
    state[OWNERS..ROWS].as_array().unwrap()
}

// Row i of a state.
pub fn row_at(state: &[u8; LENGTH], i: RowNumber) -> Row
    ensures { result ≡ row_in state.now i.number }
{
    read_row(row_bytes(state, i))
}

// The message at a place of row i.
pub fn message_at(state: &[u8; LENGTH], i: RowNumber, place: usize) -> Reassembly
    requires { place < 5 }
    ensures { result ≡ message_at (row_in state.now i.number) place }
{
    message(row_bytes(state, i), place)
}

// The state with row i as given.
pub fn put_row(state: &mut [u8; LENGTH], i: RowNumber, row: Row)
    ensures { (state.new ≡ with_row_bytes state.old i.number row) × (link_of state.new ≡ with_row (link_of state.old) i.number row) }
{
    let place = ROWS + i.number * STRIDE;
    let end = place + ROW;
    write_row(&mut state[place..end], row);
}

// The block map after a First Frame's blocks were claimed. How many blocks the search looked at ends here: it is no part of the state.
pub fn claim(state: &mut [u8; LENGTH], need: usize, mine: Owner)
    ensures { state.new ≡ with_owners_bytes state.old (claimed mine.0 need (link_of state.old).owners) }
{
    blocks::claim(&mut state[OWNERS..ROWS], need, mine);
}

// The block map after the owners from low to high gave up their blocks.
pub fn release(state: &mut [u8; LENGTH], low: Owner, high: Owner)
    ensures { state.new ≡ with_owners_bytes state.old (released low.0 high.0 (link_of state.old).owners) }
{
    blocks::release(&mut state[OWNERS..ROWS], low, high);
}

// The layout's number and the settings.
fn put_settings(state: &mut [u8; LENGTH], version: Version, mtu: u32)
    ensures { state.new ≡ laid (settings_bytes version mtu) state.old }
{
    state[0] = LAYOUT;
    state[1] = version.major;
    state[2] = version.minor;
    state[3] = version.patch;
    put(state, 4, mtu);
}

// A state without sessions, in which every block is free.
pub fn create(state: &mut [u8; LENGTH], version: Version, mtu: u32)
    ensures { state.new ≡ created_bytes version mtu }
{
    let free = blocks::free_map();
    put_settings(state, version, mtu);
    state[8..OWNERS].fill(0);
    state[OWNERS..ROWS].copy_from_slice(&free);
    state[ROWS..].fill(0);
}
