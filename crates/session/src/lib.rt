// One session: its row by value, the row's methods, and what a frame makes of it.
// This crate knows one row and no other, no block map and no pool: that sessions cannot disturb each other is visible in its types.
#![tactic(auto)]

ghost use Rattle.std.specs.Prelude.{◌≡◌, ◌+◌, ◌-◌, ◌^◌, ◌<◌, ◌≤◌, min, max, Bool, length};
ghost use Rattle.std.specs.Result.{IfErr};
ghost use Rattle.figures.specs.Refusal.{refusal_in};
ghost use Rattle.session.specs.Rules.{reply_version, version_fits, mtu_fits, is_running, service_fits, takes_beats, command_fits, barred_by};
ghost use Rattle.session.specs.Decide.{place_of, need_of, message_blocks, held_in, held_of, share_of, first_of, due_number, sized, next_for, single_of, startable, starting_of, endable, hash_of, ending_of, control_of, row_after};
ghost use Rattle.session.specs.Rows.{message_at, no_reassembly, free_row, opened_row, acked_row, settled_row, admitted_row, fed_row, dropped_row, with_service, with_message_at, started_row, stopped_row, closed_row};

use figures::refusal::{self, Refusal};
use figures::{command, frame_type, service};
use frame::{Header, MessageId, ServiceType, SessionId};

// A session's messages, one for each service.
const PLACES: usize = service::ALL.len();

// A message of which frames are still to come. Where none is open the calls leave all numbers 0, but a lent state may hold any: no Option, since a row that
// is put back leaves every byte that it was read from, those of a message that is not open too (`stored_same`, state/proofs/Stored).
#[derive(Clone, Copy, Default)]
pub struct Reassembly {
    pub live: bool,
    pub id: MessageId,
    // its bytes in all, and its consecutive frames in all, as its First Frame told
    pub total: u32,
    pub count: u32,
    // frames and bytes still to come
    pub frames: u32,
    pub missing: u32,
}

// Whether a service runs, and the hash of its start: no Option, as above.
#[derive(Clone, Copy, Default)]
pub struct Running {
    pub on: bool,
    pub hash: u32,
}

// A session, or a free row: id 0. Neither that nor a version of 0 is an Option, for the reason above: a free row's bytes stay too.
#[derive(Clone, Copy, Default)]
pub struct Row {
    pub id: SessionId,
    // blocks: what is set aside for it, and the most that it may hold
    pub guarantee: u16,
    pub cap: u16,
    // the settled protocol version, 0 while unsettled
    pub version: u8,
    // the message id of its next counted ACK
    pub next: MessageId,
    // the hash of service 07, which runs as long as the session
    pub hash: u32,
    pub audio: Running,
    pub video: Running,
    // one place for each service: 00, 07, 0A, 0B, 0F
    pub messages: [Reassembly; PLACES],
}

// What a control frame's payload says of a hash: in version 5 its tags, below its four raw bytes.
#[derive(Clone, Copy)]
pub struct Said {
    // no Result: `control` (docs/CLAIMS) promises an answer for a hash that stands in what is not readable, too
    pub readable: bool,
    pub hash: Option<u32>,
}

// What is to be done about a frame. No Result: what is refused can change the row too (`Drop`), and every decision goes on to the same two steps.
#[derive(Clone, Copy)]
pub enum Act {
    // refused, and nothing changes
    Refuse(Refusal),
    // refused, and the message on the frame's service is dropped
    Drop(Refusal),
    // accepted silently
    Accept,
    // answered by a Heartbeat ACK
    Beat,
    // a service starts, or it does not
    Start,
    NoStart,
    // a service stops, the session closes, or neither; then whether the NAK names the hash id
    Stop,
    Close,
    NoEnd(bool),
    // a First Frame is admitted: total and count
    Claim(u32, u32),
    // a payload goes behind what is there; so does the last one, and the message is delivered
    Append,
    Deliver,
    // a Single Frame's payload is delivered
    Single,
}

pub fn no_reassembly() -> Reassembly
    ensures { result ≡ no_reassembly }
{
    Reassembly::default()
}

impl Row {
    // A row that no session has.
    pub fn free() -> Row
        ensures { result ≡ free_row }
    {
        Row::default()
    }

    // The row of a session that was just opened; its opening's ACK has the number 1.
    pub fn opened(id: SessionId, guarantee: u16, cap: u16, version: u8, hash: u32) -> Row
        ensures { result ≡ opened_row id guarantee cap version hash }
    {
        Row {
            id,
            guarantee,
            cap,
            version,
            next: MessageId(2),
            hash,
            ..Row::free()
        }
    }

    // After an ACK that is counted.
    pub fn acked(mut self) -> Row
        ensures { result ≡ acked_row self }
    {
        self.next = MessageId(self.next.0.wrapping_add(1));
        self
    }

    // After the first accepted frame of type 1 or 2 has fixed the version.
    #[tactic(auto, unfolding(crate::specs::Rows::settled_row))]
    pub fn settled(mut self, version: u8) -> Row
        ensures { result ≡ settled_row self version }
    {
        if self.version == 0 {
            self.version = version;
        }
        self
    }

    // With another message at a place, where there is such a place.
    #[tactic(auto, unfolding(crate::specs::Rows::with_message_at))]
    fn with_message_at(mut self, place: usize, message: Reassembly) -> Row
        ensures { result ≡ with_message_at self place message }
    {
        if place < PLACES {
            self.messages[place] = message;
        }
        self
    }

    // After the admission of a message at a place.
    pub fn admitted(self, place: usize, id: MessageId, total: u32, count: u32) -> Row
        ensures { result ≡ admitted_row self place id total count }
    {
        let message = Reassembly {
            live: true,
            id,
            total,
            count,
            frames: count,
            missing: total,
        };
        self.with_message_at(place, message)
    }

    // After a consecutive frame with so many bytes for the message at a place, which is not its last.
    pub fn fed(self, place: usize, size: u32) -> Row
        ensures { result ≡ fed_row self place size }
    {
        let mut message = self.messages.get(place).copied().unwrap_or_default();
        message.frames = message.frames.saturating_sub(1);
        message.missing = message.missing.saturating_sub(size);
        self.with_message_at(place, message)
    }

    // Audio or video as given; no other service has a field.
    #[tactic(auto, unfolding(crate::specs::Rows::with_service))]
    fn with_service(mut self, service: ServiceType, running: Running) -> Row
        ensures { result ≡ with_service self service running }
    {
        match service.0 {
            service::AUDIO => self.audio = running,
            service::VIDEO => self.video = running,
            _ => {}
        }
        self
    }

    // After an acknowledged Start of audio or video.
    pub fn started(self, service: ServiceType, hash: u32) -> Row
        ensures { result ≡ started_row self service hash }
    {
        self.with_service(service, Running { on: true, hash })
    }

    // After an acknowledged End of audio or video.
    pub fn stopped(self, service: ServiceType) -> Row
        ensures { result ≡ stopped_row self service }
    {
        self.with_service(service, Running::default())
    }

    // After the message at a place was delivered or dropped.
    pub fn dropped(self, place: usize) -> Row
        ensures { result ≡ dropped_row self place }
    {
        self.with_message_at(place, no_reassembly())
    }

    // After the session's close, whatever it held: a free row.
    pub fn closed(self) -> Row
        ensures { result ≡ closed_row self }
    {
        Row::free()
    }
}

// Below a row comes first and a header second, in functions and not in methods: they are known by these names (docs/CLAIMS).
// The version of replies in a session; major is the module's own.
#[tactic(auto, unfolding(crate::specs::Rules::reply_version))]
pub fn reply_version(row: Row, major: u8) -> u8
    ensures { result ≡ reply_version major row }
{
    if row.version == 0 {
        major.min(4)
    } else {
        row.version
    }
}

#[tactic(auto, unfolding(crate::specs::Rules::version_fits))]
fn version_fits(row: Row, major: u8, version: u8) -> bool
    ensures { result ≡ version_fits major row version }
{
    if row.version == 0 {
        version <= major.min(4)
    } else {
        version == row.version
    }
}

#[tactic(auto, unfolding(crate::specs::Rules::mtu_fits))]
fn mtu_fits(row: Row, mtu: u32, size: u32) -> bool
    ensures { result ≡ mtu_fits mtu row size }
{
    if row.version == 5 {
        return size <= mtu.saturating_sub(12);
    }
    true
}

// Whether a service runs: 00 and 07 always do, 0F from version 2 on.
#[tactic(auto, unfolding(crate::specs::Rules::is_running))]
pub fn runs(row: Row, version: u8, service: ServiceType) -> bool
    ensures { result ≡ is_running row version service.0 }
{
    match service.0 {
        service::AUDIO => row.audio.on,
        service::VIDEO => row.video.on,
        service::BULK => 2 <= version,
        _ => true,
    }
}

#[tactic(auto, unfolding(crate::specs::Rules::service_fits))]
fn service_fits(row: Row, header: Header) -> bool
    ensures { result ≡ service_fits row header }
{
    (header.kind == frame_type::CONTROL) || runs(row, header.version, header.service)
}

#[tactic(auto, unfolding(crate::specs::Rules::takes_beats))]
fn beats(row: Row, header: Header) -> bool
    ensures { result ≡ takes_beats row header }
{
    (header.service.0 == service::CONTROL) & (3 <= row.version)
}

#[tactic(auto, unfolding(crate::specs::Rules::command_fits))]
fn command_fits(row: Row, header: Header) -> bool
    ensures { result ≡ command_fits row header }
{
    if header.kind != frame_type::CONTROL {
        return true;
    }
    match header.info {
        command::START | command::END => true,
        command::HEARTBEAT | command::HEARTBEAT_ACK => beats(row, header),
        _ => false,
    }
}

// The lowest of the refusals 13 to 17 that a frame earns in a session.
#[tactic(auto, unfolding(crate::specs::Rules::barred_by))]
pub fn barred_by(row: Row, header: Header, major: u8, mtu: u32) -> Result<(), Refusal>
    ensures lowest { refusal_in result ≡ barred_by major mtu row header }
    ensures numbered { IfErr result (λ number. 13 ≤ number) }
{
    if header.flag {
        return Err(refusal::ENCRYPTED);
    }
    if !version_fits(row, major, header.version) {
        return Err(refusal::OTHER_VERSION);
    }
    if !mtu_fits(row, mtu, header.size) {
        return Err(refusal::ABOVE_MTU);
    }
    if !service_fits(row, header) {
        return Err(refusal::NOT_RUNNING);
    }
    if !command_fits(row, header) {
        return Err(refusal::NOT_SERVED);
    }
    Ok(())
}

// A service's place among a row's messages.
#[tactic(auto, unfolding(crate::specs::Decide::place_of))]
pub fn place_of(service: ServiceType) -> usize
    ensures { (result ≡ place_of service.0) × (result < 5) }
{
    match service.0 {
        service::CONTROL => 0,
        service::RPC => 1,
        service::AUDIO => 2,
        service::VIDEO => 3,
        _ => 4,
    }
}

// The blocks that so many bytes need.
#[tactic(auto, unfolding(crate::specs::Decide::need_of))]
pub fn need_of(total: u32) -> usize
    ensures { (result ≡ need_of total) × (result ≤ 16777216) }
{
    (total as usize + 255) / 256
}

#[tactic(auto, unfolding(crate::specs::Decide::message_blocks))]
fn need_of_message(message: Reassembly) -> usize
    ensures { (result ≡ message_blocks message) × (result ≤ 16777216) }
{
    if message.live {
        need_of(message.total)
    } else {
        0
    }
}

#[tactic(auto, unfolding(crate::specs::Decide::held_in))]
fn held_in(messages: [Reassembly; PLACES]) -> usize
    ensures { (result ≡ held_in messages) × (result ≤ 83886080) }
{
    let mut sum = 0;
    for message in &messages {
        sum += need_of_message(*message);
    }
    sum
}

// The blocks that a session's open messages hold.
pub fn held(row: Row) -> usize
    ensures { (result ≡ held_of row) × (result ≤ 83886080) }
{
    held_in(row.messages)
}

// The larger of held and guaranteed.
pub fn share(row: Row) -> usize
    ensures { (result ≡ share_of row) × (result ≤ 83886080) }
{
    held(row).max(usize::from(row.guarantee))
}

// The message on a header's service.
fn message_of(row: Row, header: Header) -> Reassembly
    ensures { result ≡ message_at row (place_of header.service.0) }
{
    row.messages[place_of(header.service)]
}

// A First Frame: 18 to 21. `others` is the room that the other sessions take.
#[tactic(auto, unfolding(crate::specs::Decide::first_of))]
pub fn first(row: Row, others: u32, header: Header, total: u32, count: u32) -> Act
    ensures { result ≡ first_of row others header total count }
{
    if !frame::totals_fit(total as usize, count as usize) {
        return Act::Refuse(refusal::BAD_TOTALS);
    }
    if message_of(row, header).live {
        return Act::Refuse(refusal::ALREADY_OPEN);
    }
    let after = held(row) + need_of(total);
    if usize::from(row.cap) < after {
        return Act::Refuse(refusal::ABOVE_CAP);
    }
    if 256 < others as usize + after.max(usize::from(row.guarantee)) {
        return Act::Refuse(refusal::NO_ROOM);
    }
    Act::Claim(total, count)
}

// The number that a message's next frame carries.
#[tactic(auto, unfolding(crate::specs::Decide::due_number))]
fn due_number(message: Reassembly) -> usize
    ensures { result ≡ due_number message }
{
    let come = message.count.saturating_sub(message.frames);
    frame::frame_number(come as usize + 1, message.count as usize)
}

// Whether a payload's size fits what is missing.
#[tactic(auto, unfolding(crate::specs::Decide::sized))]
fn sizes_fit(message: Reassembly, size: u32) -> bool
    ensures { result ≡ sized message size }
{
    if message.missing < size {
        return false;
    }
    if message.missing - size < message.frames.saturating_sub(1) {
        return false;
    }
    if message.frames == 1 {
        return message.missing == size;
    }
    true
}

// A consecutive frame of a message: 22 to 25, and 11 where the last one finds too little room in out.
#[tactic(auto, unfolding(crate::specs::Decide::next_for))]
pub fn next_for(message: Reassembly, room: usize, header: Header) -> Act
    ensures { result ≡ next_for message room header }
{
    if !message.live {
        return Act::Refuse(refusal::NO_MESSAGE);
    }
    if header.message != message.id {
        return Act::Refuse(refusal::OTHER_MESSAGE);
    }
    if usize::from(header.info) != due_number(message) {
        return Act::Drop(refusal::BAD_FRAME_NUMBER);
    }
    if !sizes_fit(message, header.size) {
        return Act::Drop(refusal::BAD_FRAME_SIZE);
    }
    if message.frames != 1 {
        return Act::Append;
    }
    if room < message.total as usize {
        return Act::Refuse(refusal::TOO_SMALL);
    }
    Act::Deliver
}

// A Single Frame: 11 where out has too little room.
#[tactic(auto, unfolding(crate::specs::Decide::single_of))]
pub fn single(room: usize, header: Header) -> Act
    ensures { result ≡ single_of room header }
{
    if room < header.size as usize {
        Act::Refuse(refusal::TOO_SMALL)
    } else {
        Act::Single
    }
}

#[tactic(auto, unfolding(crate::specs::Decide::startable))]
fn is_startable(row: Row, service: ServiceType) -> bool
    ensures { result ≡ startable row service.0 }
{
    (3 <= row.version)
        & match service.0 {
            service::AUDIO => !row.audio.on,
            service::VIDEO => !row.video.on,
            _ => false,
        }
}

#[tactic(auto, unfolding(crate::specs::Decide::starting_of))]
fn start(row: Row, header: Header, said: Said) -> Act
    ensures { result ≡ starting_of row header said }
{
    if is_startable(row, header.service) & ((row.version != 5) | said.readable) {
        Act::Start
    } else {
        Act::NoStart
    }
}

#[tactic(auto, unfolding(crate::specs::Decide::endable))]
fn is_endable(row: Row, service: ServiceType) -> bool
    ensures { result ≡ endable row service.0 }
{
    match service.0 {
        service::RPC => true,
        service::AUDIO => row.audio.on,
        service::VIDEO => row.video.on,
        _ => false,
    }
}

#[tactic(auto, unfolding(crate::specs::Decide::hash_of))]
fn hash_of(row: Row, service: ServiceType) -> u32
    ensures { result ≡ hash_of row service.0 }
{
    match service.0 {
        service::AUDIO => row.audio.hash,
        service::VIDEO => row.video.hash,
        _ => row.hash,
    }
}

#[tactic(auto, unfolding(crate::specs::Decide::ending_of))]
fn end(row: Row, header: Header, said: Said) -> Act
    ensures { result ≡ ending_of row header said }
{
    if !is_endable(row, header.service) {
        return Act::NoEnd(false);
    }
    if said.hash != Some(hash_of(row, header.service)) {
        return Act::NoEnd(row.version == 5);
    }
    if header.service.0 == service::RPC {
        Act::Close
    } else {
        Act::Stop
    }
}

// A control frame that 17 lets through.
#[tactic(auto, unfolding(crate::specs::Decide::control_of))]
pub fn control(row: Row, header: Header, said: Said) -> Act
    ensures { result ≡ control_of row header said }
{
    match header.info {
        command::START => start(row, header, said),
        command::END => end(row, header, said),
        command::HEARTBEAT => Act::Beat,
        _ => Act::Accept,
    }
}

// The row after a decision; hash is the offer's.
pub fn row_after(row: Row, header: Header, hash: u32, act: Act) -> Row
    ensures { result ≡ row_after row header hash act }
{
    let place = place_of(header.service);
    match act {
        Act::Refuse(_) | Act::Accept | Act::Beat | Act::NoStart | Act::NoEnd(_) => row,
        Act::Drop(_) | Act::Deliver => row.dropped(place),
        Act::Start => row.started(header.service, hash).acked(),
        Act::Stop => row.dropped(place).stopped(header.service).acked(),
        Act::Close => row.closed(),
        Act::Claim(total, count) => row
            .admitted(place, header.message, total, count)
            .settled(header.version),
        Act::Append => row.fed(place, header.size),
        Act::Single => row.settled(header.version),
    }
}
