// The open sessions of a link as text: the STATE of docs/DRIVER.md. They are read off the link's state, a row at a time.
// It assumes nothing of the state.
ghost use Rattle.std.specs.Prelude.{[], ◌∷◌, ◌++◌, nat_le};
ghost use Rattle.numbers.specs.Bytes.{pick};
ghost use Rattle.text.specs.Said.{Longer};
ghost use Rattle.state.specs.Layout.{link_of, row_in};
ghost use Rattle.driver.specs.States.{blocks_text, counts_text, message_text, messages_text, service_text, running_text, services_text, row_numbers, session_text, state_text};

use figures::service;
use frame::SessionId;
use session::{Reassembly, Row, Running};
use state::{LENGTH, RowNumber};
use text::Text;

// The numbers of an owner's blocks, joined by dots.
fn with_blocks(text: Text, owners: &[u8], owner: u8) -> Text
    ensures { Longer text (blocks_text owner owners.now) result }
{
    let start = text.end;
    let mut after = text;
    for (block, found) in owners.iter().enumerate() {
        if *found == owner {
            after = after.joint(start, b'.').decimal(block as u64);
        }
    }
    after.same()
}

// ID/TOTAL/COUNT/FRAMESTOCOME/BYTESMISSING/
fn with_counts(text: Text, message: Reassembly) -> Text
    ensures { Longer text (counts_text message) result }
{
    let mut after = text.number(b'/', message.id.0);
    after = after.number(b'/', message.total);
    after = after.number(b'/', message.count);
    after = after.number(b'/', message.frames);
    after = after.number(b'/', message.missing);
    after.byte(b'/')
}

// A message in a list that begins at `start`, if it is open: SERVICE, its numbers and its blocks.
fn with_message(
    text: Text,
    start: usize,
    message: Reassembly,
    service: u8,
    owners: &[u8],
    owner: u8,
) -> Text
    ensures { Longer text (pick message.live (pick (nat_le text.end start) [] (43 ∷ []) ++ message_text message service owners.now owner) []) result }
{
    if message.live {
        let listed = text.joint(start, b'+').pair(service);
        return with_blocks(with_counts(listed, message), owners, owner);
    }
    text.same()
}

// The open messages of row i; the blocks of its message at a place have the owner 1 + 5 * i + place.
fn with_messages(text: Text, row: Row, i: RowNumber, owners: &[u8]) -> Text
    ensures { Longer text (messages_text i.number owners.now row.messages) result }
{
    let start = text.end;
    let mut after = text;
    for (place, message) in row.messages.iter().enumerate() {
        let owner = (1 + 5 * i.number + place) as u8;
        after = with_message(after, start, *message, service::ALL[place], owners, owner);
    }
    after.listed(start)
}

// A service and the hash of its start.
fn with_service(text: Text, before: u8, service: u8, hash: u32) -> Text
    ensures { Longer text (service_text before service hash) result }
{
    text.byte(before).pair(service).number(b'=', hash)
}

// A service, if it runs.
fn with_running(text: Text, service: u8, running: Running) -> Text
    ensures { Longer text (running_text service running) result }
{
    if running.on {
        return with_service(text, b'+', service, running.hash);
    }
    text.same()
}

// The services that run; 07 runs as long as the session.
fn with_services(text: Text, row: Row) -> Text
    ensures { Longer text (services_text row) result }
{
    let rpc = with_service(text, b',', service::RPC, row.hash);
    let audio = with_running(rpc, service::AUDIO, row.audio);
    with_running(audio, service::VIDEO, row.video)
}

// id,G,C,version,next
fn with_numbers(text: Text, row: Row) -> Text
    ensures { Longer text (row_numbers row) result }
{
    let mut after = text.decimal(row.id.0);
    after = after.number(b',', row.guarantee);
    after = after.number(b',', row.cap);
    after = after.number(b',', row.version);
    after.number(b',', row.next.0)
}

// Row i in a list that begins at `start`: id,G,C,version,next,services,held,messages
fn with_session(text: Text, start: usize, link: &[u8; LENGTH], i: RowNumber) -> Text
    ensures { Longer text (pick (nat_le text.end start) [] (59 ∷ []) ++ session_text (row_in link.now i.number) i.number (link_of link.now).owners) result }
{
    let row = state::row_at(link, i);
    let numbers = with_numbers(text.joint(start, b';'), row);
    let services = with_services(numbers, row);
    let held = services.number(b',', session::held(row) as u64);
    with_messages(held.byte(b','), row, i, state::owners(link))
}

// The open sessions by rising id, joined by semicolons.
pub fn with_sessions(text: Text, link: &[u8; LENGTH]) -> Text
    ensures { Longer text (state_text (link_of link.now)) result }
{
    let ids = state::ids(link);
    let start = text.end;
    let mut after = text;
    for id in 1..=255 {
        if let Some(i) = rules::index_of(ids, SessionId(id)) {
            after = with_session(after, start, link, i);
        }
    }
    after.listed(start)
}
