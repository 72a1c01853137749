// The reassembly room behind C functions: the way in for the comparison with an independent room and for its benchmark.
// It holds no rule: each function calls its namesake of `blocks` on lent bytes. A map of any length will do.
#![tactic(auto)]

ghost use Rattle.std.specs.Prelude.{◌≡◌};
ghost use Rattle.blocks.specs.Map.{needed_for, held_by, claimed, looked_for, released};
ghost use Rattle.blocks.specs.Pool.{appended, delivered};
ghost use Rattle.room.specs.Room.{place_in};

use blocks::Owner;

#[unsafe(no_mangle)]
pub extern "C" fn tilambok_room_needed(total: usize) -> usize
    ensures { result ≡ needed_for total }
{
    blocks::blocks_needed(total)
}

#[unsafe(no_mangle)]
pub extern "C" fn tilambok_room_held(map: &[u8], owner: u8) -> usize
    ensures { result ≡ held_by owner map.now }
{
    blocks::held(map, Owner(owner))
}

// How many blocks the search looked at.
#[unsafe(no_mangle)]
pub extern "C" fn tilambok_room_claim(map: &mut [u8], count: usize, owner: u8) -> usize
    ensures value { result ≡ looked_for count map.old }
    ensures map_after { map.new ≡ claimed owner count map.old }
{
    blocks::claim(map, count, Owner(owner))
}

#[unsafe(no_mangle)]
pub extern "C" fn tilambok_room_release(map: &mut [u8], low: u8, high: u8)
    ensures { map.new ≡ released low high map.old }
{
    blocks::release(map, Owner(low), Owner(high));
}

#[unsafe(no_mangle)]
pub extern "C" fn tilambok_room_append(
    map: &[u8],
    owner: u8,
    at: usize,
    payload: &[u8],
    pool: &mut [u8],
)
    ensures { pool.new ≡ appended owner at payload.now map.now pool.old }
{
    blocks::append(map, Owner(owner), at, payload, pool);
}

#[unsafe(no_mangle)]
pub extern "C" fn tilambok_room_deliver(
    map: &[u8],
    owner: u8,
    due: usize,
    pool: &[u8],
    out: &mut [u8],
)
    ensures { out.new ≡ delivered owner due map.now pool.now out.old }
{
    blocks::deliver(map, Owner(owner), due, pool, out);
}

// The number of an owner's n-th block, or the map's length if it has not so many.
#[unsafe(no_mangle)]
pub extern "C" fn tilambok_room_block(map: &[u8], owner: u8, n: usize) -> usize
    ensures { result ≡ place_in owner n map.now }
{
    blocks::nth_block(map, Owner(owner), n).map_or(map.len(), |block| block.0)
}
