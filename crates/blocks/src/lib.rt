// The shared reassembly room: a lent pool of bytes in blocks of 256, and a map that says of each block whose it is.
// It knows no session, no message and no frame: owners are numbers, and bytes are bytes.
// Every public function answers every map, pool and number: it stops where blocks, pool or buffer run out, as its definition says.
#![tactic(auto)]

ghost use Rattle.std.specs.Prelude.{◌≡◌, ◌+◌, ◌*◌, ◌≤◌, ◌<◌, min, eqb, ltb, leb, ◌&&◌, ◌++◌, length, take, drop};
ghost use denote.Ref.{at_last};
ghost use Rattle.numbers.specs.Bytes.{pick};
ghost use Rattle.blocks.specs.Map.{block_size, free, needed_for, free_map, held_by, free_in, claimed, looked_for, released, nth_from, nth_block, found_at};
ghost use Rattle.blocks.specs.Pool.{Sized, over, appended, appended_from, delivered, delivered_from};

// A block's place in the pool: block b has the BLOCK_SIZE bytes from BLOCK_SIZE * b on.
#[derive(Clone, Copy, PartialEq, Eq)]
pub struct BlockNumber(pub usize);

// Whose a block is; FREE is nobody's.
#[derive(Clone, Copy, PartialEq, Eq)]
pub struct Owner(pub u8);

// The block to look from, and how many of an owner's blocks still lie before the one looked for.
#[derive(Drop)]
struct Skipped {
    from: BlockNumber,
    left: usize,
}

// What a search for a free block came to: the block, or none up to the map's end, and how many blocks have been looked at by then.
#[derive(Drop)]
struct Sought {
    block: Option<BlockNumber>,
    looked: usize,
}

// Bytes of a block.
pub const BLOCK_SIZE: usize = 256;

// Blocks of the whole pool.
pub const BLOCK_COUNT: usize = 256;

// The owner number of a free block.
pub const FREE: u8 = 0;

// Half the bytes of a block.
const HALF: usize = 128;

// Entries of the map that are counted at once: few enough for a count of one byte, so that sixteen of them are compared in one step.
const GROUP: usize = 64;

// Entries of the map that are looked through one by one, and those that are claimed in one step.
const FEW: usize = 16;

// The map in which every block is free.
#[tactic(auto, unfolding(crate::specs::Map::free_map))]
pub fn free_map() -> [u8; BLOCK_COUNT]
    ensures { result ≡ free_map }
{
    [FREE; BLOCK_COUNT]
}

// How many blocks so many bytes need.
#[tactic(auto, unfolding(crate::specs::Map::needed_for))]
pub fn blocks_needed(total: usize) -> usize
    ensures { result ≡ needed_for total }
{
    total.div_ceil(BLOCK_SIZE)
}

// How many entries are the owner's. The bound is what makes the count fit a byte; both callers cut the map into groups. A test as a number and no branch, so
// that counting takes many entries a step.
fn count_group(entries: &[u8], owner: u8) -> u8
    requires { length entries.now ≤ 64 }
    ensures { result ≡ held_by owner entries.now }
{
    let mut count: u8 = 0;
    for &entry in entries {
        count += u8::from(entry == owner);
    }
    count
}

// How many blocks an owner has.
pub fn held(map: &[u8], owner: Owner) -> usize
    ensures { result ≡ held_by owner.0 map.now }
{
    let (groups, rest) = map.as_chunks::<GROUP>();
    let mut count: usize = 0;
    for group in groups {
        count += usize::from(count_group(group, owner.0));
    }
    count + usize::from(count_group(rest, owner.0))
}

// How many blocks are free.
pub fn free_count(map: &[u8]) -> usize
    ensures { result ≡ free_in map.now }
{
    held(map, Owner(FREE))
}

// An owner's block at the place n among those from a block on, entry by entry. Map, owner and pool stay parameters here and below: they are lent apart, and C
// hands them over one by one.
fn scan(map: &[u8], owner: u8, from: BlockNumber, n: usize) -> Option<BlockNumber>
    ensures { result ≡ found_at (nth_from owner from.0 n map.now) map.now }
{
    if map.len() < from.0 {
        return None;
    }
    let mut left = n;
    let mut block = from;
    for &entry in &map[from.0..] {
        if entry == owner {
            if left == 0 {
                return Some(block);
            }
            left -= 1;
        }
        block = BlockNumber(block.0 + 1);
    }
    None
}

// An entry after an owner took it, if it was free.
fn entry_claimed(entry: u8, number: u8) -> u8
    ensures { result ≡ pick (eqb entry free) number entry }
{
    if entry == FREE { number } else { entry }
}

// Gives every free one of some entries to an owner, and tells how many they were: numbers and no branch, as in `count_group`.
fn claim_all(entries: &mut [u8], number: u8) -> u8
    requires { length entries.old ≤ 64 }
    ensures value { result ≡ free_in entries.old }
    ensures entries_after { entries.new ≡ claimed number (length entries.old) entries.old }
{
    let mut count: u8 = 0;
    for entry in entries {
        count += u8::from(*entry == FREE);
        *entry = entry_claimed(*entry, number);
    }
    count
}

// Looks at one block after another, from a block on, up to a free one or to the map's end, and counts those that it looks at on from `before`.
// Each look is counted when it is made, as document 02's A3 asks: a count from the found block's place would be right for any search. The first look is made
// before the loop: it is often the only one, and the compiler makes 6 instructions an entry of the loop over the rest, where it made 8 of one over all.
fn seek(map: &[u8], first: BlockNumber, before: usize) -> Sought
    requires { (first.0 ≤ length map.now) × (before ≤ first.0) }
    ensures { (result.block ≡ found_at (nth_from free first.0 0 map.now) map.now) × (result.looked ≡ before + looked_for 1 (drop first.0 map.now)) }
{
    let mut looked = before;
    let mut at = first;
    if at.0 == map.len() {
        return Sought {
            block: None,
            looked,
        };
    }
    looked += 1;
    if map[at.0] == FREE {
        let block = Some(first);
        return Sought { block, looked };
    }
    for &entry in &map[at.0 + 1..] {
        looked += 1;
        at = BlockNumber(at.0 + 1);
        if entry == FREE {
            let block = Some(at);
            return Sought { block, looked };
        }
    }
    Sought {
        block: None,
        looked,
    }
}

// The same as `claim` from a block on, one block at a time: the search for each resumes behind the one found last.
fn claim_singly(
    map: &mut [u8],
    count: usize,
    number: u8,
    first: BlockNumber,
    before: usize,
) -> usize
    requires { (first.0 ≤ length map.old) × (before ≤ first.0) }
    ensures value { result ≡ before + looked_for count (drop first.0 map.old) }
    ensures map_after { map.new ≡ take first.0 map.old ++ claimed number count (drop first.0 map.old) }
{
    let mut looked = before;
    let mut from = first;
    for _ in 0..count {
        let found = seek(map, from, looked);
        looked = found.looked;
        let Some(block) = found.block else {
            return looked;
        };
        map[block.0] = number;
        from = BlockNumber(block.0 + 1);
    }
    looked
}

// Gives the lowest `count` free blocks, or all of them if there are fewer, to an owner, and tells how many blocks it looked at for that: each once, up to the
// last one found. Where FEW or more are still wanted, that one does not lie before the end of the next FEW, so these are looked at in one step. No `for`: what
// a step finds says whether there is another.
pub fn claim(map: &mut [u8], count: usize, owner: Owner) -> usize
    ensures value { result ≡ looked_for count map.old }
    ensures map_after { map.new ≡ claimed owner.0 count map.old }
{
    let number = owner.0;
    let mut wanted = count;
    let mut looked: usize = 0;
    let mut from = BlockNumber(0);
    while FEW <= wanted.min(map.len() - from.0) {
        let start = from.0;
        let end = start + FEW;
        wanted -= usize::from(claim_all(&mut map[start..end], number));
        looked += FEW;
        from = BlockNumber(end);
    }
    claim_singly(map, wanted, number, from, looked)
}

// An entry after the owners from low to high gave up their blocks.
fn entry_after(entry: u8, low: u8, high: u8) -> u8
    ensures { result ≡ pick (leb low entry && leb entry high) free entry }
{
    if (low <= entry) & (entry <= high) {
        FREE
    } else {
        entry
    }
}

// Frees all blocks of the owners from low to high: one owner's by (x, x), or those of several that have neighbouring numbers. No branch: vector code.
pub fn release(map: &mut [u8], low: Owner, high: Owner)
    ensures { map.new ≡ released low.0 high.0 map.old }
{
    for entry in map {
        *entry = entry_after(*entry, low.0, high.0);
    }
}

// Passes over groups of entries, from a block on, while the block looked for lies behind them.
fn skip<const SIZE: usize>(map: &[u8], owner: u8, first: BlockNumber, n: usize) -> Skipped
    requires { (first.0 ≤ length map.now) × (1 ≤ SIZE) × (SIZE ≤ 64) }
    ensures { (result.from.0 ≤ length map.now) × (nth_from owner result.from.0 result.left map.now ≡ nth_from owner first.0 n map.now) }
{
    let mut left = n;
    let mut from = first;
    let (groups, _) = map[first.0..].as_chunks::<SIZE>();
    for group in groups {
        let here = usize::from(count_group(group, owner));
        if left < here {
            return Skipped { from, left };
        }
        left -= here;
        from = BlockNumber(from.0 + SIZE);
    }
    Skipped { from, left }
}

// An owner's block at the place n, from 0, in rising order: found by counting, and only the last few entries are gone through one by one.
pub fn nth_block(map: &[u8], owner: Owner, n: usize) -> Option<BlockNumber>
    ensures { result ≡ nth_block owner.0 n map.now }
{
    let far = skip::<GROUP>(map, owner.0, BlockNumber(0), n);
    let near = skip::<FEW>(map, owner.0, far.from, far.left);
    scan(map, owner.0, near.from, near.left)
}

// Whether a block starts inside so many bytes.
fn starts_inside(block: BlockNumber, bytes: usize) -> bool
    ensures { result ≡ ltb (block_size * block.0) bytes }
{
    block.0 < blocks_needed(bytes)
}

// Copies at most a block; a whole one goes in two halves, each small enough for the compiler to move it in place, with no call.
fn copy_block(source: &[u8], target: &mut [u8])
    requires { (length source.now ≤ 256) × (length target.old ≡ length source.now) }
    ensures { target.new ≡ source.now }
{
    if source.len() == BLOCK_SIZE {
        numbers::copy(&source[0..HALF], &mut target[0..HALF]);
        numbers::copy(&source[HALF..BLOCK_SIZE], &mut target[HALF..BLOCK_SIZE]);
    } else {
        numbers::copy(source, target);
    }
}

// Puts bytes over others from a place on, as far as those go; no more than a block.
fn overwrite(source: &[u8], at: usize, target: &mut [u8])
    requires { min (length source.now) (length target.old) ≤ 256 }
    ensures { target.new ≡ over at source.now target.old }
{
    if at < target.len() {
        let n = source.len().min(target.len() - at);
        let end = at + n;
        copy_block(&source[0..n], &mut target[at..end]);
    }
}

// Puts a payload over the owner's blocks, from a place in the first one at or behind a block on: in each turn one block's share.
// Both facts hold by themselves of what `append` found: a test here would cost a turn's time in every call.
fn fill(map: &[u8], owner: u8, first: BlockNumber, at: usize, payload: &[u8], pool: &mut [u8])
    requires { at < 256 }
    ensures { pool.new ≡ appended_from owner first.0 at payload.now map.now pool.old }
{
    let mut from = first;
    let mut place = at;
    let mut rest = payload;
    while !rest.is_empty() {
        let Some(block) = scan(map, owner, from, 0) else {
            return;
        };
        if !starts_inside(block, pool.len()) {
            return;
        }
        let start = BLOCK_SIZE * block.0;
        let end = start + BLOCK_SIZE.min(pool.len() - start);
        overwrite(rest, place, &mut pool[start..end]);
        let taken = rest.len().min(BLOCK_SIZE - place);
        rest = &rest[taken..];
        place = 0;
        from = BlockNumber(block.0 + 1);
    }
}

// Puts a payload right behind the first `at` bytes of the owner's blocks, across their borders. The blocks before are found by counting, not gone through;
// where there is none before, nothing is looked for: `fill` goes to the first block by itself.
pub fn append(map: &[u8], owner: Owner, at: usize, payload: &[u8], pool: &mut [u8])
    ensures { pool.new ≡ appended owner.0 at payload.now map.now pool.old }
{
    if at < BLOCK_SIZE {
        fill(map, owner.0, BlockNumber(0), at, payload, pool);
        return;
    }
    let place = at % BLOCK_SIZE;
    if let Some(block) = nth_block(map, owner, at / BLOCK_SIZE) {
        fill(map, owner.0, block, place, payload, pool);
    }
}

// Writes the next `due` bytes of the owner's blocks, from a block on, to out from a place on: it copies one block and calls itself for the rest.
// Bytes still due fall. The slices lie behind references, which each call hands on as they are: no call is lent a local, and so the compiler
// makes a jump of it. `at_last`: out is still the same slice, with other bytes. A slice behind a reference does not say that it is `Sized`.
fn deliver_from(
    map: &&[u8],
    owner: Owner,
    from: BlockNumber,
    at: usize,
    due: usize,
    pool: &&[u8],
    out: &mut &mut [u8],
)
    requires { Sized map.now.now × Sized pool.now.now × Sized out.old.now × (at + due ≤ length out.old.now) }
    ensures { out.new ≡ at_last out.old
        (delivered_from owner.0 from.0 at due map.now.now pool.now.now out.old.now) }
{
    if due == 0 {
        return;
    }
    let entries = *map;
    if let Some(block) = scan(entries, owner.0, from, 0) {
        let bytes = *pool;
        if starts_inside(block, bytes.len()) {
            let start = BLOCK_SIZE * block.0;
            let size = BLOCK_SIZE.min(bytes.len() - start);
            let n = size.min(due);
            let end = start + n;
            overwrite(&bytes[start..end], at, *out);
            let next = BlockNumber(block.0 + 1);
            deliver_from(map, owner, next, at + n, due - n, pool, out);
        }
    }
}

// Starts the delivery. It hands out back, since what a local lent is known to be out again only where it is the result.
fn deliver_whole<'a>(
    map: &[u8],
    owner: Owner,
    due: usize,
    pool: &[u8],
    out: &'a mut [u8],
) -> &'a mut [u8]
    ensures { result ≡ at_last out.entry (delivered owner.0 due map.now pool.now out.old) }
{
    let most = due.min(out.len());
    let mut lent = out;
    deliver_from(&map, owner, BlockNumber(0), 0, most, &pool, &mut lent);
    let back = lent;
    back
}

// Writes the first `due` bytes of the owner's blocks to the front of out, as far as blocks and out go.
pub fn deliver(map: &[u8], owner: Owner, due: usize, pool: &[u8], out: &mut [u8])
    ensures { out.new ≡ delivered owner.0 due map.now pool.now out.old }
{
    deliver_whole(map, owner, due, pool, out);
}
