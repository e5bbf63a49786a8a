// The targets that a search has followed, in the work slice: each is followed once. Where they are many they are kept in the chains of a hash table.
ghost use Rattle.std.specs.Prelude.{◌≡◌, true, ◌+◌, ◌*◌, ◌≤◌, ◌<◌, length};
ghost use Rattle.tlv.specs.Lists.{exists};
ghost use Rattle.buffers.specs.Table.{chunk};
ghost use Rattle.references.specs.Search.{same_key};
ghost use Rattle.references.specs.Keys.{key_of, keys_at, key_in, chain_count, keys_from, chain_of, many, Chained, TrailIn, Chains, Pushed};
ghost use Rattle.references.specs.Keys.{key_record};

use crate::tables::Tables;
use buffers::numbers::Written;
use buffers::table::{Stored, fill_zero};
use tlv::bytes::Number;
use tlv::model::DebugSource;

// Where a record's offset and link stand, behind its source; bytes of a record, and of the head of a chain.
const KEY_OFFSET: usize = 1;

const KEY_LINK: usize = KEY_OFFSET + 8;

pub const KEY_RECORD: usize = KEY_LINK + 4;

pub const CHAIN_HEAD: usize = 4;

// So many targets are found as fast by a look at each.
const FEW_KEYS: usize = 64;

// What a link of 4 bytes cannot number.
const LINKS: usize = 4294967296;

// An offset's chain comes of its lower 32 bits, multiplied, without the product's lowest 16.
const HASHED: u64 = 4294967296;

const HASH_FACTOR: u64 = 2654435761;

const HASH_DROPPED: u64 = 65536;

// A target that a search follows: the source that it is remembered under, and its offset in the section.
// What is 8 bytes wide stands first, here and in EntryAt and OffsetAt: a gap between two fields is copied with them, in pieces.
#[derive(Clone, Copy, Debug, PartialEq, Eq)]
pub struct DieKey {
    pub offset: u64,
    pub source: DebugSource,
}

impl DieKey {
    // The target at a place.
    fn read(work: &[u8], p: usize) -> DieKey
        requires { p + 9 ≤ length work.now }
        ensures { key_in result.source result.offset ≡ key_of (chunk work.now p 9) }
    {
        DieKey {
            source: DebugSource::from(u8::read(work, p)),
            offset: u64::read(work, p + KEY_OFFSET),
        }
    }
}

// Whether the key at place p is a target.
fn is_key(work: &[u8], p: usize, key: DieKey) -> bool
    requires { p + 9 ≤ length work.now }
    ensures { result ≡ same_key (key_in key.source key.offset) (key_of (chunk work.now p 9)) }
{
    DieKey::read(work, p) == key
}

// Whether n targets are kept in chains.
#[tactic(auto, unfolding(crate::specs::Keys::many))]
fn is_many(n: usize) -> bool
    ensures { result ≡ many n }
{
    FEW_KEYS < n && n < LINKS
}

// How many chains there are.
fn chain_count(x: &Tables) -> usize
    requires { keys_from x.now < 18446744073709551616 }
    ensures { result ≡ chain_count x.now }
{
    x.main.entries.count + x.supplementary.entries.count + 1
}

// The chain of an offset, of n.
fn chain_of(n: usize, offset: u64) -> usize
    requires { 0 < n }
    ensures { result ≡ chain_of n offset }
{
    (offset % HASHED * HASH_FACTOR / HASH_DROPPED % n as u64) as usize
}

// Where the targets stand, behind the heads of the chains.
fn keys_from(x: &Tables) -> usize
    requires { keys_from x.now < 18446744073709551616 }
    ensures { result ≡ keys_from x.now }
{
    x.keys + chain_count(x) * CHAIN_HEAD
}

// Whether a target is among some, by a look at each, the newest first: a search that turns back meets the target that it has just followed.
// Stays apart from rows' first_covering: this asks by `any` whether one is there, that by `find` which is the first.
fn is_scanned(work: &[u8], keys: Stored<DieKey>, key: DieKey) -> bool
    requires { keys.base + keys.count * key_record ≤ length work.now }
    ensures { result ≡ exists (same_key (key_in key.source key.offset)) (keys_at work.now keys.base keys.count) }
{
    (0..keys.count).any(
        |i|
            requires { (i < keys.count) × (keys.base + keys.count * key_record ≤ length work.now) }
        { is_key(work, keys.base + (keys.count - 1 - i) * KEY_RECORD, key) },
    )
}

// Whether a target is among the n that were followed: a chain leads from newer to older ones.
// Stays beside files' find_file, another table of chains: one walk would take where chains and links stand, a record's size, and a test.
pub fn is_visited(work: &[u8], x: &Tables, n: usize, key: DieKey) -> bool
    requires { TrailIn work.now x.now n 0 }
    ensures { result ≡ exists (same_key (key_in key.source key.offset)) (keys_at work.now (keys_from x.now) n) }
{
    if !is_many(n) {
        return is_scanned(work, Stored::new(keys_from(x), n), key);
    }
    let c = chain_of(chain_count(x), key.offset);
    let mut k = u32::read(work, x.keys + c * CHAIN_HEAD) as usize;
    // Stays a loop: each target's own link says which is next, so nothing is counted.
    while k != 0 {
        let p = keys_from(x) + (k - 1) * KEY_RECORD;
        if is_key(work, p, key) {
            return true;
        }
        k = u32::read(work, p + KEY_LINK) as usize;
    }
    false
}

// Makes target i the first of its chain, where the older ones are in chains.
fn chain_key(work: &mut [u8], x: &Tables, i: usize)
    requires keys_fit { keys_from x.now + i * key_record + key_record ≤ length work.old }
    requires linkable { i + 1 < 4294967296 }
    requires chained { Chained work.old x.now i }
    ensures { Chains work.old work.new x.now (i + 1) }
{
    let chains = chain_count(x);
    let p = keys_from(x) + i * KEY_RECORD;
    let c = chain_of(chains, u64::read(work, p + KEY_OFFSET));
    let head = x.keys + c * CHAIN_HEAD;
    let link = u32::read(work, head);
    link.write(work, p + KEY_LINK);
    ((i + 1) as u32).write(work, head);
}

// Makes chains of the first n targets.
fn chain_keys(work: &mut [u8], x: &Tables, n: usize)
    requires keys_fit { keys_from x.now + n * key_record ≤ length work.old }
    requires linkable { n < 4294967296 }
    ensures { Chains work.old work.new x.now n }
{
    let base = keys_from(x);
    fill_zero(work, x.keys, base);
    for i in 0..n {
        chain_key(work, x, i);
    }
}

// Writes a target behind n others.
pub fn push_key(work: &mut [u8], x: &Tables, n: usize, key: DieKey)
    requires { TrailIn work.old x.now n 1 }
    ensures { Pushed work.old work.new x.now n (key_in key.source key.offset) }
{
    let p = keys_from(x) + n * KEY_RECORD;
    (key.source as u8).write(work, p);
    key.offset.write(work, p + KEY_OFFSET);
    if !is_many(n + 1) {
        return;
    }
    if is_many(n) {
        chain_key(work, x, n);
        return;
    }
    chain_keys(work, x, n + 1);
}
