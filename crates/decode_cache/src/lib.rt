#![tactic(auto)]
// The decode cache: what a fetch finds in it, and what a store empties. A word outside the cache is decoded each time.
ghost use Rattle.std.specs.Prelude.{◌≡◌, ◌+◌, ◌*◌, ◌/◌, ◌%◌, ◌^◌, ◌≤◌, ◌<◌, length, set};
ghost use Rattle.effect.specs.Board.{Board};
ghost use Rattle.decode_cache.specs.Cache.{form_at};
ghost use Rattle.decode_cache.specs.Inner.{Backed, filled_at, fetch_at, cache_after, emptied_by, form_of_fetch};

use commit::Done;

// The form that a fetch executes, and whether its entry was filled.
#[derive(Clone, Copy)]
pub struct Fetched {
    pub entry: u64,
    pub reused: bool,
}

// The entry of word k, if it is filled: one of 0 is empty, since the cache's words are the C interface's; and a word
// outside the cache has none.
fn filled_entry(cache: &[u64], k: usize) -> Option<u64>
    ensures { result ≡ filled_at cache.now k }
{
    match cache.get(k) {
        Some(entry) if *entry != 0 => Some(*entry),
        _ => None,
    }
}

// Sets the entry of word k; a word outside the cache has none. Not by get_mut, after which nothing is known of a
// slice's elements.
fn put_entry(cache: &mut [u64], k: usize, entry: u64)
    ensures { cache.new ≡ set cache.old k entry }
{
    if k < cache.len() {
        cache[k] = entry;
    }
}

// The form of what memory holds at word k.
#[tactic(auto, unfolding(crate::specs::Cache::form_at))]
fn decoded(memory: &[u8], k: usize) -> u64
    requires { 4 * k + 4 ≤ length memory.now }
    ensures { (board : Board) → result ≡ form_at board memory.now k }
{
    codec::decoder::decode(memory::load_word(memory, 4 * k))
}

// The form of the word at pc, if it is inside memory: its entry, which is filled if it was empty. A filled entry is of
// a word inside. That a cache is Backed is a fact of it and memory together, so no type of the cache can say it; of pc
// a u32 would say one half of its clause, and be cast at each use.
pub fn fetch(memory: &[u8], cache: &mut [u64], pc: usize) -> Option<Fetched>
    requires backed { Backed cache.old memory.now }
    requires word_address { (pc % 4 ≡ 0) × (pc < 2 ^ 32) }
    ensures { (board : Board) → (result ≡ fetch_at board memory.now cache.old pc) × (cache.new ≡ cache_after board memory.now cache.old pc) }
{
    let k = pc / 4;
    if let Some(entry) = filled_entry(cache, k) {
        return Some(Fetched {
            entry,
            reused: true,
        });
    }
    if memory.len() < pc + 4 {
        return None;
    }
    let entry = decoded(memory, k);
    put_entry(cache, k, entry);
    Some(Fetched {
        entry,
        reused: false,
    })
}

// The form that a fetch at pc executes, if the word is inside memory. No entry is filled.
pub fn peek(memory: &[u8], cache: &[u64], pc: usize) -> Option<u64>
    requires { pc < 2 ^ 32 }
    ensures { (board : Board) → result ≡ form_of_fetch (fetch_at board memory.now cache.now pc) }
{
    if pc + 4 > memory.len() {
        return None;
    }
    let k = pc / 4;
    match filled_entry(cache, k) {
        Some(entry) => Some(entry),
        None => Some(decoded(memory, k)),
    }
}

// A store empties the entry of the word that it touches.
pub fn empty_touched(cache: &mut [u64], done: Done)
    ensures { cache.new ≡ emptied_by done.stored cache.old }
{
    if let Some(address) = done.stored {
        put_entry(cache, (address / 4) as usize, 0);
    }
}
