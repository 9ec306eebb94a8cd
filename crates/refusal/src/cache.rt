// The rules on the decode cache.
ghost use Rattle.std.specs.Prelude.{◌≡◌, ◌+◌, ◌*◌, ◌/◌, ◌≤◌, length};
ghost use Rattle.effect.specs.Board.{Board};
ghost use Rattle.refusal.specs.Refusal.{entry_right, entries_right};

// An empty entry costs no decoding.
#[tactic(auto, unfolding(decode_cache::specs::Cache::form_at))]
fn entry_right(memory: &[u8], k: usize, entry: u64) -> bool
    requires { 4 * k + 4 ≤ length memory.now }
    ensures { (board : Board) → result ≡ entry_right board memory.now k entry }
{
    entry == 0 || entry == codec::decoder::decode(memory::load_word(memory, 4 * k))
}

pub fn entries_right(memory: &[u8], cache: &[u64]) -> bool
    requires { length cache.now ≡ length memory.now / 4 }
    ensures { (board : Board) → result ≡ entries_right board memory.now cache.now }
{
    cache
        .iter()
        .enumerate()
        .all(|(k, &entry)| entry_right(memory, k, entry))
}
