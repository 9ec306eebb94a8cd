#![tactic(auto)]
// The rules on a list of vectors.
ghost use Rattle.std.specs.Prelude.{◌≡◌, ◌<◌, length, IfSome};
ghost use Rattle.std.specs.List.{list_all};
ghost use Rattle.vector_list.specs.Rules.{is_vector, is_new, repeat_in, vectors_fit};

use isa::vectors;

// Vectors lie below this address.
pub const END: u32 = 0x10_0000;

#[tactic(auto, unfolding(crate::specs::Rules::is_vector))]
fn is_vector(v: u32) -> bool
    ensures { result ≡ is_vector v }
{
    v % 4 == 0 && v < END
}

// All of the list's are addresses of vectors.
fn are_vectors(list: &[u32]) -> bool
    ensures { result ≡ list_all is_vector list.now }
{
    list.iter().all(|&v| is_vector(v))
}

// The address at place i is none of those above it.
fn is_new(list: &[u32], i: usize) -> bool
    requires { i < length list.now }
    ensures { result ≡ is_new list.now i }
{
    !list[..i].contains(&list[i])
}

// The first place whose address stands above it. A `for`: tried with `find`, whose law, from what it ran over to
// `first_repeat`, did not close.
pub fn first_repeat(list: &[u32]) -> Option<usize>
    ensures { (result ≡ repeat_in list.now) × IfSome result (λ i. i < length list.now) }
{
    for i in 0..list.len() {
        if !is_new(list, i) {
            return Some(i);
        }
    }
    None
}

// A list that a run may be given.
#[tactic(auto, using(crate::proofs::Laws::all_of), unfolding(crate::specs::Rules::vectors_fit))]
pub fn fits(list: &[u32]) -> bool
    ensures { result ≡ vectors_fit list.now }
{
    list.len() == vectors::COUNT && are_vectors(list) && first_repeat(list).is_none()
}
