// Where execution goes on after an exception: a list of vectors, by cause.
ghost use Rattle.std.specs.Prelude.{◌≡◌, ◌<◌};
ghost use Rattle.isa.specs.Vectors.{vector_count, place_of, old_vectors, vector as vector_of};

#[derive(Clone, Copy)]
pub enum Cause {
    Bus,
    Alignment,
    Illegal,
    Range,
    Syscall,
    Trap,
    Interrupt,
}

// How many vectors a list has.
pub const COUNT: usize = 7;

// The vectors of document 01 and of document 02's note 4, by cause.
const VECTORS: [u32; COUNT] = [0x200, 0x600, 0x700, 0xb00, 0xc00, 0xe00, 0x800];

// The list that holds where no other is given, the paper's old list.
pub fn default_list() -> [u32; COUNT]
    ensures { result ≡ old_vectors }
{
    VECTORS
}

// The place of a cause in a list. A match, and no cast of the enum, since must-fail/trap_by_the_vector_before gives one
// cause alone another's number.
fn place(cause: Cause) -> usize
    ensures { (result ≡ place_of cause) × (result < vector_count) }
{
    match cause {
        Cause::Bus => 0,
        Cause::Alignment => 1,
        Cause::Illegal => 2,
        Cause::Range => 3,
        Cause::Syscall => 4,
        Cause::Trap => 5,
        Cause::Interrupt => 6,
    }
}

// The vector of a cause.
pub fn vector(vectors: &[u32; COUNT], cause: Cause) -> u32
    ensures { result ≡ vector_of vectors.now cause }
{
    vectors[place(cause)]
}
