#![tactic(auto)]
// Memory, high byte first: the test of an access, and loads and stores of 1, 2 or 4 bytes.
ghost use Rattle.std.specs.Prelude.{◌≡◌, ◌+◌, ◌*◌, ◌<◌, ◌≤◌, ◌^◌, length};
ghost use Rattle.bits.specs.Word.{extend};
ghost use Rattle.memory.specs.Memory.{bytes, loaded, stored, cause_of, access};

use isa::vectors::Cause;

// How many bytes an access is to.
#[derive(Clone, Copy, PartialEq, Eq, Debug)]
pub enum Width {
    Byte,
    Half,
    Word,
}

impl Width {
    pub fn bytes(self) -> u32
        ensures { result ≡ bytes self }
    {
        match self {
            Width::Byte => 1,
            Width::Half => 2,
            Width::Word => 4,
        }
    }
}

// The test that comes before every access, in a memory of len bytes: it may go on, or it raises an exception. Stores
// and l.swa pass the run's limit; loads, l.lwa and p.* pass 0.
#[tactic(auto, using(crate::proofs::Bytes::mask_aligned), unfolding(crate::specs::Memory::access))]
pub fn test(limit: u32, len: usize, address: u32, width: Width) -> Result<(), Cause>
    ensures { cause_of result ≡ access (bytes width) limit len address }
{
    let n = width.bytes();
    if address & (n - 1) != 0 {
        return Err(Cause::Alignment);
    }
    if address < limit || len < address as usize + n as usize {
        return Err(Cause::Bus);
    }
    Ok(())
}

// The word at an address, as a fetch reads it. Word number k is the one at 4 * k. That an access lies inside is a fact
// of memory, address and width together, so each contract below says it; `test` finds it out.
#[tactic(auto, unfolding(crate::specs::Memory::loaded))]
pub fn load_word(mem: &[u8], at: usize) -> u32
    requires { at + 4 ≤ length mem.now }
    ensures { (result ≡ loaded 4 mem.now at) × (result < 256 ^ 4) }
{
    u32::from_be_bytes([mem[at], mem[at + 1], mem[at + 2], mem[at + 3]])
}

// The number that the bytes of an access stand for.
#[tactic(auto, unfolding(crate::specs::Memory::loaded))]
pub fn load(mem: &[u8], address: u32, width: Width) -> u32
    requires { address + bytes width ≤ length mem.now }
    ensures { (result ≡ loaded (bytes width) mem.now address) × (result < 256 ^ bytes width) }
{
    let at = address as usize;
    match width {
        Width::Byte => u32::from(mem[at]),
        Width::Half => u32::from(u16::from_be_bytes([mem[at], mem[at + 1]])),
        Width::Word => load_word(mem, at),
    }
}

// That number sign-extended or zero-extended to a word.
#[tactic(auto, using(crate::proofs::Bytes::word_whole, crate::proofs::Bytes::zeros_above))]
pub fn load_extended(mem: &[u8], address: u32, width: Width, signed: bool) -> u32
    requires { address + bytes width ≤ length mem.now }
    ensures { result ≡ extend signed (8 * bytes width) (loaded (bytes width) mem.now address) }
{
    let x = load(mem, address, width);
    match width {
        Width::Word => x,
        _ if signed => bits::sign_extend(x, 8 * width.bytes()),
        _ => x,
    }
}

// The low bytes of v go to those of an access.
pub fn store(mem: &mut [u8], address: u32, width: Width, v: u32)
    requires { address + bytes width ≤ length mem.old }
    ensures { mem.new ≡ stored (bytes width) mem.old address v }
{
    let at = address as usize;
    let bytes = v.to_be_bytes();
    match width {
        Width::Byte => mem[at] = bytes[3],
        Width::Half => mem[at..at + 2].copy_from_slice(&bytes[2..]),
        Width::Word => mem[at..at + 4].copy_from_slice(&bytes),
    }
}
