// The number of a register: a byte below 32, from the bits that name it to the word of a state that it is.
ghost use Rattle.std.specs.Prelude.{◌≡◌, ◌%◌, if◌then◌else◌};
ghost use Rattle.isa.specs.Register.{Register};

// The number in the low five bits of x.
pub fn number(x: u32) -> u8
    ensures { (result ≡ x % 32) × Register result }
{
    (x % 32) as u8
}

// n if the kind has that register, else 0.
pub fn present(has: bool, n: u8) -> u8
    requires { Register n }
    ensures { (result ≡ (if has then n else 0)) × Register result }
{
    if has { n } else { 0 }
}
