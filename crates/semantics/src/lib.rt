#![tactic(auto)]
// What each kind does, a line a kind, in the order of the kinds: the papers' table. It is matches, and no table of
// functions: each step would call through a pointer, and `rt ci` refuses function pointers that are handed out.
ghost use Rattle.std.specs.Prelude.{◌≡◌, ◌-◌, ◌<◌};
ghost use Rattle.isa.specs.Groups.{first_nop_movhi, first_compare_immediate, first_compare, IsNopMovhi, IsControl, IsLoad, IsAddImmediate, IsImmediate, IsCompareImmediate, IsStore, IsArithmetic, IsLogic, IsCompare, IsCache};
ghost use Rattle.effect.specs.Inner.{effect_by, goes_on};
ghost use Rattle.semantics.specs.Meaning.{branches, nop_movhi, control as controlOf, loads, add_immediates, immediates, stores, arithmetic as arithmeticOf, logic as logic_of, compares, caches, products};

use action::{accesses, completed, divisions, jumps, raised, results, special};
use effect::types::{Action, Inputs, Written};
use isa::groups;
use memory::Width;

// Jumps and branches by an immediate; below them kind 1, which is illegal, and no kind.
#[tactic(auto, unfolding(crate::specs::Meaning::branches))]
pub fn branch(kind: u8, x: Inputs) -> Action
    requires { kind < first_nop_movhi }
    ensures { effect_by x result ≡ branches kind x }
{
    match kind {
        2 => jumps::jump(x, 0, 0, jumps::relative(x)), // l.j
        3 => jumps::jump(x, 9, jumps::after_slot(x), jumps::relative(x)), // l.jal
        4 => jumps::branch(x, !arith::flag(x.sr)), // l.bnf
        5 => jumps::branch(x, arith::flag(x.sr)), // l.bf
        _ => raised::illegal(x),
    }
}

// The most frequent of all, l.nop, and l.movhi.
#[tactic(auto, unfolding(crate::specs::Meaning::nop_movhi, effect::specs::Inner::effect_by))]
pub fn nop_movhi(kind: u8, x: Inputs) -> Action
    requires { IsNopMovhi kind }
    ensures { effect_by x result ≡ nop_movhi kind x }
{
    if kind == 6 {
        return completed::nop(x); // l.nop
    }
    Action::Advance(completed::write(x, arith::movhi(x.immediate))) // l.movhi
}

// Exceptions, syncs, the return from an exception, and jumps to a register.
#[tactic(auto, unfolding(crate::specs::Meaning::control, effect::specs::Inner::effect_by))]
pub fn control(kind: u8, x: Inputs) -> Action
    requires { IsControl kind }
    ensures { effect_by x result ≡ controlOf kind x }
{
    match kind {
        8 => raised::syscall(x), // l.sys
        9 => raised::trap(x), // l.trap
        10 => Action::Advance(completed::nothing(x)), // l.msync
        11 => Action::Advance(completed::nothing(x)), // l.psync
        12 => Action::Advance(completed::nothing(x)), // l.csync
        13 => jumps::return_from_exception(x), // l.rfe
        14 => jumps::register_jump(x, 0, 0), // l.jr
        15 => jumps::register_jump(x, 9, jumps::after_slot(x)), // l.jalr
        _ => unreachable!(),
    }
}

// Loads.
#[tactic(auto, unfolding(crate::specs::Meaning::loads))]
pub fn load(mem: &[u8], kind: u8, x: Inputs) -> Action
    requires { IsLoad kind }
    ensures { effect_by x result ≡ loads mem.now kind x }
{
    match kind {
        16 => accesses::load_linked(x, mem), // l.lwa
        17 => accesses::load(x, mem, Width::Word, false), // l.lwz
        18 => accesses::load(x, mem, Width::Word, true), // l.lws
        19 => accesses::load(x, mem, Width::Byte, false), // l.lbz
        20 => accesses::load(x, mem, Width::Byte, true), // l.lbs
        21 => accesses::load(x, mem, Width::Half, false), // l.lhz
        22 => accesses::load(x, mem, Width::Half, true), // l.lhs
        _ => unreachable!(),
    }
}

// Sums with an immediate, which may raise range.
#[tactic(auto, unfolding(crate::specs::Meaning::add_immediates))]
pub fn add_immediate(kind: u8, x: Inputs) -> Action
    requires { IsAddImmediate kind }
    ensures { effect_by x result ≡ add_immediates kind x }
{
    match kind {
        23 => results::result_or_raise(x, arith::add(x.a, x.immediate, false)), // l.addi
        24 => results::result_or_raise(x, arith::add(x.a, x.immediate, arith::carry(x.sr))), // l.addic
        _ => unreachable!(),
    }
}

// Logic and shifts with an immediate, and l.mfspr.
#[tactic(auto, unfolding(crate::specs::Meaning::immediates))]
pub fn immediate(cores: u32, kind: u8, x: Inputs) -> Written
    requires { IsImmediate kind }
    ensures { goes_on x result ≡ immediates cores kind x }
{
    match kind {
        25 => completed::write(x, arith::and(x.a, x.immediate)), // l.andi
        26 => completed::write(x, arith::or(x.a, x.immediate)), // l.ori
        27 => completed::write(x, arith::xor(x.a, x.immediate)), // l.xori
        28 => completed::write(x, special::read(cores, x, arith::or(x.a, x.immediate))), // l.mfspr
        29 => completed::write(x, arith::sll(x.a, x.immediate)), // l.slli
        30 => completed::write(x, arith::srl(x.a, x.immediate)), // l.srli
        31 => completed::write(x, arith::sra(x.a, x.immediate)), // l.srai
        32 => completed::write(x, arith::ror(x.a, x.immediate)), // l.rori
        _ => unreachable!(),
    }
}

// The stores and l.mtspr.
#[tactic(auto, unfolding(crate::specs::Meaning::stores, effect::specs::Inner::effect_by))]
pub fn store(limit: u32, len: usize, kind: u8, x: Inputs) -> Action
    requires { IsStore kind }
    ensures { effect_by x result ≡ stores limit len kind x }
{
    match kind {
        43 => Action::Advance(special::write(x, arith::or(x.a, x.immediate), x.b)), // l.mtspr
        44 => accesses::store_conditional(limit, x, len), // l.swa
        45 => accesses::store(limit, x, len, Width::Word), // l.sw
        46 => accesses::store(limit, x, len, Width::Byte), // l.sb
        47 => accesses::store(limit, x, len, Width::Half), // l.sh
        _ => unreachable!(),
    }
}

// Sums and differences of registers, which may raise range.
#[tactic(auto, unfolding(crate::specs::Meaning::arithmetic))]
pub fn arithmetic(kind: u8, x: Inputs) -> Action
    requires { IsArithmetic kind }
    ensures { effect_by x result ≡ arithmeticOf kind x }
{
    match kind {
        48 => results::result_or_raise(x, arith::add(x.a, x.b, false)), // l.add
        49 => results::result_or_raise(x, arith::add(x.a, x.b, arith::carry(x.sr))), // l.addc
        50 => results::result_or_raise(x, arith::sub(x.a, x.b)), // l.sub
        _ => unreachable!(),
    }
}

// Logic, shifts and extensions of registers.
#[tactic(auto, unfolding(crate::specs::Meaning::logic))]
pub fn logic(kind: u8, x: Inputs) -> Written
    requires { IsLogic kind }
    ensures { goes_on x result ≡ logic_of kind x }
{
    match kind {
        51 => completed::write(x, arith::and(x.a, x.b)), // l.and
        52 => completed::write(x, arith::or(x.a, x.b)), // l.or
        53 => completed::write(x, arith::xor(x.a, x.b)), // l.xor
        54 => completed::write(x, arith::sll(x.a, x.b)), // l.sll
        55 => completed::write(x, arith::srl(x.a, x.b)), // l.srl
        56 => completed::write(x, arith::sra(x.a, x.b)), // l.sra
        57 => completed::write(x, arith::ror(x.a, x.b)), // l.ror
        58 => completed::write(x, bits::sign_extend(x.a, 16)), // l.exths
        59 => completed::write(x, bits::sign_extend(x.a, 8)), // l.extbs
        60 => completed::write(x, bits::zero_extend(x.a, 16)), // l.exthz
        61 => completed::write(x, bits::zero_extend(x.a, 8)), // l.extbz
        62 => completed::write(x, x.a), // l.extws
        63 => completed::write(x, x.a), // l.extwz
        64 => completed::write(x, arith::cmov(arith::flag(x.sr), x.a, x.b)), // l.cmov
        65 => completed::write(x, arith::ff1(x.a)), // l.ff1
        66 => completed::write(x, arith::fl1(x.a)), // l.fl1
        _ => unreachable!(),
    }
}

// Set flag, by the place in the set-flag order; b is the second operand.
#[tactic(auto, unfolding(crate::specs::Meaning::compares))]
fn compare_at(n: u8, x: Inputs, b: u32) -> Written
    ensures { goes_on x result ≡ compares n x b }
{
    completed::set_flag(x, arith::compare(n, x.a, b))
}

// Set flag with an immediate, l.sfeqi to l.sflesi: the kinds are in the set-flag order.
pub fn compare_immediate(kind: u8, x: Inputs) -> Written
    requires { IsCompareImmediate kind }
    ensures { goes_on x result ≡ compares (kind - first_compare_immediate) x x.immediate }
{
    compare_at(kind - groups::COMPARE_IMMEDIATE, x, x.immediate)
}

// Set flag of two registers, l.sfeq to l.sfles.
pub fn compare(kind: u8, x: Inputs) -> Written
    requires { IsCompare kind }
    ensures { goes_on x result ≡ compares (kind - first_compare) x x.b }
{
    compare_at(kind - groups::COMPARE, x, x.b)
}

// The cache instructions, which only test their byte.
#[tactic(auto, unfolding(crate::specs::Meaning::caches))]
pub fn cache(len: usize, kind: u8, x: Inputs) -> Action
    requires { IsCache kind }
    ensures { effect_by x result ≡ caches len kind x }
{
    match kind {
        77 => accesses::touch(x, len), // p.cinvalidate
        78 => accesses::touch(x, len), // p.cwriteback
        79 => accesses::touch(x, len), // p.cflush
        _ => unreachable!(),
    }
}

// Products, quotients and the accumulator; above them no kind.
#[tactic(auto, unfolding(crate::specs::Meaning::products, effect::specs::Inner::effect_by))]
pub fn product(kind: u8, x: Inputs) -> Action
    ensures { effect_by x result ≡ products kind x }
{
    match kind {
        80 => results::result_or_raise(x, product::mul(x.a, x.b)), // l.mul
        81 => results::result_or_raise(x, product::mul(x.a, x.immediate)), // l.muli
        82 => results::result_or_raise(x, product::mul_unsigned(x.a, x.b)), // l.mulu
        83 => divisions::divide(x, product::checked_div(x.a, x.b)), // l.div
        84 => divisions::divide(x, product::checked_div_unsigned(x.a, x.b)), // l.divu
        85 => Action::Accumulate(x.accumulator.add_product(x.a, x.immediate)), // l.maci
        86 => Action::Accumulate(x.accumulator.add_product(x.a, x.b)), // l.mac
        87 => Action::Accumulate(x.accumulator.subtract_product(x.a, x.b)), // l.msb
        88 => Action::ReadAccumulator, // l.macrc
        _ => raised::illegal(x),
    }
}
