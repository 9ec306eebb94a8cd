// What an instruction reads and what it does, by value.
use isa::vectors::{COUNT, Cause};
use memory::Width;
use product::Accumulator;

// Where execution goes on: the next instruction, whether it is in a delay slot, and where it goes after the slot.
// Here and in Link the words of the state stand as they are: `reads` (commit's definitions) has every word, also one
// that no bool or Option is read from, and a step would have to make these of the words and turn them back.
#[derive(Clone, Copy)]
pub struct Flow {
    pub pc: u32,
    pub delay: u32,
    pub target: u32,
}

// The link of l.lwa and l.swa.
#[derive(Clone, Copy)]
pub struct Link {
    pub held: u32,
    pub address: u32,
}

// The bytes that an instruction stores.
#[derive(Clone, Copy)]
pub struct Store {
    pub width: Width,
    pub address: u32,
    pub value: u32,
}

#[derive(Clone, Copy)]
pub struct Exception {
    pub cause: Cause,
    pub epcr: u32,
    pub eear: u32,
    pub esr: u32,
}

// How a step ends: in a completed instruction, or in one exception.
pub type Outcome = Result<(), Exception>;

// What every instruction of a run is given beside its core's state: how many cores there are, how many bytes at the
// start of memory are read-only, and the list of vectors, lent: by value it would make every step dearer.
#[derive(Clone, Copy)]
pub struct Board<'a> {
    pub cores: u32,
    pub limit: u32,
    pub vectors: &'a [u32; COUNT],
}

// An instruction's fields, its registers' values, and its core's state before it.
#[derive(Clone, Copy)]
pub struct Inputs {
    pub core: u32,
    pub d: u32,
    pub a: u32,
    pub b: u32,
    pub immediate: u32,
    pub flow: Flow,
    pub sr: u32,
    pub epcr: u32,
    pub eear: u32,
    pub esr: u32,
    pub link: Link,
    pub accumulator: Accumulator,
    pub picmr: u32,
    pub picsr: u32,
}

// What an instruction does: the one word of its state that it writes besides SR, the flow, the link, the mode and the
// accumulator; what MACHI and MACLO become, if they do not stay; its store, if it stores; how it ends. One that writes
// no word writes 0 to r0, as in the definitions (`completed`, `raises`): an Option would say no more. That a place lies
// in a state stands in contracts and in no ghost field, since the definitions build Effects too.
#[derive(Clone, Copy)]
pub struct Effect {
    pub place: u32,
    pub value: u32,
    pub sr: u32,
    pub flow: Flow,
    pub link: Link,
    pub mode: u32,
    pub accumulated: Option<Accumulator>,
    pub store: Option<Store>,
    pub outcome: Outcome,
}

// What an instruction writes before it goes on or raises range: a word of its state, and SR.
#[derive(Clone, Copy)]
pub struct Written {
    pub place: u32,
    pub value: u32,
    pub sr: u32,
}

// A jump, with what it writes.
#[derive(Clone, Copy)]
pub struct Jumped {
    pub place: u32,
    pub value: u32,
    pub target: u32,
}

// An exception that an instruction raises before it writes anything, and what EEAR becomes.
#[derive(Clone, Copy)]
pub struct Faulted {
    pub cause: Cause,
    pub eear: u32,
}

// What l.lwa loads, and from where.
#[derive(Clone, Copy)]
pub struct Linked {
    pub place: u32,
    pub value: u32,
    pub address: u32,
}

// What an instruction does, in as few words as say it: the rest of its effect follows from what it read.
#[derive(Clone, Copy)]
pub enum Action {
    Advance(Written),
    Jump(Jumped),
    Save(Store),
    Fault(Faulted),
    RaiseRange(Written),
    Return,
    Halt,
    LoadLinked(Linked),
    SaveLinked(Option<Store>),
    Accumulate(Accumulator),
    ReadAccumulator,
}
