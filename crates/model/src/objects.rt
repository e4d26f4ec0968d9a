// Objects as the world has them. A number names an object for good: no number is used again, so objects
// stand in one Vec by their numbers, and lead to each other by these.
ghost use Rattle.std.specs.Prelude.{◌≡◌};
ghost use Rattle.model.specs.declared.objects.Fault.TheVariants.{Memory};

use rights::Rights;
use rv32::Cpu;
use std::alloc::{AllocError, AllocFailed};
use std::collections::VecDeque;

// What a slot holds, if it is not empty: an object, rights, a badge, its own birth number, and that
// of the one that it was made from. 0 is no mother and no badge, as the world's numbers have it.
#[derive(Clone, Copy, Debug, PartialEq, Eq)]
pub struct Capability {
    pub object: usize,
    pub rights: Rights,
    pub badge: u32,
    pub birth: u64,
    pub mother: u64,
}

// A thread that waits at a port keeps its registers until an answer comes.
#[derive(Clone, Copy, Debug, PartialEq, Eq)]
pub enum State {
    Stopped,
    Ready,
    Waits(usize),
}

// A page of a space, or none, and whether it may be written. The world keeps that mark also where a
// page is gone, so this is no Option. The mark stands in both variants, and first: so it takes 16 bytes,
// where a struct of an Option and a mark takes 24.
#[derive(Clone, Copy, Debug, PartialEq, Eq)]
pub enum Mapping {
    Unmapped { writes: bool },
    Mapped { writes: bool, page: usize },
}

// A table or none, and a space of 64 pages.
#[derive(Clone, Copy, Debug, PartialEq, Eq)]
pub struct Thread {
    pub state: State,
    pub cpu: Cpu,
    pub table: Option<usize>,
    pub pages: [Mapping; 64],
}

// What a thread sends: a badge and words, and the slot that it names to hand on what is in it. The
// world keeps the slot's number also where the thread may not hand on, so this is no Option.
#[derive(Clone, Copy, Debug, PartialEq, Eq)]
pub struct Letter {
    pub thread: usize,
    pub badge: u32,
    pub words: [u32; 4],
    pub hands_on: bool,
    pub slot: u32,
}

// Who waits at a port: a sender with what it sends, or a receiver with the slot for what is handed
// on to it.
#[derive(Clone, Copy, Debug, PartialEq, Eq)]
pub enum Wait {
    Sender(Letter),
    Receiver { thread: usize, slot: u32 },
}

// `from` is the pool that an object was cut from; sizes and used parts of pools are in bytes.
#[derive(Drop)]
pub enum Object {
    Gone,
    Pool {
        from: Option<usize>,
        size: u64,
        used: u64,
    },
    Table {
        from: Option<usize>,
        slots: Vec<Option<Capability>>,
    },
    Port {
        from: Option<usize>,
        queue: VecDeque<Wait>,
    },
    Page {
        from: Option<usize>,
        bytes: Vec<u8>,
    },
    Thread(Thread),
    Line {
        shown: Vec<u8>,
        heard: VecDeque<u8>,
    },
}

// A world has one for each object, and a thread, with its 64 pages, is the largest.
const _: () = prove!(size_of::<Object>() <= 1200);

// The last birth number given, and every capability that was made from another, oldest first.
#[derive(Drop)]
pub struct World {
    pub objects: Vec<Object>,
    pub births: u64,
    pub lineage: Vec<Option<Capability>>,
}

// Memory is used up, or numbers are.
#[derive(Clone, Copy, Debug, PartialEq, Eq)]
pub enum Fault {
    Memory,
    Numbers,
}

impl From<AllocError> for Fault {
    ghost from_gives = { λ _ e. e ≡ Memory };

    fn from(_e: AllocError) -> Fault {
        Fault::Memory
    }
}

impl<T: Drop> From<AllocFailed<T>> for Fault {
    ghost from_gives = { λ _ e. e ≡ Memory };

    fn from(_e: AllocFailed<T>) -> Fault {
        Fault::Memory
    }
}
