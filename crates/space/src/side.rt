// Threads and lines, and what all of it takes in memory.
ghost use Rattle.std.specs.Prelude.{◌≡◌, map};
ghost use Rattle.space.specs.Side as spec;

use crate::lines::Line;
use crate::tables::PageTables;
use rv32::Cpu;
use std::mem::size_of;

// A thread that waits at a port keeps its registers, in which its words and the number of its slot
// still are. A port is named by its place on the board.
#[derive(Clone, Copy, Debug, PartialEq, Eq)]
pub enum State {
    Stopped,
    Ready,
    Sends { port: u32, badge: u32, hands: bool },
    Receives { port: u32 },
}

// A thread's table: where it is on the board, and how many slots it has.
#[derive(Clone, Copy, Debug, PartialEq, Eq)]
pub struct Table {
    pub place: u32,
    pub slots: u32,
}

// `object` is its number in the image; `next` is the number + 1 of the thread that waits after it,
// 0 for none.
#[derive(Clone, Copy, Debug, PartialEq, Eq)]
pub struct Thread {
    pub object: u32,
    pub state: State,
    pub cpu: Cpu,
    pub table: Option<Table>,
    pub next: u32,
    pub pages: PageTables,
    pub spare: [u32; 14],
}

#[derive(Clone, Copy, Debug, PartialEq, Eq)]
pub struct Side {
    pub threads: [Thread; 64],
    pub lines: [Line; 32],
}

impl Thread {
    // Stopped, with registers that are 0, no table and no page.
    pub fn fresh(object: u32) -> Thread
        ensures { result ≡ spec.fresh_thread object }
    {
        Thread {
            object,
            state: State::Stopped,
            cpu: Cpu::fresh(0),
            table: None,
            next: 0,
            pages: PageTables::fresh(),
            spare: [0; 14],
        }
    }
}

impl Side {
    // Nothing is there yet. No object has the numbers that these have, which are above all others, so
    // that what is filled in from the front stays in order.
    pub fn fresh() -> Side
        ensures { result ≡ spec.fresh }
    {
        Side {
            threads: [Thread::fresh(u32::MAX); 64],
            lines: [Line::fresh(u16::MAX); 32],
        }
    }
}

// Each page that lies among `units` units of the board from a place on leaves every space.
pub fn unmap_everywhere(threads: &mut [Thread], from: u32, units: u32)
    ensures { threads.new ≡ map (spec.without_range from units) threads.old }
{
    for thread in threads.iter_mut() {
        thread.pages.unmap_range(from, units);
    }
}

const THREAD: usize = size_of::<Thread>();

const LINE: usize = size_of::<Line>();

const SIDE: usize = size_of::<Side>();

// How many bytes a thread, a line and all of it take.
pub fn sizes() -> (usize, usize, usize)
    ensures { result ≡ (512, 1028, 65664) }
{
    (THREAD, LINE, SIDE)
}
