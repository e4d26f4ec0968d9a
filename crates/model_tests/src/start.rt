// The world that the rows start from.
ghost use Rattle.std.specs.Prelude.{◌≡◌, IfOk};
ghost use Rattle.model_tests.specs.Start as spec;

use model::{Capability, Fault, Mapping, Object, State, Thread, World};
use rights::Rights;
use rv32::Cpu;
use std::alloc::Global;
use std::collections::VecDeque;

// All rights to an object, in a slot.
fn holds(object: u16) -> Option<Capability>
    ensures { result ≡ spec.holds object }
{
    Some(Capability {
        object: usize::from(object),
        rights: Rights::all(),
        badge: 0,
        birth: u64::from(object) + 1,
        mother: 0,
    })
}

// A thread with table 4 and an empty space.
fn thread(pc: u32) -> Thread
    ensures { result ≡ spec.new_thread pc }
{
    Thread {
        state: State::Ready,
        cpu: Cpu::fresh(pc),
        table: Some(4),
        pages: [Mapping::new(None, false); 64],
    }
}

// Object 0 is a pool of three frames, 1 a line, 2 a port, 3 a page, 4 a table of twelve slots that
// holds objects 0 to 6 in slots 0 to 6 with all rights, 5 and 6 threads with that table.
pub fn start(heap: Global) -> Result<World, Fault>
    ensures { IfOk result (λ world. world.births ≡ 7) }
{
    let slots = vec![in heap;
        holds(0),
        holds(1),
        holds(2),
        holds(3),
        holds(4),
        holds(5),
        holds(6),
        None,
        None,
        None,
        None,
        None,
    ]?;
    let objects = vec![in heap;
        Object::Pool {
            from: None,
            size: 12288,
            used: 0
        },
        Object::Line {
            shown: Vec::new(heap),
            heard: VecDeque::new(heap)
        },
        Object::Port {
            from: None,
            queue: VecDeque::new(heap)
        },
        Object::Page {
            from: None,
            bytes: vec![in heap; 0; 4096]?
        },
        Object::Table { from: None, slots },
        Object::Thread(thread(0)),
        Object::Thread(thread(0)),
    ]?;
    Ok(World {
        objects,
        births: 7,
        lineage: Vec::new(heap),
    })
}
