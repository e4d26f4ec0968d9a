// Rows of events, carried out.
ghost use Rattle.std.specs.Prelude.{◌≡◌, ◌++◌, [], OnOk, IfOk};
ghost use Rattle.rights.specs.Said.{with_first};
ghost use Rattle.image.specs.Rows.{row};
ghost use Rattle.model.specs.Plain.{plain};
ghost use Rattle.model.specs.Same.{Ran};
ghost use Rattle.model.specs.Sound.{Sound};
ghost use Rattle.replay.specs.Replays.{said_from};

use image::{one, two};
use model::{Fault, World};
use rights::Said;
use std::alloc::Global;

// One more at the end of a row, if there is one.
fn append(said: &mut Vec<Said>, more: Option<Said>) -> Result<(), Fault>
    ensures { OnOk result (said.new.items ≡ said.old.items ++ with_first more []) }
{
    if let Some(byte) = more {
        said.push(byte)?;
    }
    Ok(())
}

// Carries out a row of events, one after the other: an instruction's time for a thread, or a byte
// that comes in at a line. What was said is handed back, in order.
pub fn carry_out_row(heap: Global, world: &mut World, events: &[u8]) -> Result<Vec<Said>, Fault>
    ensures ran { IfOk result (λ _. Ran (plain world.old) (row events.now) (plain world.new)) }
    ensures said { IfOk result (λ said. Sound (plain world.old) → said.items ≡ said_from (plain world.old) (row events.now)) }
{
    let mut said = Vec::new(heap);
    let mut at = 0;
    while at < events.len() {
        let o = usize::from(two(events, at + 1));
        if one(events, at) == 0 {
            append(&mut said, world.tick(o)?)?;
            at += 3;
        } else {
            world.come_in(o, one(events, at + 3))?;
            at += 4;
        }
    }
    Ok(said)
}
