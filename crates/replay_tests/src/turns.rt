// Rows of events.
ghost use Rattle.std.specs.Prelude.{◌≡◌, ◌++◌, IfOk, OnOk};
ghost use Rattle.std.specs.List.{flat_map, repeat};
ghost use Rattle.replay_tests.specs.Turns as spec;

use std::alloc::{AllocError, Global};

// What comes next in a row.
#[derive(Clone, Copy, Debug)]
pub enum Turn {
    // So many instructions' times of a thread.
    Ticks(u16, u16),
    // Bytes that come in at line 1.
    Bytes(&'static [u8]),
    // The same byte so many times.
    Same(u8, u16),
}

// An event so many times.
fn times(row: &mut Vec<u8>, event: &[u8], count: u16) -> Result<(), AllocError>
    ensures { OnOk result (row.new.items ≡ row.old.items ++ repeat count event.now) }
{
    for _ in 0..count {
        row.extend_from_slice(event)?;
    }
    Ok(())
}

// Bytes that come in at line 1.
fn come_in(row: &mut Vec<u8>, bytes: &[u8]) -> Result<(), AllocError>
    ensures { OnOk result (row.new.items ≡ row.old.items ++ flat_map spec.comes bytes.now) }
{
    for byte in bytes {
        row.extend_from_slice(&[1, 1, 0, *byte])?;
    }
    Ok(())
}

// The events of one turn.
fn add(row: &mut Vec<u8>, turn: Turn) -> Result<(), AllocError>
    ensures { OnOk result (row.new.items ≡ row.old.items ++ spec.events turn) }
{
    match turn {
        Turn::Ticks(thread, count) => {
            let [low, high] = thread.to_le_bytes();
            times(row, &[0, low, high], count)
        }
        Turn::Bytes(bytes) => come_in(row, bytes),
        Turn::Same(byte, count) => times(row, &[1, 1, 0, byte], count),
    }
}

// A row of events, turn by turn.
pub fn row(heap: Global, turns: &[Turn]) -> Result<Vec<u8>, AllocError>
    ensures { IfOk result (λ row. row.items ≡ flat_map spec.events turns.now) }
{
    let mut row = Vec::new(heap);
    for turn in turns {
        add(&mut row, *turn)?;
    }
    Ok(row)
}
