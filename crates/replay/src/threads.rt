// Threads and their spaces.
ghost use Rattle.std.specs.Prelude.{◌≡◌, ◌+◌, ◌^◌, ◌<◌, ◌≤◌, map};
ghost use Rattle.image.specs.Fields as fields;
ghost use Rattle.image.specs.Meaning as meaning;
ghost use Rattle.model.specs.Meaning.{page_of, may_write};
ghost use Rattle.model.specs.Meaning as model;
ghost use Rattle.model.specs.Plain as plain;
ghost use Rattle.replay.specs.Reading as reading;

use crate::slots::four;
use image::{one, two};
use model::{Mapping, State, Thread};
use rv32::Cpu;

// The object that a number at `at` names, plus 1; none for 0.
fn named(bytes: &[u8], at: usize) -> Option<usize>
    ensures { result ≡ reading.named (fields.two bytes.now at) }
{
    two(bytes, at).checked_sub(1).map(usize::from)
}

// The page of a space at `at`.
fn mapping(bytes: &[u8], at: usize) -> Mapping
    requires { at + 2 < 2 ^ 64 }
    ensures { result ≡ reading.mapping bytes.now at }
{
    Mapping::new(named(bytes, at), one(bytes, at + 2) == 1)
}

// The 64 pages of a space from `at` on.
fn space(bytes: &[u8], at: usize) -> [Mapping; 64]
    requires { at + 192 < 2 ^ 64 }
    ensures pages { map page_of result ≡ meaning.pages_from bytes.now 64 at }
    ensures marks { map may_write result ≡ meaning.marks_from bytes.now 64 at }
{
    let mut pages = [Mapping::new(None, false); 64];
    for (k, page) in pages.iter_mut().enumerate() {
        *page = mapping(bytes, at + 3 * k);
    }
    pages
}

// The thread at `at`.
pub(crate) fn thread(bytes: &[u8], at: usize) -> Thread
    requires { at ≤ 2 ^ 63 }
    ensures { model.object_of (plain.thread result) ≡ reading.thread bytes.now at }
{
    Thread {
        state: if one(bytes, at + 194) == 1 {
            State::Ready
        } else {
            State::Stopped
        },
        cpu: Cpu::fresh(four(bytes, at + 195)),
        table: named(bytes, at),
        pages: space(bytes, at + 2),
    }
}
