// The image that the tests start from: object 0 a pool, 1 a line, 2 a port, 3 a page, 4 a table of
// twelve slots, and from 5 on a thread for each program, and then the page with its code. Slots 0 to 4
// and those of the threads hold the object of their number with all rights.
ghost use Rattle.std.specs.Prelude.{◌≡◌, ◌++◌, ◌+◌, ◌<◌, ◌≤◌, length, IfOk, OnOk};
ghost use Rattle.std.specs.List.{flat_map, repeat};
ghost use Rattle.image_builder.specs.Written.{header};
ghost use Rattle.replay_tests.specs.Setting as spec;

use assembler::{Line, assemble};
use image_builder::ImageBuilder;
use rights::Kind;
use std::alloc::{AllocError, Global};

// The code of a thread, and words of data behind it; they lie at 0, in a page that may be written. A
// thread that isn't ready has no table either.
#[derive(Clone, Copy, Debug)]
pub struct Program {
    pub code: &'static [Line],
    pub data: &'static [[u32; 8]],
    pub ready: bool,
}

// The same header so many times.
fn same(image: &mut ImageBuilder, kind: Kind, count: u16) -> Result<(), AllocError>
    ensures { OnOk result (image.new ≡ image.old ++ repeat count (header kind 0)) }
{
    for _ in 0..count {
        image.header(kind, 0)?;
    }
    Ok(())
}

// The headers: the pool has so many frames.
fn headers(image: &mut ImageBuilder, frames: u16, programs: u16) -> Result<(), AllocError>
    ensures { OnOk result (image.new ≡ image.old ++ spec.headers frames programs) }
{
    image.header(Kind::Pool, frames)?;
    image.header(Kind::Line, 0)?;
    image.header(Kind::Port, 0)?;
    image.header(Kind::Page, 0)?;
    image.header(Kind::Table, 12)?;
    same(image, Kind::Thread, programs)?;
    same(image, Kind::Page, programs)
}

// Slots that hold the objects of their numbers.
fn held(image: &mut ImageBuilder, full: u16) -> Result<(), AllocError>
    requires { full ≤ 12 }
    ensures { OnOk result (image.new ≡ image.old ++ spec.held full) }
{
    for object in 0..full {
        image.slot(object + 1, 7, 0)?;
    }
    Ok(())
}

// The twelve slots of the table, the first of which are full.
fn slots(image: &mut ImageBuilder, full: u16) -> Result<(), AllocError>
    requires { full ≤ 12 }
    ensures { OnOk result (image.new ≡ image.old ++ spec.slots full) }
{
    held(image, full)?;
    image.zeros(7 * usize::from(12 - full))
}

// Words of data.
fn words(bytes: &mut Vec<u8>, words: &[u32; 8]) -> Result<(), AllocError>
    ensures { OnOk result (bytes.new.items ≡ bytes.old.items ++ spec.words words.now) }
{
    for word in words {
        bytes.extend_from_slice(&word.to_le_bytes())?;
    }
    Ok(())
}

// The page of a program.
fn code(image: &mut ImageBuilder, heap: Global, program: &Program) -> Result<(), AllocError>
    ensures { OnOk result (image.new ≡ image.old ++ spec.code program.now) }
{
    let mut bytes = assemble(heap, program.code)?;
    for row in program.data {
        words(&mut bytes, row)?;
    }
    image.page(&bytes)
}

// A thread, with the page of a number at the beginning of its space and nothing else in it.
fn thread(image: &mut ImageBuilder, ready: bool, number: u16) -> Result<(), AllocError>
    ensures { OnOk result (image.new ≡ image.old ++ spec.thread ready number) }
{
    image.table(if ready { 5 } else { 0 })?;
    image.mapping(number, 1)?;
    image.zeros(3 * 63)?;
    image.begins(u8::from(ready), 0)
}

// The first threads of some programs, with pages from a number on.
fn threads(
    image: &mut ImageBuilder,
    programs: &[Program],
    first: u16,
    count: u16,
) -> Result<(), AllocError>
    requires { (first + count < 65536) × (count ≤ length programs.now) }
    ensures { OnOk result (image.new ≡ image.old ++ spec.threads programs.now first count) }
{
    for k in 0..count {
        thread(image, programs[usize::from(k)].ready, first + k)?;
    }
    Ok(())
}

// An image with so many frames in its pool, and a thread for each program, seven at most.
pub fn image(heap: Global, frames: u16, programs: &[Program]) -> Result<Vec<u8>, AllocError>
    ensures { IfOk result (λ bytes. bytes.items ≡ spec.image frames programs.now) }
{
    let count = programs.len().min(7) as u16;
    let mut image = ImageBuilder::new(heap);
    image.begin(5 + 2 * count)?;
    headers(&mut image, frames, count)?;
    slots(&mut image, 5 + count)?;
    image.page(&[])?;
    for program in programs {
        code(&mut image, heap, program)?;
    }
    threads(&mut image, programs, 6 + count, count)?;
    Ok(image.finish())
}
