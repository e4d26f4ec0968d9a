// The images that the tests start from.
ghost use Rattle.std.specs.Prelude.{◌≡◌, ◌++◌, ◌≤◌, ◌^◌, IfOk, OnOk, vec_len};
ghost use Rattle.image_tests.specs.Images as images;

use image_builder::ImageBuilder;
use rights::Kind;
use std::alloc::{AllocError, Global};

// The length of the sample: 27 + 3 × 7 + 2 × 4,096 = 8,240 bytes up to the threads, and 199 for each
// of them.
pub const LENGTH: usize = 8638;

// The seven headers of the sample, at 6 + 3 × o: a table of two slots, a page, a thread, a line,
// a table of one slot, a page, a thread.
fn headers(image: &mut ImageBuilder) -> Result<(), AllocError>
    ensures { OnOk result (image.new ≡ image.old ++ images.headers) }
{
    image.header(Kind::Table, 2)?;
    image.header(Kind::Page, 0)?;
    image.header(Kind::Thread, 0)?;
    image.header(Kind::Line, 0)?;
    image.header(Kind::Table, 1)?;
    image.header(Kind::Page, 0)?;
    image.header(Kind::Thread, 0)
}

// A page with its first and its last byte.
fn page(image: &mut ImageBuilder, first: u8, last: u8) -> Result<(), AllocError>
    ensures { OnOk result (image.new ≡ image.old ++ images.page first last) }
{
    image.write(&[first])?;
    image.zeros(4094)?;
    image.write(&[last])
}

// A thread that is ready, with a page at the first and the last place of its space; the 62 places
// between are free.
fn thread(image: &mut ImageBuilder, table: u16, page: u16, pc: u32) -> Result<(), AllocError>
    ensures { OnOk result (image.new ≡ image.old ++ images.thread table page pc) }
{
    image.table(table)?;
    image.mapping(page, 1)?;
    image.zeros(3 * 62)?;
    image.mapping(page, 0)?;
    image.begins(1, pc)
}

// Its contents, from 6 + 3 × 7 = 27 on. Slots are at 27, 34 (empty, with rights and a badge all the
// same) and 41, pages at 48 and 4,144, threads at 8,240 and 8,439. A thread has its table at 0, its
// space from 2 to 193, its ready mark at 194 and its pc at 195.
fn contents(image: &mut ImageBuilder) -> Result<(), AllocError>
    ensures { OnOk result (image.new ≡ image.old ++ images.contents) }
{
    image.slot(7, 7, 0xffff_ffff)?;
    image.slot(0, 7, 0xffff_ffff)?;
    image.slot(1, 0, 0)?;
    page(image, 1, 255)?;
    page(image, 255, 1)?;
    thread(image, 5, 6, 0xffff_ffff)?;
    thread(image, 1, 2, 0)
}

// An image of seven objects with all there is in a table, a page and a thread, each twice.
#[tactic(auto, using(crate::proofs::Sizes::length_sample))]
pub fn sample(heap: Global) -> Result<Vec<u8>, AllocError>
    ensures bytes { IfOk result (λ bytes. bytes.items ≡ images.sample) }
    ensures length { IfOk result (λ bytes. vec_len bytes ≡ LENGTH) }
{
    let mut image = ImageBuilder::new(heap);
    image.begin(7)?;
    headers(&mut image)?;
    contents(&mut image)?;
    Ok(image.finish())
}

// So many objects of a kind and a size.
#[derive(Clone, Copy, Debug)]
pub struct Objects(pub u16, pub Kind, pub u16);

impl Objects {
    fn headers(self, image: &mut ImageBuilder) -> Result<(), AllocError>
        ensures { OnOk result (image.new ≡ image.old ++ images.headers_of self) }
    {
        for _ in 0..self.0 {
            image.header(self.1, self.2)?;
        }
        Ok(())
    }

    // How many bytes each has after the headers: 7 for a slot, 2 + 64 × 3 + 1 + 4 for a thread.
    fn content(self) -> usize
        ensures value { result ≡ images.each_content self.1 self.2 }
        ensures bound { result ≤ 2 ^ 19 }
    {
        match self.1 {
            Kind::Table => 7 * usize::from(self.2),
            Kind::Page => 4096,
            Kind::Thread => 199,
            Kind::Pool | Kind::Port | Kind::Line => 0,
        }
    }
}

// How many objects there are in all.
fn count(rows: &[Objects]) -> u16
    ensures { result ≡ images.count_of rows.now }
{
    rows.iter()
        .fold(0u16, |count, row| count.saturating_add(row.0))
}

// An image of these objects with nothing in them: 0 in every slot, page and thread.
pub fn blank(heap: Global, rows: &[Objects]) -> Result<Vec<u8>, AllocError>
    ensures { IfOk result (λ bytes. bytes.items ≡ images.blank rows.now) }
{
    let mut image = ImageBuilder::new(heap);
    image.begin(count(rows))?;
    for row in rows {
        row.headers(&mut image)?;
    }
    for row in rows {
        image.zeros(usize::from(row.0) * row.content())?;
    }
    Ok(image.finish())
}
