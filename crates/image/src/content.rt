// What follows the headers: the slots of tables, the bytes of pages, the states of threads.
ghost use Rattle.std.specs.Prelude.{◌≡◌};
ghost use Rattle.image.specs.Format as format;

use crate::fields::{past, read_one, read_two};
use crate::headers::{Image, head_at, is_a, size_at};
use rights::{Kind, Refusal};

impl Image<'_> {
    // A slot: object + 1, rights, badge.
    fn slot(&self, at: usize) -> Result<usize, Refusal>
        ensures { result ≡ format.slot self.now.bytes.now self.now.objects at }
    {
        let (number, rights_at) = read_two(self.bytes, at)?;
        if number > self.objects {
            return Err(Refusal::Name(at));
        }
        let (rights, badge_at) = read_one(self.bytes, rights_at)?;
        if rights > 7 {
            return Err(Refusal::Value(rights_at));
        }
        past(self.bytes, badge_at, 4)
    }

    // A page of a space: page + 1, whether it may be written.
    fn mapping(&self, at: usize) -> Result<usize, Refusal>
        ensures { result ≡ format.mapping self.now.bytes.now self.now.objects at }
    {
        let (number, mark_at) = read_two(self.bytes, at)?;
        if !self.names(number, Kind::Page) {
            return Err(Refusal::Name(at));
        }
        let (mark, next) = read_one(self.bytes, mark_at)?;
        if mark > 1 {
            return Err(Refusal::Value(mark_at));
        }
        Ok(next)
    }

    // The slots of a table of `count`.
    fn slots(&self, count: u16, at: usize) -> Result<usize, Refusal>
        ensures { result ≡ format.entries (format.slot self.now.bytes.now self.now.objects) count at }
    {
        (0..count).try_fold(at, |at, _slot| self.slot(at))
    }

    // The 64 pages of a space.
    fn space(&self, at: usize) -> Result<usize, Refusal>
        ensures { result ≡ format.entries (format.mapping self.now.bytes.now self.now.objects) 64 at }
    {
        (0..64u8).try_fold(at, |at, _page| self.mapping(at))
    }

    // A thread: table + 1, space, ready, pc.
    fn state(&self, at: usize) -> Result<usize, Refusal>
        ensures { result ≡ format.state self.now.bytes.now self.now.objects at }
    {
        let (number, space_at) = read_two(self.bytes, at)?;
        if !self.names(number, Kind::Table) {
            return Err(Refusal::Name(at));
        }
        let ready_at = self.space(space_at)?;
        let (ready, pc_at) = read_one(self.bytes, ready_at)?;
        if ready > 1 {
            return Err(Refusal::Value(ready_at));
        }
        past(self.bytes, pc_at, 4)
    }

    // What object `o`, of a kind, has.
    fn content(&self, kind: Kind, o: u16, at: usize) -> Result<usize, Refusal>
        ensures { result ≡ format.content self.now.bytes.now self.now.objects kind o at }
    {
        match kind {
            Kind::Table => self.slots(size_at(self.bytes, o), at),
            Kind::Page => past(self.bytes, at, 4096),
            Kind::Thread => self.state(at),
            Kind::Pool | Kind::Port | Kind::Line => Ok(at),
        }
    }

    // The same, if object `o` is of that kind.
    pub fn part(&self, kind: Kind, o: u16, at: usize) -> Result<usize, Refusal>
        ensures { result ≡ format.part self.now.bytes.now self.now.objects kind o at }
    {
        if is_a(self.bytes, o, kind) {
            self.content(kind, o, at)
        } else {
            Ok(at)
        }
    }

    // What all objects of a kind have, in their order.
    pub fn section(&self, kind: Kind, at: usize) -> Result<usize, Refusal>
        ensures { result ≡ format.section self.now.bytes.now self.now.objects kind at }
    {
        (0..self.objects).try_fold(at, |at, o| self.part(kind, o, at))
    }

    // All that follows the headers: the place after it.
    pub fn body(&self) -> Result<usize, Refusal>
        ensures { result ≡ format.body self.now.bytes.now self.now.objects }
    {
        let at = self.section(Kind::Table, head_at(self.objects))?;
        let at = self.section(Kind::Page, at)?;
        self.section(Kind::Thread, at)
    }
}
