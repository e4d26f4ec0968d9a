// What a call does to a thread. Each test of the state and of the place stands where it is needed: a
// method that lends the thread would want clauses for the borrow, and is no plainer. A place is held
// against 64 by hand, since of the get_mut of an array no element is known after it.
ghost use Rattle.std.specs.Prelude.{◌≡◌};
ghost use Rattle.model.specs.Calls as calls;
ghost use Rattle.model.specs.Plain as plain;

use crate::ends::Refused;
use crate::objects::{Mapping, Object, State, Thread};
use rv32::Cpu;

impl Object {
    // A stopped thread is ready, and new.
    pub fn go(&mut self, pc: u32) -> Result<(), Refused>
        ensures { plain.left (plain.thing self.new) (plain.done_or_no result) ≡ calls.starts pc (plain.thing self.old) }
    {
        let Object::Thread(t) = self else {
            return Err(Refused);
        };
        let State::Stopped = t.state else {
            return Err(Refused);
        };
        *t = Thread {
            state: State::Ready,
            cpu: Cpu::fresh(pc),
            ..*t
        };
        Ok(())
    }

    // A stopped thread has another table.
    pub fn bind(&mut self, table: usize) -> Result<(), Refused>
        ensures { plain.left (plain.thing self.new) (plain.done_or_no result) ≡ calls.binds table (plain.thing self.old) }
    {
        let Object::Thread(t) = self else {
            return Err(Refused);
        };
        let State::Stopped = t.state else {
            return Err(Refused);
        };
        t.table = Some(table);
        Ok(())
    }

    pub fn map(&mut self, place: u32, page: usize, writes: bool) -> Result<(), Refused>
        ensures { plain.left (plain.thing self.new) (plain.done_or_no result) ≡ calls.maps place page writes (plain.thing self.old) }
    {
        let Object::Thread(t) = self else {
            return Err(Refused);
        };
        if place >= 64 {
            return Err(Refused);
        }
        let None = t.pages[place as usize].page() else {
            return Err(Refused);
        };
        t.pages[place as usize] = Mapping::new(Some(page), writes);
        Ok(())
    }

    pub fn unmap(&mut self, place: u32) -> Result<(), Refused>
        ensures { plain.left (plain.thing self.new) (plain.done_or_no result) ≡ calls.unmaps place (plain.thing self.old) }
    {
        let Object::Thread(t) = self else {
            return Err(Refused);
        };
        if place >= 64 {
            return Err(Refused);
        }
        t.pages[place as usize] = Mapping::new(None, false);
        Ok(())
    }
}
