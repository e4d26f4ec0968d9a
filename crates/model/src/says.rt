// What a step of a thread says.
ghost use Rattle.std.specs.Prelude.{◌≡◌};
ghost use Rattle.model.specs.Plain as plain;
ghost use Rattle.model.specs.Says as spec;

use crate::objects::{Object, World};
use rights::{Call, Said};
use rv32::Step;

impl Object {
    pub fn is_line(&self) -> bool
        ensures { result ≡ spec.is_line (plain.thing self.now) }
    {
        matches!(self, Object::Line { .. })
    }
}

impl World {
    // The byte that thread `p` says with a step, if it says one. It is asked before the step is carried
    // out.
    pub fn says(&self, p: usize, step: Step) -> Option<Said>
        ensures { result ≡ spec.says (plain.plain self.now) p step }
    {
        let Step::Call(Call::Say { line, byte }) = step else {
            return None;
        };
        let line = self.writable(p, line).ok()?.object;
        if !self.get(line).is_some_and(Object::is_line) {
            return None;
        }
        let byte = (byte % 256) as u8;
        Some(Said { line, byte })
    }
}
