// Revoke: what has a mark is taken out of every object.
ghost use Rattle.std.specs.Prelude.{◌≡◌, map};
ghost use Rattle.model.specs.Plain as plain;
ghost use Rattle.model.specs.Sweeps as sweeps;

use crate::marks::LentMarks;
use crate::objects::{Capability, Mapping, Object, State, Thread, Wait};
use rights::Answer;
use std::collections::VecDeque;

impl Wait {
    // The thread that waits.
    pub fn who(self) -> usize
        ensures { result ≡ sweeps.who self }
    {
        match self {
            Wait::Sender(letter) => letter.thread,
            Wait::Receiver { thread, .. } => thread,
        }
    }
}

// Each item becomes what `keep` makes of it.
fn keep_each<T: Copy, F: Fn(T) -> T>(items: &mut [T], keep: F)
    requires { F.IsAlwaysCallable keep }
    ensures { (f : T → T) → ((x : _) (y : _) → F.post keep x y → y ≡ f x) → items.new ≡ map f items.old }
{
    for x in items.iter_mut() {
        *x = keep(*x);
    }
}

impl LentMarks<'_> {
    fn kept_slot(&self, x: Option<Capability>) -> Option<Capability>
        ensures { result ≡ sweeps.kept_slot self.now x }
    {
        let c = x?;
        if self.takes_birth(c.birth) || self.takes(c.object) {
            return None;
        }
        x
    }

    fn kept_number(&self, number: Option<usize>) -> Option<usize>
        ensures { result ≡ sweeps.kept_number self.now number }
    {
        if self.takes(number?) {
            return None;
        }
        number
    }

    fn kept_page(&self, x: Mapping) -> Mapping
        ensures { result ≡ sweeps.kept_page self.now x }
    {
        Mapping::new(self.kept_number(x.page()), x.writes())
    }

    // One who waits is kept, unless the thread is gone.
    fn keep_waits(&self, queue: &mut VecDeque<Wait>)
        ensures { queue.new.items ≡ sweeps.kept_waits self.now queue.old.items }
    {
        queue.retain(|x| !self.takes(x.who()));
    }

    // Whether a thread waits at an object that is gone.
    fn at_marked(&self, state: State) -> bool
        ensures { result ≡ sweeps.at_marked self.now state }
    {
        match state {
            State::Waits(o) => self.takes(o),
            State::Stopped | State::Ready => false,
        }
    }

    fn kept_thread(&self, t: Thread) -> Thread
        ensures { result ≡ sweeps.kept_thread self.now t }
    {
        let mut pages = t.pages;
        keep_each(&mut pages, |x| self.kept_page(x));
        let t = if self.at_marked(t.state) {
            t.resumed(Answer::No)
        } else {
            t
        };
        Thread {
            table: self.kept_number(t.table),
            pages,
            ..t
        }
    }
}

impl Object {
    pub fn sweep(&mut self, marks: &LentMarks<'_>)
        ensures { plain.thing self.new ≡ sweeps.kept marks.now (plain.thing self.old) }
    {
        match self {
            Object::Table { slots, .. } => {
                keep_each(slots.as_mut_slice(), |x| marks.kept_slot(x));
            }
            Object::Port { queue, .. } => marks.keep_waits(queue),
            Object::Thread(t) => *t = marks.kept_thread(*t),
            Object::Gone | Object::Pool { .. } | Object::Page { .. } | Object::Line { .. } => {}
        }
    }

    // Object number `i`, which may be gone itself.
    pub fn sweep_at(&mut self, marks: &LentMarks<'_>, i: usize)
        ensures { plain.thing self.new ≡ sweeps.kept_at marks.now i (plain.thing self.old) }
    {
        if marks.takes(i) {
            *self = Object::Gone;
        } else {
            self.sweep(marks);
        }
    }
}
