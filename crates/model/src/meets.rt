// Send and receive.
ghost use Rattle.std.specs.Prelude.{◌≡◌, ◌≢◌, IfOk, OnOk, Ok};
ghost use Rattle.std.specs.Result.{result_ok};
ghost use Rattle.rights.specs.declared.answers.Answer.TheVariants.{No, Received};
ghost use Rattle.model.specs.declared.ends.Outcome.TheVariants.{Answered};
ghost use Rattle.model.specs.declared.objects.State.TheVariants.{Ready};
ghost use Rattle.model.specs.Calls as calls;
ghost use Rattle.model.specs.Plain as plain;

use crate::ends::{CallError, Outcome, Refused};
use crate::objects::{Fault, Letter, Object, State, Thread, Wait, World};
use rights::Answer;

impl Thread {
    // The thread, ready to go on: with the answer, if it waited for one.
    pub fn resumed(self, answer: Answer) -> Thread
        ensures { result ≡ calls.with_state self Ready (calls.then_of self.state self.cpu answer) }
    {
        let mut cpu = self.cpu;
        if let State::Waits(_) = self.state {
            cpu.resume(answer);
        }
        Thread {
            state: State::Ready,
            cpu,
            ..self
        }
    }
}

impl Letter {
    // Whether it hands on what is in its slot: by the right, and a number that is a slot's.
    pub fn may_hand_on(self) -> bool
        ensures { result ≡ calls.may_hand_on self }
    {
        self.hands_on && self.slot <= 4095
    }

    // What the receiver is told.
    pub fn received(self) -> Answer
        ensures { result ≡ Received self.badge self.words }
    {
        let words = self.words;
        Answer::Received {
            badge: self.badge,
            words,
        }
    }
}

impl Object {
    // Who waits first, if it is a port.
    pub fn first(&self) -> Result<Option<Wait>, Refused>
        ensures { result_ok result ≡ calls.first (plain.thing self.now) }
    {
        match self {
            Object::Port { queue, .. } => Ok(queue.front().copied()),
            _ => Err(Refused),
        }
    }

    pub fn join(&mut self, who: Wait) -> Result<(), Fault>
        ensures { OnOk result (plain.thing self.new ≡ calls.joined (plain.thing self.old) who) }
    {
        if let Object::Port { queue, .. } = self {
            queue.push_back(who)?;
        }
        Ok(())
    }

    pub fn serve(&mut self)
        ensures { plain.thing self.new ≡ calls.served (plain.thing self.old) }
    {
        if let Object::Port { queue, .. } = self {
            queue.pop_front();
        }
    }

    pub fn resume(&mut self, answer: Answer)
        ensures { plain.thing self.new ≡ calls.resumed_one (plain.thing self.old) answer }
    {
        if let Object::Thread(t) = self {
            *t = t.resumed(answer);
        }
    }
}

impl World {
    // A reader by number; `get` says why.
    pub fn first(&self, o: usize) -> Result<Option<Wait>, Refused>
        ensures { result_ok result ≡ calls.first (plain.object (plain.plain self.now) o) }
    {
        self.get(o).ok_or(Refused)?.first()
    }

    // One more waits at a port.
    // A writer by number; `get_mut` says why.
    pub fn wait_at(&mut self, o: usize, who: Wait) -> Result<Outcome, Fault>
        ensures { IfOk result (λ e. plain.ended (plain.plain self.new) e ≡ calls.waiting (plain.plain self.old) o who) }
    {
        if let Some(it) = self.get_mut(o) {
            it.join(who)?;
        }
        Ok(Outcome::Waiting(o))
    }

    // A writer by number; `get_mut` says why.
    pub fn serve(&mut self, o: usize)
        ensures { plain.plain self.new ≡ plain.with_object (plain.plain self.old) o (calls.served (plain.object (plain.plain self.old) o)) }
    {
        if let Some(it) = self.get_mut(o) {
            it.serve();
        }
    }

    // A writer by number; `get_mut` says why.
    pub fn resume(&mut self, t: usize, answer: Answer)
        ensures { plain.plain self.new ≡ calls.resumed (plain.plain self.old) t answer }
    {
        if let Some(it) = self.get_mut(t) {
            it.resume(answer);
        }
    }

    // What is in slot `s` of thread `p` goes to slot `d` of thread `q`, if it may, there is something
    // and `d` is there and empty.
    pub fn hand(&mut self, may: bool, p: usize, s: u32, q: usize, d: u32)
        ensures { plain.plain self.new ≡ calls.handed (plain.plain self.old) may p s q d }
    {
        let it = self.slot(p, s);
        if may && it.is_some() && self.is_free(q, d) {
            self.put_slot(q, d, it);
            self.put_slot(p, s, None);
        }
    }

    pub fn send_at(&mut self, o: usize, letter: Letter) -> Result<Outcome, CallError>
        ensures comes { plain.Comes result (plain.ended (plain.plain self.new)) (plain.on (plain.plain self.new) No) (calls.send_at (plain.plain self.old) o letter) }
        ensures pinned { result ≢ Ok (Answered No) }
    {
        match self.first(o)? {
            Some(Wait::Receiver { thread, slot }) => {
                self.serve(o);
                self.hand(
                    letter.may_hand_on(),
                    letter.thread,
                    letter.slot,
                    thread,
                    slot,
                );
                self.resume(thread, letter.received());
                Ok(Outcome::Answered(Answer::Done))
            }
            _ => Ok(self.wait_at(o, Wait::Sender(letter))?),
        }
    }

    pub fn send(
        &mut self,
        p: usize,
        s: u32,
        slot: u32,
        words: [u32; 4],
    ) -> Result<Outcome, CallError>
        ensures comes { plain.Comes result (plain.ended (plain.plain self.new)) (plain.on (plain.plain self.new) No) (calls.send (plain.plain self.old) p s slot words) }
        ensures pinned { result ≢ Ok (Answered No) }
    {
        let c = self.writable(p, s)?;
        let letter = Letter {
            thread: p,
            badge: c.badge,
            words,
            hands_on: c.rights.hands_on(),
            slot,
        };
        self.send_at(c.object, letter)
    }

    pub fn receive_at(&mut self, p: usize, o: usize, d: u32) -> Result<Outcome, CallError>
        ensures comes { plain.Comes result (plain.ended (plain.plain self.new)) (plain.on (plain.plain self.new) No) (calls.receive_at (plain.plain self.old) p o d) }
        ensures pinned { result ≢ Ok (Answered No) }
    {
        match self.first(o)? {
            Some(Wait::Sender(letter)) => {
                self.serve(o);
                self.hand(letter.may_hand_on(), letter.thread, letter.slot, p, d);
                self.resume(letter.thread, Answer::Done);
                Ok(Outcome::Answered(letter.received()))
            }
            _ => Ok(self.wait_at(o, Wait::Receiver { thread: p, slot: d })?),
        }
    }

    pub fn receive(&mut self, p: usize, s: u32, d: u32) -> Result<Outcome, CallError>
        ensures comes { plain.Comes result (plain.ended (plain.plain self.new)) (plain.on (plain.plain self.new) No) (calls.receive (plain.plain self.old) p s d) }
        ensures pinned { result ≢ Ok (Answered No) }
    {
        let port = self.readable(p, s)?.object;
        self.receive_at(p, port, d)
    }
}
