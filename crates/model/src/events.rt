// One instruction of a thread.
ghost use Rattle.std.specs.Prelude.{◌≡◌, IfOk, OnOk};
ghost use Rattle.rights.specs.Said.{event_says};
ghost use Rattle.rights.specs.World.{tick};
ghost use Rattle.rv32.specs.declared.registers.Cpu.{Cpu};
ghost use Rattle.model.specs.Meaning.{sizes, world_of};
ghost use Rattle.model.specs.Plain as plain;
ghost use Rattle.model.specs.Turns as turns;
ghost use Rattle.rv32.specs.Execute as core;
ghost use Rattle.rv32.specs.Registers as registers;
ghost use Rattle.rights.specs.declared.answers.Answer.TheVariants.{No};
ghost use Rattle.model.specs.declared.ends.Outcome.TheVariants.{Answered};
ghost use Rattle.model.specs.declared.objects.State.TheVariants as State;
ghost use Rattle.rv32.specs.declared.steps.Step.TheVariants as Step;

use crate::ends::{CallError, Outcome};
use crate::objects::{Fault, Object, State, Thread, World};
use crate::spaces::Space;
use rights::{Answer, Call, Said};
use rv32::{Cpu, Step, Width, act};

impl Object {
    pub fn cpu(&self) -> Cpu
        ensures { result ≡ turns.cpu_of (plain.thing self.now) }
    {
        match self {
            Object::Thread(t) => t.cpu,
            _ => Cpu::fresh(0),
        }
    }

    pub fn set_state(&mut self, state: State, cpu: Cpu)
        ensures { plain.thing self.new ≡ turns.set_state state cpu (plain.thing self.old) }
    {
        if let Object::Thread(t) = self {
            *t = Thread { state, cpu, ..*t };
        }
    }

    // The page that `size` bytes may be stored to, at an address of a thread's space.
    pub fn may_store(&self, address: u32, size: u32) -> Option<usize>
        ensures { result ≡ turns.may_store (plain.thing self.now) address size }
    {
        let Object::Thread(t) = self else {
            return None;
        };
        let mapping = t.pages.get(address as usize / 4096)?;
        if !mapping.writes() || u64::from(address) % 4096 + u64::from(size) > 4096 {
            return None;
        }
        mapping.page()
    }

    // The range is tested by hand, since of the get_mut of a range no bytes are known after it.
    pub fn store(&mut self, k: usize, width: Width, value: u32)
        ensures { plain.thing self.new ≡ turns.stored k (core.bytes width value) (plain.thing self.old) }
    {
        let Object::Page { bytes, .. } = self else {
            return;
        };
        let size = width.size() as usize;
        if bytes.len() < size || k > bytes.len() - size {
            return;
        }
        let word = value.to_le_bytes();
        bytes[k..k + size].copy_from_slice(&word[..size]);
    }
}

impl World {
    // A reader by number; `get` says why.
    pub fn cpu(&self, p: usize) -> Cpu
        ensures { result ≡ turns.cpu_of (plain.object (plain.plain self.now) p) }
    {
        self.get(p).map_or(Cpu::fresh(0), Object::cpu)
    }

    // A writer by number; `get_mut` says why.
    pub fn set_thread(&mut self, p: usize, state: State, cpu: Cpu)
        ensures { plain.plain self.new ≡ turns.with_thread (plain.plain self.old) p state cpu }
    {
        if let Some(it) = self.get_mut(p) {
            it.set_state(state, cpu);
        }
    }

    // A reader by number; `get` says why.
    pub fn may_store(&self, p: usize, address: u32, size: u32) -> Option<usize>
        ensures { result ≡ turns.may_store (plain.object (plain.plain self.now) p) address size }
    {
        self.get(p)?.may_store(address, size)
    }

    // What a call of thread `p` does, or why it does nothing.
    fn attempt(&mut self, p: usize, call: Call) -> Result<Outcome, CallError>
        ensures { plain.Comes result (plain.ended (plain.plain self.new)) (plain.on (plain.plain self.new) No) (turns.does (plain.plain self.old) p call) }
    {
        match call {
            Call::Send {
                port,
                hand_on,
                words,
            } => return self.send(p, port, hand_on, words),
            Call::Receive { port, into } => return self.receive(p, port, into),
            Call::Hear { line } => {
                let byte = self.hear(p, line)?;
                return Ok(Outcome::Answered(Answer::Heard(byte)));
            }
            Call::Cut { pool, what, into } => self.cut(p, pool, what, into)?,
            Call::Copy {
                from,
                into,
                rights,
                badge,
            } => self.copy(p, from, into, rights, badge)?,
            Call::Move { from, into } => self.shift(p, from, into)?,
            Call::Drop { slot } => self.let_go(p, slot)?,
            Call::Revoke { slot } => self.revoke(p, slot)?,
            Call::Map {
                page,
                thread,
                place,
            } => self.map(p, page, thread, place)?,
            Call::Unmap { thread, place } => self.unmap(p, thread, place)?,
            Call::Bind { thread, table } => self.bind(p, thread, table)?,
            Call::Go { thread, pc } => self.go(p, thread, pc)?,
            Call::Say { line, byte } => self.say(p, line, byte)?,
        }
        Ok(Outcome::Answered(Answer::Done))
    }

    // What a call of thread `p` does. One that is refused has the answer no.
    pub fn call(&mut self, p: usize, call: Call) -> Result<Outcome, Fault>
        ensures { IfOk result (λ e. plain.ended (plain.plain self.new) e ≡ turns.does (plain.plain self.old) p call) }
    {
        match self.attempt(p, call) {
            Ok(outcome) => Ok(outcome),
            Err(CallError::Refused) => Ok(Outcome::Answered(Answer::No)),
            Err(CallError::Fault(fault)) => Err(fault),
        }
    }

    // What thread `p` does next, if it is ready.
    pub fn next_step(&self, p: usize) -> Option<Step>
        ensures { turns.told_of (plain.object (plain.plain self.now) p) result ≡ turns.next_act (plain.plain self.now) (plain.object (plain.plain self.now) p) }
    {
        let Some(Object::Thread(t)) = self.get(p) else {
            return None;
        };
        let State::Ready = t.state else {
            return None;
        };
        let space = Space {
            world: self,
            pages: &t.pages,
        };
        Some(act(&t.cpu, &space))
    }

    fn stop(&mut self, p: usize)
        ensures { plain.plain self.new ≡ turns.with_thread (plain.plain self.old) p State.Stopped (registers.fresh 0) }
    {
        self.set_thread(p, State::Stopped, Cpu::fresh(0));
    }

    fn store(&mut self, p: usize, address: u32, width: Width, value: u32)
        ensures { plain.plain self.new ≡ turns.carried (plain.plain self.old) p (Step.Store address width value) }
    {
        let Some(o) = self.may_store(p, address, width.size()) else {
            self.stop(p);
            return;
        };
        let mut cpu = self.cpu(p);
        if let Some(page) = self.get_mut(o) {
            page.store(address as usize % 4096, width, value);
        }
        cpu.advance();
        self.set_thread(p, State::Ready, cpu);
    }

    fn call_and_go_on(&mut self, p: usize, call: Call) -> Result<(), Fault>
        ensures { OnOk result (plain.plain self.new ≡ turns.carried (plain.plain self.old) p (Step.Call call)) }
    {
        let mut cpu = self.cpu(p);
        match self.call(p, call)? {
            Outcome::Answered(answer) => {
                cpu.resume(answer);
                self.set_thread(p, State::Ready, cpu);
            }
            Outcome::Waiting(o) => self.set_thread(p, State::Waits(o), cpu),
        }
        Ok(())
    }

    // Carries out a step of thread `p`.
    pub fn carry_out(&mut self, p: usize, step: Step) -> Result<(), Fault>
        ensures { OnOk result (plain.plain self.new ≡ turns.carried (plain.plain self.old) p step) }
    {
        match step {
            Step::Next {
                register,
                value,
                pc,
            } => {
                let mut cpu = self.cpu(p);
                cpu.go_on(register, value, pc);
                self.set_thread(p, State::Ready, cpu);
            }
            Step::Store {
                address,
                width,
                value,
            } => self.store(p, address, width, value),
            Step::Call(call) => self.call_and_go_on(p, call)?,
            Step::Stop => self.stop(p),
        }
        Ok(())
    }

    // One instruction's time for thread `p`, and the byte that it says in it; nothing if it is not ready.
    pub fn tick(&mut self, p: usize) -> Result<Option<Said>, Fault>
        ensures ticked { IfOk result (λ _. turns.Ticked (plain.plain self.old) p (plain.plain self.new)) }
        ensures said { IfOk result (λ said. said ≡ event_says Cpu registers.fresh core.act sizes (world_of (plain.plain self.old)) (tick p)) }
    {
        let Some(step) = self.next_step(p) else {
            return Ok(None);
        };
        let said = self.says(p, step);
        self.carry_out(p, step)?;
        Ok(said)
    }
}
