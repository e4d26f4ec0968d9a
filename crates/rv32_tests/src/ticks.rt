// One instruction over a core and a memory.
ghost use Rattle.std.specs.Prelude.{◌≡◌};
ghost use Rattle.rv32.specs.Execute as core;
ghost use Rattle.rv32_tests.specs.Ticked as spec;

use crate::ram::Ram;
use rv32::{Cpu, Step, act};
use std::ops::ControlFlow;

// A core at pc 16 with x1 and x2.
pub fn started(a: u32, b: u32) -> Cpu
    ensures { result ≡ spec.started a b }
{
    let mut cpu = Cpu::fresh(16);
    cpu.put(1, a);
    cpu.put(2, b);
    cpu
}

// What one instruction leaves of such a core, if it touches nothing else.
pub fn stepped(ram: &Ram, a: u32, b: u32) -> Option<Cpu>
    ensures { result ≡ spec.stepped (core.act (spec.started a b) (spec.byte_of ram.now)) }
{
    let mut cpu = started(a, b);
    let Step::Next {
        register,
        value,
        pc,
    } = act(&cpu, ram)
    else {
        return None;
    };
    cpu.go_on(register, value, pc);
    Some(cpu)
}

// One instruction; a call, and what stops, are left to the caller.
pub fn tick(cpu: &mut Cpu, ram: &mut Ram) -> ControlFlow<Step>
    ensures { spec.Ticked (core.act cpu.old (spec.byte_of ram.old)) cpu.old ram.old result cpu.new ram.new }
{
    match act(cpu, ram) {
        Step::Next {
            register,
            value,
            pc,
        } => cpu.go_on(register, value, pc),
        Step::Store {
            address,
            width,
            value,
        } => {
            ram.store(address, width, value);
            cpu.advance();
        }
        step @ (Step::Call(_) | Step::Stop) => return ControlFlow::Break(step),
    }
    ControlFlow::Continue(())
}
