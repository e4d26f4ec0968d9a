// One event: an instruction's time for a thread, or a byte that comes in at a line.
ghost use Rattle.std.specs.Prelude.{◌≡◌, ◌+◌, ◌<◌, ◌≤◌};
ghost use Rattle.rv32.specs.Execute as core;
ghost use Rattle.rv32.specs.Registers.{returned};
ghost use Rattle.rights.specs.Vocabulary.{words};
ghost use Rattle.space.specs.Bytes as space;
ghost use Rattle.calls.specs.Calls as calls;
ghost use Rattle.calls.specs.Counts.{most};
ghost use Rattle.kernel.specs.Meets.{answer_of, said_of};
ghost use Rattle.kernel.specs.Steps as spec;

use crate::find::{find_line, find_thread};
use board::Board;
use calls::{Outcome, call};
use rights::{Answer, Call, Said};
use rv32::{Cpu, Step, Width, act};
use space::{Side, Space, State, Thread, store};

// An object is named by its number in the image.
#[derive(Clone, Copy, Debug, PartialEq, Eq)]
pub enum Event {
    Tick { thread: u16 },
    Byte { line: u16, byte: u8 },
}

// A thread stops, and is as new.
#[inline]
fn stop(thread: &mut Thread)
    ensures { thread.new ≡ spec.as_new thread.old }
{
    thread.state = State::Stopped;
    thread.cpu = Cpu::fresh(0);
}

// The low bytes of a value go to an address of a thread's space; where they may not, it stops.
#[inline]
fn store_and_go_on(board: &mut Board, thread: &mut Thread, address: u32, width: Width, value: u32)
    ensures thread { thread.new ≡ spec.after_store board.old.bytes thread.old address width }
    ensures bytes { board.new.bytes ≡ space.stored board.old.bytes thread.old.pages address (core.bytes width value) }
    ensures touched { board.new.touched ≡ board.old.touched }
{
    if store(board.bytes_mut(), &thread.pages, address, width, value) {
        thread.cpu.advance();
    } else {
        stop(thread);
    }
}

// What comes back from a call to the thread, and what is said.
#[inline]
fn parts(outcome: Outcome) -> (Answer, Option<Said>)
    ensures { result ≡ (answer_of outcome, said_of outcome) }
{
    match outcome {
        Outcome::Answered(answer) => (answer, None),
        Outcome::Said(said) => (Answer::Done, Some(said)),
    }
}

// A thread makes a call, and goes on with its answer.
fn call_and_go_on(board: &mut Board, side: &mut Side, thread: usize, request: Call) -> Option<Said>
    requires { thread < 64 }
    ensures bytes { board.new.bytes ≡ (spec.answered thread (calls.call (spec.kept board.old side.old) thread request)).machine.bytes }
    ensures side { side.new ≡ (spec.answered thread (calls.call (spec.kept board.old side.old) thread request)).machine.side }
    ensures said { result ≡ (spec.answered thread (calls.call (spec.kept board.old side.old) thread request)).said }
    ensures touched { board.new.touched ≤ board.old.touched + most (spec.kept board.old side.old) thread request }
{
    let (answer, said) = parts(call(board, side, thread, request));
    side.threads[thread].cpu.resume(answer);
    said
}

// What a thread asks for is done; nothing is, where there is no such thread.
pub fn carry_out(board: &mut Board, side: &mut Side, thread: usize, step: Step) -> Option<Said>
    ensures bytes { board.new.bytes ≡ (spec.carried (spec.kept board.old side.old) thread step).machine.bytes }
    ensures side { side.new ≡ (spec.carried (spec.kept board.old side.old) thread step).machine.side }
    ensures said { result ≡ (spec.carried (spec.kept board.old side.old) thread step).said }
    ensures touched { board.new.touched ≤ board.old.touched + spec.most_in (spec.kept board.old side.old) thread step }
{
    if thread >= 64 {
        return None;
    }
    match step {
        Step::Next {
            register,
            value,
            pc,
        } => side.threads[thread].cpu.go_on(register, value, pc),
        Step::Store {
            address,
            width,
            value,
        } => store_and_go_on(board, &mut side.threads[thread], address, width, value),
        Step::Call(request) => return call_and_go_on(board, side, thread, request),
        Step::Stop => stop(&mut side.threads[thread]),
    }
    None
}

// What a thread does next, if it is ready.
#[inline]
fn next_step(board: &Board, thread: &Thread) -> Option<Step>
    ensures { spec.told_of thread.now.cpu result ≡ spec.next_act board.now.bytes thread.now }
{
    let State::Ready = thread.state else {
        return None;
    };
    let space = Space {
        board: board.bytes(),
        pages: &thread.pages,
    };
    Some(act(&thread.cpu, &space))
}

// One instruction's time for a thread, and the byte that it says in it; nothing if it is not ready.
pub fn tick(board: &mut Board, side: &mut Side, thread: usize) -> Option<Said>
    ensures { spec.Ticked (spec.kept board.old side.old) thread (record { machine = spec.kept board.new side.new; said = result }) }
{
    let step = next_step(board, side.threads.get(thread)?)?;
    carry_out(board, side, thread, step)
}

// A byte comes in at a line; nothing happens where there is none.
pub fn come_in(side: &mut Side, line: u16, byte: u8)
    ensures { side.new ≡ spec.come_in side.old line byte }
{
    if let Some(line) = find_line(side, line) {
        side.lines[line].come_in(byte);
    }
}

// What happens in an event, and the byte that is said in it.
pub fn step(board: &mut Board, side: &mut Side, event: Event) -> Option<Said>
    ensures { spec.Stepped (spec.kept board.old side.old) event (record { machine = spec.kept board.new side.new; said = result }) }
{
    match event {
        Event::Tick { thread } => {
            let thread = find_thread(side, u32::from(thread))?;
            tick(board, side, thread)
        }
        Event::Byte { line, byte } => {
            come_in(side, line, byte);
            None
        }
    }
}
