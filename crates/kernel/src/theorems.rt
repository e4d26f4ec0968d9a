// Theorems about the definitions: each function's contract names a statement, and its proof is that theorem's.
ghost use Rattle.kernel.specs.Events.{EventsMeet, RowsMeet};
ghost use Rattle.kernel.specs.Example.{CanBeMet};
ghost use Rattle.kernel.specs.Finding.{Finds, CanBeFound};
ghost use Rattle.kernel.specs.Meets.{CallsMeet};
ghost use Rattle.kernel.specs.Steps.{TicksPass};

// Every call of a thread does what it does in the abstract world.
pub fn calls_meet()
    ensures { CallsMeet }
{}

// So does an instruction's time for a thread, and a byte that comes in at a line.
pub fn events_meet()
    ensures { EventsMeet }
{}

// So do rows of events, and what they say is what the abstract world says, in order.
pub fn rows_meet()
    ensures { RowsMeet }
{}

// What these ask for can be met.
pub fn can_be_met()
    ensures { CanBeMet }
{}

// A thread and a line are found by the numbers of their objects, and nothing else is found.
pub fn finds()
    ensures { Finds }
{}

// A side in which both are found.
pub fn can_be_found()
    ensures { CanBeFound }
{}

// What the code leaves of a thread's time is what passes in it.
pub fn ticks_pass()
    ensures { TicksPass }
{}
