// What is shown of calls: each contract names a statement.
ghost use Rattle.calls.specs.Example.{EachCanBeDone};
ghost use Rattle.calls.specs.Laws.{NoTableNoCall, OneAlone, RefusedLeaves};

// A call that is refused leaves everything as it was.
pub fn refused_leaves()
    ensures { RefusedLeaves }
{}

// No call changes both the board and what lies beside it.
pub fn one_alone()
    ensures { OneAlone }
{}

// Who has no table is refused every call.
pub fn no_table_no_call()
    ensures { NoTableNoCall }
{}

// Each call can be done.
pub fn each_can_be_done()
    ensures { EachCanBeDone }
{}
