// What is shown of the ring: each contract names a law.
ghost use Rattle.chain.specs.Laws.{RootsStand, InsertKeeps, MoveKeeps, TakeOutKeeps, SweepKeeps, RunIsOffspring, DepthBound};
ghost use Rattle.chain.specs.Example.{ExampleStands, ExampleOnBoard};
ghost use Rattle.chain.specs.OnBoard.{InsertOnBoard, MoveOnBoard, TakeOutOnBoard, SweepOnBoard, LinksDecide, RunLengths};

// A ring of roots is right.
pub fn roots_stand()
    ensures { RootsStand }
{}

// A new slot goes right after what it was made from, one deeper.
pub fn insert_keeps()
    ensures { InsertKeeps }
{}

// Another slot takes a slot's place.
pub fn move_keeps()
    ensures { MoveKeeps }
{}

// A slot leaves the ring, and its run rises.
pub fn take_out_keeps()
    ensures { TakeOutKeeps }
{}

// A slot's run leaves the ring.
pub fn sweep_keeps()
    ensures { SweepKeeps }
{}

// A slot's run is what was made from it.
pub fn run_is_offspring()
    ensures { RunIsOffspring }
{}

// How deep a slot can be.
pub fn depth_bound()
    ensures { DepthBound }
{}

// A ring that meets what these ask for.
pub fn example_stands()
    ensures { ExampleStands }
{}

// The same over the board's bytes, and nothing else is changed: a new slot goes in.
pub fn insert_on_board()
    ensures { InsertOnBoard }
{}

// Another slot takes a slot's place, on the board.
pub fn move_on_board()
    ensures { MoveOnBoard }
{}

// A slot leaves the ring, on the board.
pub fn take_out_on_board()
    ensures { TakeOutOnBoard }
{}

// A slot's run leaves the ring and is emptied, on the board.
pub fn sweep_on_board()
    ensures { SweepOnBoard }
{}

// What leaves the links of a ring's slots leaves the ring.
pub fn links_decide()
    ensures { LinksDecide }
{}

// How many slots a walk passes.
pub fn run_lengths()
    ensures { RunLengths }
{}

// A board that meets what these ask for.
pub fn example_on_board()
    ensures { ExampleOnBoard }
{}
