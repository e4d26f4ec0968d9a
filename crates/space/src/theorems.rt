// Theorems about the definitions: each function's contract names one, and its proof is that theorem's.
ghost use Rattle.space.specs.Laws as laws;

// An entry leads to the page that it was made for.
pub fn entries_read_back()
    ensures { laws.EntriesReadBack }
{}

// A new space has no page.
pub fn new_is_free()
    ensures { laws.NewIsFree }
{}

// Nor has a leaf that was not used.
pub fn unused_is_free()
    ensures { laws.UnusedIsFree }
{}

// Map changes one page of a space.
pub fn maps()
    ensures { laws.Maps }
{}

// So does unmap.
pub fn unmaps()
    ensures { laws.Unmaps }
{}

// Exactly the pages in a range leave.
pub fn range_leaves()
    ensures { laws.RangeLeaves }
{}

// Every space, and nothing else of a thread.
pub fn range_leaves_all()
    ensures { laws.RangeLeavesAll }
{}

// Nothing is past the end of a space, or at a place where no page can be.
pub fn nothing_beyond()
    ensures { laws.NothingBeyond }
{}

// Page tables keep their shape.
pub fn stays_shaped()
    ensures { laws.StaysShaped }
{}

// A thread sees what it sees in the abstract world.
pub fn seen_as_in_world()
    ensures { laws.SeenAsInWorld }
{}

// It may store where it may there.
pub fn stores_as_in_world()
    ensures { laws.StoresAsInWorld }
{}

// A store writes over one page, and changes no byte of any other.
pub fn stores_in_one_page()
    ensures { laws.StoresInOnePage }
{}

// Map and unmap change the space as they change the abstract world's.
pub fn goes_on_showing()
    ensures { laws.GoesOnShowing }
{}

// After a store every space shows what it has in the abstract world after the same store.
pub fn stores_go_on_showing()
    ensures { laws.StoresGoOnShowing }
{}

// A range leaves a space as the objects in it leave it in the abstract world.
pub fn range_leaves_in_world()
    ensures { laws.RangeLeavesInWorld }
{}

// What these ask for can be met.
pub fn can_be_shown()
    ensures { laws.CanBeShown }
{}

// Bytes are heard in the order in which they came in.
pub fn lines_in_order()
    ensures { laws.LinesInOrder }
{}

// Lines stay as they are kept.
pub fn stays_kept()
    ensures { laws.StaysKept }
{}
