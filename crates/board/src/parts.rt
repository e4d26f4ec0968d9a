// Parts of the board that belong to one object: units that are cleared, and the bytes of a page, which has
// 64 units. Instructions read and write pages here; these accesses are not counted.
ghost use Rattle.std.specs.Prelude.{◌≡◌};
ghost use Rattle.board.specs.Parts as spec;

// Whether so many units from a place on lie within the board.
#[inline]
fn within(board: &[u8], place: u32, units: u32) -> bool
    ensures { result ≡ spec.within board.now place units }
{
    0 < place && 64 * place as usize - 64 + 64 * units as usize <= board.len()
}

// So many units from a place on are 0 throughout; nothing where they do not all lie within the board.
pub fn clear(board: &mut [u8], place: u32, units: u32)
    ensures { board.new ≡ spec.cleared board.old place units }
{
    if within(board, place, units) {
        let from = 64 * place as usize - 64;
        board[from..from + 64 * units as usize].fill(0);
    }
}

// The bytes of the page at a place; none where it does not lie within the board.
#[inline]
pub fn page(board: &[u8], place: u32) -> &[u8]
    ensures { result.now ≡ spec.page_at board.now place }
{
    if !within(board, place, 64) {
        return &[];
    }
    let from = 64 * place as usize - 64;
    &board[from..from + 4096]
}

// A byte of that page; 0 where there is none.
#[inline]
pub fn page_byte(board: &[u8], place: u32, offset: u32) -> u8
    ensures { result ≡ spec.page_byte board.now place offset }
{
    page(board, place)
        .get(offset as usize)
        .copied()
        .unwrap_or(0)
}

// Two bytes as a number, low byte first; 0 where they do not lie in the page.
#[inline]
pub fn page_half(board: &[u8], place: u32, offset: u32) -> u16
    ensures { result ≡ spec.page_half board.now place offset }
{
    let page = page(board, place);
    let at = offset as usize;
    if page.len() < at + 2 {
        return 0;
    }
    u16::from_le_bytes([page[at], page[at + 1]])
}

// Four bytes likewise.
#[inline]
pub fn page_word(board: &[u8], place: u32, offset: u32) -> u32
    ensures { result ≡ spec.page_word board.now place offset }
{
    let page = page(board, place);
    let at = offset as usize;
    if page.len() < at + 4 {
        return 0;
    }
    u32::from_le_bytes([page[at], page[at + 1], page[at + 2], page[at + 3]])
}

// Whether so many bytes from an offset on lie in the page at a place.
#[inline]
fn in_page(board: &[u8], place: u32, offset: u32, bytes: usize) -> bool
    ensures { result ≡ spec.in_page board.now place offset bytes }
{
    within(board, place, 64) && bytes <= 4096 && offset as usize <= 4096 - bytes
}

// Bytes stored in the page at a place; nothing where they do not all lie in it.
#[inline]
pub fn store(board: &mut [u8], place: u32, offset: u32, bytes: &[u8])
    ensures { board.new ≡ spec.store board.old place offset bytes.now }
{
    if in_page(board, place, offset, bytes.len()) {
        let from = 64 * place as usize - 64 + offset as usize;
        board[from..from + bytes.len()].copy_from_slice(bytes);
    }
}
