// Little-endian words of units. A unit is 64 bytes, sixteen words. Places count units from 1, so that 0
// is none.
ghost use Rattle.std.specs.Prelude.{◌≡◌};
ghost use Rattle.board.specs.Words as spec;

// Whether the unit at a place lies within the board.
#[inline]
pub fn there(board: &[u8], place: u32) -> bool
    ensures { result ≡ spec.there board.now place }
{
    0 < place && 64 * place as usize <= board.len()
}

// Whether it lies there and has a word with a number, which is below 16.
#[inline]
fn has_word(board: &[u8], place: u32, number: usize) -> bool
    ensures { result ≡ spec.has_word board.now place number }
{
    there(board, place) && number < 16
}

// The word with a number below 16, of the unit at a place; 0 where there is none.
#[inline]
pub fn word(board: &[u8], place: u32, number: usize) -> u32
    ensures { result ≡ spec.word board.now place number }
{
    if !has_word(board, place, number) {
        return 0;
    }
    let at = 64 * place as usize - 64 + 4 * number;
    u32::from_le_bytes([board[at], board[at + 1], board[at + 2], board[at + 3]])
}

// Writes that word; nothing where there is none.
#[inline]
pub fn put_word(board: &mut [u8], place: u32, number: usize, value: u32)
    ensures { board.new ≡ spec.put_word board.old place number value }
{
    if !has_word(board, place, number) {
        return;
    }
    let at = 64 * place as usize - 64 + 4 * number;
    board[at] = (value % 256) as u8;
    board[at + 1] = (value / 256 % 256) as u8;
    board[at + 2] = (value / 65_536 % 256) as u8;
    board[at + 3] = (value / 16_777_216) as u8;
}

// Writes the first words of a unit, one after the other.
#[inline]
pub fn put_words(board: &mut [u8], place: u32, words: &[u32])
    ensures { board.new ≡ spec.put_words board.old place 0 words.now }
{
    for (number, value) in words.iter().enumerate() {
        put_word(board, place, number, *value);
    }
}
