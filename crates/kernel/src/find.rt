// Threads and lines by the numbers of their objects.
ghost use Rattle.std.specs.Prelude.{◌≡◌, ◌+◌, ◌<◌, ◌≤◌, IfSome};
ghost use Rattle.kernel.specs.Finding as spec;

use space::Side;

// So many threads further on, if the number there is not above an object's.
#[tactic(auto, unfolding(crate::specs::Finding::further))]
#[inline]
fn further_thread(side: &Side, object: u32, at: usize, count: usize) -> usize
    requires { at + count < 64 }
    ensures value { result ≡ spec.further (spec.thread_number side.now) object count at }
    ensures bound { result ≤ at + count }
{
    if side.threads[at + count].object <= object {
        at + count
    } else {
        at
    }
}

// The same of lines.
#[tactic(auto, unfolding(crate::specs::Finding::further))]
#[inline]
fn further_line(side: &Side, object: u16, at: usize, count: usize) -> usize
    requires { at + count < 32 }
    ensures value { result ≡ spec.further (spec.line_number side.now) object count at }
    ensures bound { result ≤ at + count }
{
    if side.lines[at + count].object <= object {
        at + count
    } else {
        at
    }
}

// The index of the thread that is an object, among threads whose numbers rise.
pub fn find_thread(side: &Side, object: u32) -> Option<usize>
    ensures value { result ≡ spec.find_thread side.now object }
    ensures there { IfSome result (λ i. i < 64) }
{
    let at = further_thread(side, object, 0, 32);
    let at = further_thread(side, object, at, 16);
    let at = further_thread(side, object, at, 8);
    let at = further_thread(side, object, at, 4);
    let at = further_thread(side, object, at, 2);
    let at = further_thread(side, object, at, 1);
    if side.threads[at].object != object {
        return None;
    }
    Some(at)
}

// The same of lines.
pub fn find_line(side: &Side, object: u16) -> Option<usize>
    ensures value { result ≡ spec.find_line side.now object }
    ensures there { IfSome result (λ j. j < 32) }
{
    let at = further_line(side, object, 0, 16);
    let at = further_line(side, object, at, 8);
    let at = further_line(side, object, at, 4);
    let at = further_line(side, object, at, 2);
    let at = further_line(side, object, at, 1);
    if side.lines[at].object != object {
        return None;
    }
    Some(at)
}
