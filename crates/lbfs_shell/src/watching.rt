//! Shows how far a command is, for whoever looks at the screen.

use crate::outside::Outside;
use crate::pool::Pool;
use links::clock::Clock;
use links::rest::Rest;
use shell_walks::dials::Dials;
use shell_walks::screen::Screen;
use std::alloc::Global;
use std::sync::Wait;

/// After how many milliseconds it is shown first, and then again.
const FIRST: u64 = 500;

const AGAIN: u64 = 200;

/// Shows how far it is, until all is done.
pub(crate) fn watch<W: Wait, P: Screen, H, D: Dials, C: Clock, T: Rest>(
    rt: &W,
    alloc: Global,
    pool: &Pool,
    out: &Outside<P, H, D, C, T>,
) {
    let begun = out.clock.now();
    let before = out.dialler.bytes();
    let mut next = FIRST;
    let mut last = 0;
    let mut moved = 0;
    for _turn in rt.forever() {
        if pool.is_over(rt) {
            return;
        }
        let spent = out.clock.now().saturating_sub(begun);
        let wire = out.dialler.bytes().saturating_sub(before);
        if wire != last {
            last = wire;
            moved = spent;
        }
        if spent >= next {
            let still = spent.saturating_sub(moved);
            pool.show(rt, alloc, &out.screen, wire, spent, still);
            next = spent.saturating_add(AGAIN);
        }
        out.rest.rest();
    }
}
