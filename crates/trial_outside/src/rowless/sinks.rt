//! Bytes that are given to a screen: all of them, or a front.

use crate::screen::Screen;
use crate::trial::Trial;
use lb_base::sink::give_all;
use row_text::out::Out;
use std::alloc::Global;
use std::sync::atomic::AtomicU64;

/// What comes of giving three times to a screen that takes two bytes at once, whose second call answers that memory
/// ran out, and whose third one fails: each time the answer, how many bytes it has then, and its faults; and what it
/// has at last.
pub fn put(alloc: Global, out: &mut Out) {
    let answers = AtomicU64::new(0);
    let mut screen = Screen::new(alloc, &Trial::set("takes=2 starved=1 sink=2"), &answers);
    out.text("given: ");
    let all = b"hello all";
    for at in [0usize, 2, 2] {
        out.value(&give_all(&mut screen, &all[at..]));
        out.numbers(&[screen.text.len() as u64, screen.faults]);
        out.text(", ");
    }
    out.letters(screen.text.as_slice());
    out.line("")
}
