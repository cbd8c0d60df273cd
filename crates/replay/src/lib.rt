//! Calls and answers as words, for a program in another language that has a heap run on words of its own.
#![tactic(auto)]

mod codes;
mod running;
mod watching;

ghost use Rattle.replay.specs.Running.{is_sign, replayed};
ghost use Rattle.std.specs.Prelude.{◌≡◌, false};

use layout::{Cabling, Counted};

// The lists are parameters of their own, as the C interface has them.

/// Makes a heap on `words` and runs calls on it, one after another.
///
/// `layout` is the sign of the layout: 1 is counted and 2 cabling. Any other answers 0 and alters nothing. Each call has four
/// words in `calls`, and each answer two in `answers`. The whole calls are run for which there are whole answers, up to the
/// first whose code is unknown. At the end the fills of the regions are put into `fills`, from region 0 on, as far as there
/// are places. The answer is how many calls were run.
#[unsafe(no_mangle)]
pub extern "C" fn heap_replay(
    layout: u32,
    calls: &[u32],
    words: &mut [u32],
    answers: &mut [u32],
    fills: &mut [u32],
) -> u64
    ensures run { (result, answers.new, fills.new) ≡ replayed layout calls.now words.old answers.old fills.old }
    ensures words { is_sign layout ≡ false → words.new ≡ words.old }
{
    // A layout is a type, so each exported function picks it from the sign by itself.
    match layout {
        1 => running::run::<Counted>(calls, words, answers, fills),
        2 => running::run::<Cabling>(calls, words, answers, fills),
        _ => 0,
    }
}

/// Makes a heap on `words`, runs calls on it and stores after each a checksum of its phase, regions, cards, tables, marks and
/// roots.
///
/// `layout` and `calls` are as in `heap_replay`. The whole calls are run for which there is a place in `sums`, up to the first
/// whose code is unknown. The answer is how many were run.
#[unsafe(no_mangle)]
pub extern "C" fn heap_watch(
    layout: u32,
    calls: &[u32],
    words: &mut [u32],
    sums: &mut [u32],
) -> u64 {
    match layout {
        1 => watching::watch::<Counted>(calls, words, sums),
        2 => watching::watch::<Cabling>(calls, words, sums),
        _ => 0,
    }
}
