//! Running calls that are given as words.
ghost use Rattle.std.specs.Prelude.{◌≡◌, ◌/◌, ◌<◌, length};
ghost use Rattle.heap.specs.View.{state_of};
ghost use Rattle.replay.specs.Running.{all_served, answered, asked, call_at, fills_of, ran};

use crate::codes::{decode, kind, value};
use heap::Heap;
use layout::Layout;
use life::{Answer, Call, serve};
use model::Refusal;
use store::Store;

/// The call with a number, if there is a whole one and its code is known.
pub fn call_at(calls: &[u32], k: usize) -> Option<Call>
    ensures { result ≡ call_at calls.now k }
{
    let (calls, _) = calls.as_chunks::<4>();
    let [code, a, b, c] = *calls.get(k)?;
    decode(code, a, b, c)
}

/// Stores an answer in the places of answer `k`.
fn store_answer(answers: &mut [u32], k: usize, answer: Result<Answer, Refusal>)
    requires { k < length answers.old / 2 }
    ensures { answers.new ≡ answered answers.old k answer }
{
    // By index: the contracts of `as_chunks_mut` and `get_mut` leave open what the slice holds after the write.
    answers[2 * k] = kind(answer);
    answers[2 * k + 1] = value(answer);
}

/// Runs the calls for whose answers there are places, one after another. The answer is how many were run.
fn run_calls<S: Store, L: Layout>(
    heap: &mut Heap<S, L>,
    calls: &[u32],
    answers: &mut [u32],
) -> usize
    ensures { (result, answers.new, state_of S.words S.spare heap.new) ≡ all_served L.shape (state_of S.words S.spare heap.old) (asked calls.now answers.old) answers.old }
{
    let places = answers.len() / 2;
    // By number, since answers are stored by place.
    for k in 0..places {
        let Some(call) = call_at(calls, k) else {
            return k;
        };
        store_answer(answers, k, serve(heap, call));
    }
    places
}

/// Stores the fills of the regions, from region 0 on, as far as there are places.
fn store_fills<S: Store, L: Layout>(heap: &Heap<S, L>, fills: &mut [u32])
    ensures { fills.new ≡ fills_of (state_of S.words S.spare heap.now) fills.old }
{
    // By index: the contract of `iter_mut` leaves open what the slice holds after the writes.
    let count = heap.memory().regions.count;
    for g in 0..count {
        let place = g as usize;
        if place < fills.len() {
            fills[place] = heap.memory().regions.get(g).fill;
        }
    }
}

/// Runs calls on a heap in `words`, and stores the fills. The answer is how many calls were run.
pub fn run<L: Layout>(
    calls: &[u32],
    words: &mut [u32],
    answers: &mut [u32],
    fills: &mut [u32],
) -> u64
    ensures { (result, answers.new, fills.new) ≡ ran L.shape calls.now words.old answers.old fills.old }
{
    let mut heap = Heap::<&mut [u32], L>::over(words);
    let count = run_calls(&mut heap, calls, answers);
    store_fills(&heap, fills);
    count as u64
}
