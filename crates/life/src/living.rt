//! Serving calls.
ghost use Rattle.heap.specs.Sound.{Sound};
ghost use Rattle.heap.specs.Effects.{Outside};
ghost use Rattle.heap.specs.View.{state_of};
ghost use Rattle.life.specs.Faithful.{Faithful, TiedAfter};
ghost use Rattle.life.specs.Promise.{MarkedAfter};
ghost use Rattle.life.specs.Serving.{Lived, edited, served};
ghost use Rattle.memory.specs.Objects.{making};
ghost use Rattle.std.specs.Prelude.{◌≡◌, length, take};

use crate::calls::{Answer, Call};
use heap::Heap;
use layout::Layout;
use model::{Edit, Refusal, Reply};
use store::Store;

/// Does an edit.
fn edit<S: Store, L: Layout>(heap: &mut Heap<S, L>, edit: Edit) -> Result<Reply, Refusal>
    ensures { (result, state_of S.words S.spare heap.new) ≡ edited L.shape (state_of S.words S.spare heap.old) edit }
{
    // The same match as in the model, whose `new` may lack memory too: a trait for both would have nine calls for this one.
    match edit {
        Edit::New { root, header } => heap.new(root, header).map(|()| Reply::Granted),
        Edit::Set { i, position, k } => heap.set(i, position, k).map(|()| Reply::Granted),
        Edit::Get { i, position, k } => heap.get(i, position, k).map(|()| Reply::Granted),
        Edit::Put { i, position, word } => heap.put(i, position, word).map(|()| Reply::Granted),
        Edit::Peek { i, position } => heap.peek(i, position).map(Reply::Word),
        Edit::Copy { i, k } => heap.copy(i, k).map(|()| Reply::Granted),
        Edit::Clear { i } => heap.clear(i).map(|()| Reply::Granted),
        Edit::Same { i, k } => heap.same(i, k).map(Reply::Same),
        Edit::Head { i } => heap.head(i).map(Reply::Word),
    }
}

/// Serves a call.
pub fn serve<S: Store, L: Layout>(heap: &mut Heap<S, L>, call: Call) -> Result<Answer, Refusal>
    ensures { (result, state_of S.words S.spare heap.new) ≡ served L.shape (state_of S.words S.spare heap.old) call }
{
    match call {
        Call::Edit(asked) => edit(heap, asked).map(Answer::Edit),
        Call::Begin => heap.begin().map(|()| Answer::Begun),
        Call::Mark => heap.mark().map(Answer::Mark),
        Call::Refine => Ok(Answer::Refine(heap.refine())),
    }
}

/// Makes a heap on a store and serves calls in order, as many as `answers` has places for. Each answer goes to the place of
/// its call. Both lists are the caller's, since a life takes no memory of its own.
pub fn live<S: Store, L: Layout>(
    store: S,
    calls: &[Call],
    answers: &mut [Result<Answer, Refusal>],
) -> Heap<S, L>
    ensures exact { Lived L.shape (making (S.words store) (S.spare store)) (take (length answers.old) calls.now) answers.old answers.new (state_of S.words S.spare result) }
    ensures faithful { Faithful L.shape (take (length answers.old) calls.now) answers.new }
    ensures tied { TiedAfter L.shape (making (S.words store) (S.spare store)) (take (length answers.old) calls.now) answers.new (state_of S.words S.spare result) }
    ensures marked { MarkedAfter L.shape (making (S.words store) (S.spare store)) (take (length answers.old) calls.now) answers.new (state_of S.words S.spare result) }
    ensures sound { Sound L.shape (state_of S.words S.spare result) }
    ensures outside { Outside (making (S.words store) (S.spare store)) (state_of S.words S.spare result) }
{
    let mut heap = Heap::over(store);
    // By the place's number: after a zip with `iter_mut` a proof knows nothing of the answers.
    for (k, call) in calls.iter().enumerate().take(answers.len()) {
        answers[k] = serve(&mut heap, *call);
    }
    heap
}
