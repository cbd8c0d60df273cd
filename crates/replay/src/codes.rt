//! Calls and answers as words: the C interface has numbers for their kinds.
ghost use Rattle.replay.specs.Codes.{decoded, kind_of, value_of};
ghost use Rattle.std.specs.Prelude.{◌≡◌};

use life::{Answer, Call};
use marking::{Marked, Refined};
use model::{Edit, Refusal, Reply};

/// The call that a code and three words stand for, if the code is known. Words that the call does not take are not looked at.
pub fn decode(code: u32, a: u32, b: u32, c: u32) -> Option<Call>
    ensures { result ≡ decoded code a b c }
{
    let edit = match code {
        0 => Edit::New { root: a, header: b },
        1 => Edit::Set {
            i: a,
            position: b,
            k: c,
        },
        2 => Edit::Get {
            i: a,
            position: b,
            k: c,
        },
        3 => Edit::Put {
            i: a,
            position: b,
            word: c,
        },
        4 => Edit::Peek { i: a, position: b },
        5 => Edit::Copy { i: a, k: b },
        6 => Edit::Clear { i: a },
        7 => Edit::Same { i: a, k: b },
        8 => Edit::Head { i: a },
        9 => return Some(Call::Begin),
        10 => return Some(Call::Mark),
        11 => return Some(Call::Refine),
        _ => return None,
    };
    Some(Call::Edit(edit))
}

/// The kind of an answer: 0 granted or begun, 1 a word, 2 yes or no, 3 refused, 4 scanned, 5 done, 6 refined, 7 clean.
pub fn kind(answer: Result<Answer, Refusal>) -> u32
    ensures { result ≡ kind_of answer }
{
    match answer {
        Ok(Answer::Edit(Reply::Granted) | Answer::Begun) => 0,
        Ok(Answer::Edit(Reply::Word(_))) => 1,
        Ok(Answer::Edit(Reply::Same(_))) => 2,
        Err(_) => 3,
        Ok(Answer::Mark(Marked::Scanned)) => 4,
        Ok(Answer::Mark(Marked::Done)) => 5,
        Ok(Answer::Refine(Refined::Refined)) => 6,
        Ok(Answer::Refine(Refined::Clean)) => 7,
    }
}

/// The value of an answer: the word, 1 for yes and 0 for no, the number of the refusal, and 0 for all others.
pub fn value(answer: Result<Answer, Refusal>) -> u32
    ensures { result ≡ value_of answer }
{
    match answer {
        Ok(Answer::Edit(Reply::Word(word))) => word,
        Ok(Answer::Edit(Reply::Same(same))) => u32::from(same),
        Ok(_) => 0,
        Err(refusal) => u32::from(refusal),
    }
}
