// 01's number and values of an answer.
ghost use Rattle.std.specs.Prelude.{◌≡◌};
ghost use Rattle.answers.specs.Replies.{refusal_number, done_both, refused_reply, answer_reply, ask_reply, next_reply};

use super::cases::{Answer, Asked, Following, Refusal};

// "Each call answers a number and a value"; ask and next also a second value, which is 0 of every other call.
#[derive(Clone, Copy)]
pub struct Reply {
    pub number: u32,
    pub value: u64,
    pub second: u32,
}

// 01, "Refusal numbers".
pub fn refusal_number(r: Refusal) -> u32
    ensures { result ≡ refusal_number r }
{
    match r {
        Refusal::Length => 1,
        Refusal::Mission => 2,
        Refusal::Operation => 3,
        Refusal::Name => 4,
        Refusal::List => 5,
        Refusal::Buffer => 6,
        Refusal::NotSound => 7,
        Refusal::NotEmpty => 8,
        Refusal::TooMany => 9,
        Refusal::NotUnder => 10,
        Refusal::NoRoom => 11,
    }
}

fn refused(r: Refusal) -> Reply
    ensures { result ≡ refused_reply r }
{
    Reply {
        number: refusal_number(r),
        value: 0,
        second: 0,
    }
}

fn done(value: u64, second: u32) -> Reply
    ensures { result ≡ done_both value second }
{
    Reply {
        number: 0,
        value,
        second,
    }
}

impl From<Answer> for Reply {
    ghost from_gives = { λ a r. r ≡ answer_reply a };

    fn from(a: Answer) -> Reply {
        match a {
            Ok(value) => done(value as u64, 0),
            Err(r) => refused(r),
        }
    }
}

impl From<Result<Asked, Refusal>> for Reply {
    ghost from_gives = { λ a r. r ≡ ask_reply a };

    fn from(a: Result<Asked, Refusal>) -> Reply {
        match a {
            Ok(Asked::OnList(followed)) => done(1, followed),
            Ok(Asked::NotOnList(followed)) => done(0, followed),
            Err(r) => refused(r),
        }
    }
}

impl From<Result<Following, Refusal>> for Reply {
    ghost from_gives = { λ a r. r ≡ next_reply a };

    fn from(a: Result<Following, Refusal>) -> Reply {
        match a {
            Ok(Following { set, count }) => done(set, count),
            Err(r) => refused(r),
        }
    }
}
