// What a reply says.
ghost use Rattle.std.specs.Prelude.{◌≡◌, ◌≤◌};
ghost use Rattle.sa_trace.specs.Pieces.{with_rest};
ghost use Rattle.sa_replies.specs.Reply.{reply_at, said_by, reply_in};

use crate::fields::{Names, read_demand, read_proc, read_thread, read_thread_or_none};
use crate::word::{Word, read_word};
use sa_base::Cause;
use sa_driven_model::Reply;
use sa_text::{Line, Pieces};
use sa_trace::words::{finish, next};

/// The reply of a line of printed ASCII, without its line feed; or the first thing that is wrong with it.
pub fn read_reply(line: &[u8], names: Names) -> Result<Reply, Cause>
    requires { 1 ≤ names.processors }
    ensures { result ≡ reply_in names line.now }
{
    let whole = Line {
        number: 1,
        start: 0,
        end: line.len(),
        ended: true,
    };
    let mut words = Pieces::new(line, whole);
    read_words(names, &mut words)
}

// What the pieces of a line say.
fn read_words(names: Names, words: &mut Pieces) -> Result<Reply, Cause>
    requires { 1 ≤ names.processors }
    ensures { result ≡ said_by names words.old }
{
    let piece = next(words)?;
    let word = read_word(piece)?;
    let reply = read_fields(names, word, words)?;
    finish(words)?;
    Ok(reply)
}

// The reply of this word.
fn read_fields(names: Names, word: Word, words: &mut Pieces) -> Result<Reply, Cause>
    requires { 1 ≤ names.processors }
    ensures { with_rest result words.new ≡ reply_at names word words.old }
{
    let reply = match word {
        Word::Ins => Reply::Ins,
        Word::Run => Reply::Run(read_thread(names, words)?),
        Word::Ready => Reply::Ready(read_thread(names, words)?),
        Word::Cont => Reply::Cont(read_thread_or_none(names, words)?),
        Word::Back => Reply::Back,
        Word::Take => Reply::Take(read_proc(names, words)?),
        Word::Free => Reply::Free(read_proc(names, words)?),
        Word::Spin => Reply::Spin(read_proc(names, words)?),
        Word::Idle => Reply::Idle,
        Word::Want => Reply::Want(read_demand(names, words)?),
        Word::GiveBack => Reply::GiveBack,
        Word::Line => Reply::Line(read_proc(names, words)?),
    };
    Ok(reply)
}
