// What a call for a path asks of what it is lent, a path having one address more than the sequence has domains.
ghost use Rattle.std.specs.Prelude.{◌≡◌, suc, ◌<◌};
ghost use Rattle.model.specs.Calls.{room_verdict, given_verdict};

use model::{Reason, Verdict};
use refusal::refuse_if;

// Room for a path.
pub fn room_verdict(count: usize, room: usize) -> Verdict
    ensures { result ≡ room_verdict (suc count) room }
{
    refuse_if(room <= count, Reason::LittleRoom, 0)
}

// A given list of a path's length, then room for a path.
pub fn given_verdict(given: usize, count: usize, room: usize) -> Verdict
    requires { count < 17 }
    ensures { result ≡ given_verdict given (suc count) room }
{
    refuse_if(given != count + 1, Reason::GivenLength, 0)?;
    room_verdict(count, room)
}
