// Sessions where they lie: a message arrives, the centre begins an operation, the connection is lost.
ghost use Rattle.std.specs.Prelude.{◌≡◌};
ghost use Rattle.steps.specs.Called.{lost_answer, lost_session};
ghost use Rattle.chozukpima.specs.Sessions.{Returned, returned, step_answer, arrive_returns, begin_returns};

use crate::answer::{pack, refuse};
use refusal::Refusal;
use steps::Done;

fn step_answer(a: Result<Done, Refusal>) -> u64
    ensures { result ≡ step_answer a }
{
    match a {
        Ok(done) => pack(0, done.happened.number(), done.length),
        Err(r) => refuse(r),
    }
}

// A message arrives: what happened, and how many bytes of reply stand in the room; 15, then 17, 18, 16 or 19, 20.
#[tactic(auto, unfolding(crate::specs::Sessions::arrive_returns))]
pub fn chz_arrive(
    session: &mut [u8],
    message: &[u8],
    lent: &[u8],
    sc_eui: u64,
    uuid: &[u8],
    sign: &[u8],
    room: &mut [u8],
) -> u64
    ensures { ◌≡◌ {A = Returned} (returned result session.new room.new)
        (arrive_returns session.old message.now lent.now sc_eui uuid.now sign.now room.old) }
{
    if message.len() != layout::SIZE {
        return refuse(Refusal::Invalid);
    }
    let m = layout::message_in(message);
    step_answer(steps::arrive(session, m, lent, sc_eui, uuid, sign, room))
}

// The centre begins an operation: its message stands in the room under the ID issued; 15 for an image, 17, 18, 19, 15, 20.
#[tactic(auto, unfolding(crate::specs::Sessions::begin_returns))]
pub fn chz_begin(session: &mut [u8], message: &[u8], lent: &[u8], room: &mut [u8]) -> u64
    ensures { ◌≡◌ {A = Returned} (returned result session.new room.new)
        (begin_returns session.old message.now lent.now room.old) }
{
    if message.len() != layout::SIZE {
        return refuse(Refusal::Invalid);
    }
    let m = layout::message_in(message);
    step_answer(steps::begin(session, m, lent, room))
}

// The connection is lost; 15.
pub fn chz_lost(session: &mut [u8]) -> u64
    ensures { (result ≡ step_answer (lost_answer session.old)) × (session.new ≡ lost_session session.old) }
{
    step_answer(steps::lose(session))
}
