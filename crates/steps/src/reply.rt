// The records that a session sends of its own.
ghost use Rattle.std.specs.Prelude.{◌≡◌};
ghost use Rattle.session.specs.Arrive.{bare_of, con_rsp_with, det_rsp_of, rsp_of};

use record::{Body, Message};

// A message of command and opId alone.
pub fn bare(command: u8, id: i64) -> Message
    ensures { result ≡ bare_of command id }
{
    Message {
        op_id: id,
        body: Body::Bare(command),
    }
}

// The answer to con: version 1.0.0, the host's scEui, whether it resumed, the session's centre UUID.
pub fn con_rsp(sc_eui: u64, resumed: bool, uuid: record::Sixteen) -> Message
    ensures { result ≡ con_rsp_with sc_eui resumed uuid }
{
    let version = message::Maybe {
        here: true,
        value: message::Version {
            major: 1,
            minor: 0,
            patch: 0,
        },
    };
    let x = record::ConRsp {
        version: version,
        sc_eui: sc_eui,
        sn_resume: resumed,
        sn_sc_uuid: uuid,
    };
    Message {
        op_id: 0,
        body: Body::ConRsp(x),
    }
}

// The answer to a station's start: detRsp carries the host's sign.
#[tactic(auto, using(crate::proofs::Replies::replies))]
pub fn rsp(sign: u32, command: u8, id: i64) -> Message
    ensures { result ≡ rsp_of sign command id }
{
    if command == names::numbers::DET_RSP {
        return det_rsp(id, sign);
    }
    bare(command, id)
}

fn det_rsp(id: i64, sign: u32) -> Message
    ensures { result ≡ det_rsp_of id sign }
{
    Message {
        op_id: id,
        body: Body::DetRsp(sign),
    }
}
