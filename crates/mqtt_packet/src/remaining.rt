//! The remaining length (MQTT 3.1.1, section 2.2.3).

ghost use Rattle.std.specs.Prelude.{◌≡◌, ◌<◌, ◌≤◌, ℕ, length};
ghost use Rattle.mqtt_packet.specs.Reading.{remaining_in, behind};
ghost use Rattle.mqtt_packet.specs.Bounds.{IsBelow};

/// What bytes say of a remaining length in front of them.
#[derive(Clone, Copy, Debug, PartialEq, Eq)]
pub(crate) enum Remaining {
    /// It is there.
    Is {
        value: usize,
        /// How many bytes it takes.
        count: usize,
    },
    /// More bytes are needed.
    Part,
    /// However they go on, the bytes begin none.
    Wrong,
}

/// The remaining length in front of the bytes.
pub(crate) fn remaining_at(bytes: &[u8]) -> Remaining
    ensures value { result ≡ remaining_in 4 bytes.now }
    ensures below { IsBelow 4 result }
{
    remaining_within(4, bytes)
}

#[tactic(auto, unfolding(crate::specs::Reading::remaining_in))]
fn remaining_within(most: u8, bytes: &[u8]) -> Remaining
    requires { most ≤ 4 }
    ensures value { result ≡ remaining_in most bytes.now }
    ensures below { IsBelow most result }
{
    if most == 0 {
        return Remaining::Wrong;
    }
    match bytes {
        [] => Remaining::Part,
        [byte, rest @ ..] => {
            if *byte < 128 {
                Remaining::Is {
                    value: *byte as usize,
                    count: 1,
                }
            } else {
                behind(*byte, remaining_within(most - 1, rest))
            }
        }
    }
}

/// A byte from 128 on, in front of the rest of a remaining length.
fn behind(byte: u8, rest: Remaining) -> Remaining
    requires high { 128 ≤ byte }
    requires below { IsBelow 3 rest }
    ensures value { result ≡ behind byte rest }
{
    match rest {
        Remaining::Is { value: 0, .. } => Remaining::Wrong,
        Remaining::Is { value, count } => Remaining::Is {
            value: (byte - 128) as usize + 128 * value,
            count: count + 1,
        },
        Remaining::Part => Remaining::Part,
        Remaining::Wrong => Remaining::Wrong,
    }
}
