//! The heads of items: major type and argument (RFC 8949, section 3). A reader answers a value and the
//! bytes behind it.

ghost use Rattle.std.specs.Prelude.{◌≡◌, ◌<◌, ◌≤◌, ◌%◌, ◌/◌, ◌==◌, length, IfSome};
ghost use Rattle.std.specs.Int.{w16, w32, w64};
ghost use Rattle.stream_blocks.specs.Reading.{Reads, byte_at, number_at, argument_at, head_at};

/// A head of this major type.
#[tactic(auto, unfolding(crate::specs::Reading::head_at))]
pub(crate) fn head_at(major: u8, bytes: &[u8]) -> Option<(u64, &[u8])>
    ensures value { Reads (λ x. (x.0, x.1.now)) result (head_at major bytes.now) }
    ensures shorter { IfSome result (λ x. length x.1.now < length bytes.now) }
{
    match bytes {
        [first, rest @ ..] => {
            if *first / 32 == major {
                argument_at(*first % 32, rest)
            } else {
                None
            }
        }
        [] => None,
    }
}

/// The argument, which the low five bits of the first byte hold or name.
#[tactic(auto, unfolding(crate::specs::Reading::argument_at))]
fn argument_at(info: u8, bytes: &[u8]) -> Option<(u64, &[u8])>
    ensures value { Reads (λ x. (x.0, x.1.now)) result (argument_at info bytes.now) }
    ensures within { IfSome result (λ x. length x.1.now ≤ length bytes.now) }
{
    if info < 24 {
        return Some((info as u64, bytes));
    }
    match info {
        24 => byte_at(bytes),
        25 => u16_at(bytes),
        26 => u32_at(bytes),
        27 => u64_at(bytes),
        _ => None,
    }
}

#[tactic(auto, unfolding(crate::specs::Reading::byte_at))]
fn byte_at(bytes: &[u8]) -> Option<(u64, &[u8])>
    ensures value { Reads (λ x. (x.0, x.1.now)) result (byte_at bytes.now) }
    ensures within { IfSome result (λ x. length x.1.now ≤ length bytes.now) }
{
    match bytes {
        [byte, rest @ ..] => Some((*byte as u64, rest)),
        [] => None,
    }
}

fn u16_at(bytes: &[u8]) -> Option<(u64, &[u8])>
    ensures value { Reads (λ x. (x.0, x.1.now)) result (number_at w16 bytes.now) }
    ensures within { IfSome result (λ x. length x.1.now ≤ length bytes.now) }
{
    if bytes.len() < 2 {
        return None;
    }
    let (front, rest) = bytes.split_at(2);
    Some((u16::from_be_bytes([front[0], front[1]]) as u64, rest))
}

fn u32_at(bytes: &[u8]) -> Option<(u64, &[u8])>
    ensures value { Reads (λ x. (x.0, x.1.now)) result (number_at w32 bytes.now) }
    ensures within { IfSome result (λ x. length x.1.now ≤ length bytes.now) }
{
    if bytes.len() < 4 {
        return None;
    }
    let (front, rest) = bytes.split_at(4);
    let number = u32::from_be_bytes([front[0], front[1], front[2], front[3]]);
    Some((number as u64, rest))
}

fn u64_at(bytes: &[u8]) -> Option<(u64, &[u8])>
    ensures value { Reads (λ x. (x.0, x.1.now)) result (number_at w64 bytes.now) }
    ensures within { IfSome result (λ x. length x.1.now ≤ length bytes.now) }
{
    if bytes.len() < 8 {
        return None;
    }
    let (front, rest) = bytes.split_at(8);
    let number = u64::from_be_bytes([
        front[0], front[1], front[2], front[3], front[4], front[5], front[6], front[7],
    ]);
    Some((number, rest))
}
