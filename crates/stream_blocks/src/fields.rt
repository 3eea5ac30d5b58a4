//! The wanted keys of a message, as they are found.

ghost use Rattle.std.specs.Prelude.{◌≡◌, ◌<◌, length, nat_lt, IfOk};
ghost use Rattle.stream_blocks.specs.Reading.{Gives, nothing, has, first_big, with_number, number_for, payload_for, bitmap_for, token_for, value_for};

use crate::fault::Stop;
use crate::heads::head_at;
use crate::keys::Key;
use crate::strings::{content_len, string_end};

/// The longest bitmap of a request, in bytes.
pub(crate) const BITMAP_LIMIT: usize = 32;

/// What was found so far. Of a byte string this is how many bytes of the message there are from its
/// head on.
#[derive(Clone, Copy, Debug)]
pub(crate) struct Fields {
    pub file: Option<u64>,
    pub index: Option<u64>,
    pub size: Option<u64>,
    pub offset: Option<u64>,
    pub count: Option<u64>,
    pub payload: Option<usize>,
    pub bitmap: Option<usize>,
    pub has_token: bool,
    /// The first key by place whose value a request can't have.
    pub too_big: Option<u8>,
}

impl Fields {
    pub(crate) fn new() -> Fields
        ensures { result ≡ nothing }
    {
        Fields {
            file: None,
            index: None,
            size: None,
            offset: None,
            count: None,
            payload: None,
            bitmap: None,
            has_token: false,
            too_big: None,
        }
    }

    /// Whether the key was found.
    pub(crate) fn has(self, key: Key) -> bool
        ensures { result ≡ has key self }
    {
        match key {
            Key::File => self.file.is_some(),
            Key::Index => self.index.is_some(),
            Key::Size => self.size.is_some(),
            Key::Offset => self.offset.is_some(),
            Key::Count => self.count.is_some(),
            Key::Payload => self.payload.is_some(),
            Key::Bitmap => self.bitmap.is_some(),
            Key::Token => self.has_token,
        }
    }

    /// With the value of this key, which these bytes begin; and the bytes behind the value.
    pub(crate) fn with_value(self, key: Key, bytes: &[u8]) -> Result<(Fields, &[u8]), Stop>
        ensures value { Gives (λ x. (x.0, x.1.now)) result (value_for key self bytes.now) }
        ensures shorter { IfOk result (λ x. length x.1.now < length bytes.now) }
    {
        match key {
            Key::File => self.with_number_at(Key::File, bytes),
            Key::Index => self.with_number_at(Key::Index, bytes),
            Key::Size => self.with_number_at(Key::Size, bytes),
            Key::Offset => self.with_number_at(Key::Offset, bytes),
            Key::Count => self.with_number_at(Key::Count, bytes),
            Key::Payload => self.with_payload(bytes),
            Key::Bitmap => self.with_bitmap(bytes),
            Key::Token => self.with_token(bytes),
        }
    }

    #[tactic(auto, unfolding(crate::specs::Reading::number_for))]
    fn with_number_at(self, key: Key, bytes: &[u8]) -> Result<(Fields, &[u8]), Stop>
        ensures value { Gives (λ x. (x.0, x.1.now)) result (number_for key self bytes.now) }
        ensures shorter { IfOk result (λ x. length x.1.now < length bytes.now) }
    {
        match head_at(0, bytes) {
            Some((number, rest)) => Ok((self.with_number(key, number), rest)),
            None => Err(Stop::Bad { left: bytes.len() }),
        }
    }

    fn with_number(self, key: Key, number: u64) -> Fields
        ensures { result ≡ with_number key number self }
    {
        let too_big = self.first_big(number > u32::MAX as u64, key);
        let number = Some(number);
        match key {
            Key::File => Fields {
                file: number,
                too_big,
                ..self
            },
            Key::Index => Fields {
                index: number,
                ..self
            },
            Key::Size => Fields {
                size: number,
                too_big,
                ..self
            },
            Key::Offset => Fields {
                offset: number,
                too_big,
                ..self
            },
            Key::Count => Fields {
                count: number,
                too_big,
                ..self
            },
            Key::Payload => self,
            Key::Bitmap => self,
            Key::Token => self,
        }
    }

    #[tactic(auto, unfolding(crate::specs::Reading::payload_for))]
    fn with_payload(self, bytes: &[u8]) -> Result<(Fields, &[u8]), Stop>
        ensures value { Gives (λ x. (x.0, x.1.now)) result (payload_for self bytes.now) }
        ensures shorter { IfOk result (λ x. length x.1.now < length bytes.now) }
    {
        let rest = string_end(2, bytes)?;
        Ok((
            Fields {
                payload: Some(bytes.len()),
                ..self
            },
            rest,
        ))
    }

    #[tactic(auto, unfolding(crate::specs::Reading::bitmap_for))]
    fn with_bitmap(self, bytes: &[u8]) -> Result<(Fields, &[u8]), Stop>
        ensures value { Gives (λ x. (x.0, x.1.now)) result (bitmap_for self bytes.now) }
        ensures shorter { IfOk result (λ x. length x.1.now < length bytes.now) }
    {
        let rest = string_end(2, bytes)?;
        let too_big = self.first_big(content_len(bytes) > BITMAP_LIMIT, Key::Bitmap);
        Ok((
            Fields {
                bitmap: Some(bytes.len()),
                too_big,
                ..self
            },
            rest,
        ))
    }

    #[tactic(auto, unfolding(crate::specs::Reading::token_for))]
    fn with_token(self, bytes: &[u8]) -> Result<(Fields, &[u8]), Stop>
        ensures value { Gives (λ x. (x.0, x.1.now)) result (token_for self bytes.now) }
        ensures shorter { IfOk result (λ x. length x.1.now < length bytes.now) }
    {
        let rest = string_end(3, bytes)?;
        Ok((
            Fields {
                has_token: true,
                ..self
            },
            rest,
        ))
    }

    /// The first key that is too big, once this one was found.
    fn first_big(self, is_big: bool, key: Key) -> Option<u8>
        ensures { result ≡ first_big self.too_big is_big key }
    {
        match self.too_big {
            Some(first) => Some(first),
            None => is_big.then_some(key.letter()),
        }
    }
}
