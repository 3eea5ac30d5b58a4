//! The keys of the two messages.

ghost use Rattle.std.specs.Prelude.{◌≡◌, Some};
ghost use Rattle.stream_blocks.specs.Reading.{Gives, needed, wanted, key_in, block_key, request_key, letter};

use crate::fault::CborFault;

/// The kinds of message.
#[derive(Clone, Copy, Debug, PartialEq, Eq)]
pub(crate) enum Form {
    Block,
    Request,
}

/// The keys that have a meaning.
#[derive(Clone, Copy, Debug, PartialEq, Eq)]
pub(crate) enum Key {
    File,
    Index,
    /// The length of a payload, or the size of a block.
    Size,
    Offset,
    Count,
    Payload,
    Bitmap,
    /// A client token, whose text isn't looked at.
    Token,
}

/// The key of the message that this text is, if any.
pub(crate) fn wanted(form: Form, key: &[u8]) -> Option<Key>
    ensures { result ≡ wanted form key.now }
{
    match key {
        [letter] => key_in(form, *letter),
        _ => None,
    }
}

fn key_in(form: Form, letter: u8) -> Option<Key>
    ensures { result ≡ key_in form (Some letter) }
{
    match form {
        Form::Block => block_key(letter),
        Form::Request => request_key(letter),
    }
}

#[tactic(auto, unfolding(crate::specs::Reading::block_key))]
fn block_key(letter: u8) -> Option<Key>
    ensures { result ≡ block_key letter }
{
    match letter {
        b'f' => Some(Key::File),
        b'i' => Some(Key::Index),
        b'l' => Some(Key::Size),
        b'p' => Some(Key::Payload),
        _ => None,
    }
}

#[tactic(auto, unfolding(crate::specs::Reading::request_key))]
fn request_key(letter: u8) -> Option<Key>
    ensures { result ≡ request_key letter }
{
    match letter {
        b'c' => Some(Key::Token),
        b'f' => Some(Key::File),
        b'l' => Some(Key::Size),
        b'o' => Some(Key::Offset),
        b'n' => Some(Key::Count),
        b'b' => Some(Key::Bitmap),
        _ => None,
    }
}

impl Key {
    pub(crate) fn letter(self) -> u8
        ensures { result ≡ letter self }
    {
        match self {
            Key::File => b'f',
            Key::Index => b'i',
            Key::Size => b'l',
            Key::Offset => b'o',
            Key::Count => b'n',
            Key::Payload => b'p',
            Key::Bitmap => b'b',
            Key::Token => b'c',
        }
    }
}

/// The value of a key that must be there.
pub(crate) fn needed<T: Drop>(key: Key, value: Option<T>) -> Result<T, CborFault>
    ensures { Gives (λ x. x) result (needed key value) }
{
    match value {
        Some(value) => Ok(value),
        None => Err(CborFault::Missing { key: key.letter() }),
    }
}
