//! Items, put into a buffer. Each call puts them at `at` and answers where they end. Of the buffer all
//! else stays.

ghost use Rattle.std.specs.Prelude.{◌≡◌, ◌+◌, ◌<◌, ◌≤◌, ◌^◌, ◌++◌, [], ◌∷◌, codes, length, take, drop};
ghost use Rattle.stream_blocks.specs.Spelling as spelling;

pub(crate) fn put(out: &mut [u8], at: usize, bytes: &[u8]) -> usize
    requires { at + length bytes.now ≤ length out.old }
    ensures end { result ≡ at + length bytes.now }
    ensures len { length out.new ≡ length out.old }
    ensures front { take result out.new ≡ take at out.old ++ bytes.now }
    ensures back { drop result out.new ≡ drop result out.old }
{
    let end = at + bytes.len();
    out[at..end].copy_from_slice(bytes);
    end
}

/// A head of this major type, its argument in the shortest form.
#[tactic(auto, unfolding(crate::specs::Spelling::head))]
pub(crate) fn put_head(out: &mut [u8], at: usize, major: u8, argument: u64) -> usize
    requires major { major < 8 }
    requires room { at + 9 ≤ length out.old }
    ensures end { result ≡ at + length (spelling.head major argument) }
    ensures most { result ≤ at + 9 }
    ensures len { length out.new ≡ length out.old }
    ensures front { take result out.new ≡ take at out.old ++ spelling.head major argument }
{
    let first = 32 * major;
    if argument < 24 {
        return put(out, at, [first + argument as u8].as_slice());
    }
    if argument < 256 {
        return put(out, at, [first + 24, argument as u8].as_slice());
    }
    if argument < 65_536 {
        let at = put(out, at, [first + 25].as_slice());
        return put(out, at, (argument as u16).to_be_bytes().as_slice());
    }
    if argument < 4_294_967_296 {
        let at = put(out, at, [first + 26].as_slice());
        return put(out, at, (argument as u32).to_be_bytes().as_slice());
    }
    let at = put(out, at, [first + 27].as_slice());
    put(out, at, argument.to_be_bytes().as_slice())
}

/// A key of one letter.
#[tactic(auto, unfolding(crate::specs::Spelling::head))]
pub(crate) fn put_key(out: &mut [u8], at: usize, letter: u8) -> usize
    requires { at + 2 ≤ length out.old }
    ensures end { result ≡ at + 2 }
    ensures len { length out.new ≡ length out.old }
    ensures front { take result out.new ≡ take at out.old ++ spelling.text (letter ∷ []) }
{
    put(out, at, [0x61, letter].as_slice())
}

/// A key and a number.
pub(crate) fn put_number(out: &mut [u8], at: usize, letter: u8, number: u64) -> usize
    requires { at + 11 ≤ length out.old }
    ensures end { result ≡ at + length (spelling.number_of letter number) }
    ensures most { result ≤ at + 11 }
    ensures len { length out.new ≡ length out.old }
    ensures front { take result out.new ≡ take at out.old ++ spelling.number_of letter number }
{
    let at = put_key(out, at, letter);
    put_head(out, at, 0, number)
}

/// A key and a byte string.
pub(crate) fn put_bytes(out: &mut [u8], at: usize, letter: u8, content: &[u8]) -> usize
    requires { at + 11 + length content.now ≤ length out.old }
    ensures end { result ≡ at + length (spelling.bytes_of letter content.now) }
    ensures most { result ≤ at + 11 + length content.now }
    ensures len { length out.new ≡ length out.old }
    ensures front { take result out.new ≡ take at out.old ++ spelling.bytes_of letter content.now }
{
    let at = put_key(out, at, letter);
    let at = put_head(out, at, 2, content.len() as u64);
    put(out, at, content)
}

/// The client token of a request.
#[tactic(auto, unfolding(crate::specs::Spelling::head))]
pub(crate) fn put_token(out: &mut [u8], at: usize) -> usize
    requires { at + 8 ≤ length out.old }
    ensures end { result ≡ at + 8 }
    ensures len { length out.new ≡ length out.old }
    ensures front { take result out.new ≡ take at out.old ++ (spelling.text (codes "c") ++ spelling.text (codes "fetch")) }
{
    put(out, at, b"acefetch".as_slice())
}
