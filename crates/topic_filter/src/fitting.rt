//! Whether a filter fits a name, in one pass over both.

ghost use Rattle.std.specs.Prelude.{◌≡◌, ◌↔◌, IsTrue};
ghost use Rattle.topic_filter.specs.Levels.{levels_of};
ghost use Rattle.topic_filter.specs.Texts.{is_filter, are_filter_levels};
ghost use Rattle.topic_filter.specs.Fitting as fitting;

use crate::levels::level_len;

/// Whether a topic filter fits a topic name (OASIS MQTT 3.1.1, section 4.7). In the filter `+`
/// stands for one level, and `#` for any number of levels at the end, also for none. A filter that
/// begins with a wildcard fits no name that begins with `$`. Each text is read once.
///
/// The second text need not be a topic name: it is taken level by level as it stands.
#[tactic(auto, unfolding(crate::specs::Texts::is_filter))]
pub fn matches(filter: &str, name: &str) -> bool
    requires { IsTrue (is_filter filter.now) }
    ensures fits { IsTrue result ↔ fitting.Fits filter.now name.now }
    ensures test { result ≡ fitting.fits filter.now name.now }
{
    fits(filter.as_bytes(), name.as_bytes())
}

#[tactic(auto, unfolding(crate::specs::Fitting::fits))]
fn fits(filter: &[u8], name: &[u8]) -> bool
    requires { IsTrue (are_filter_levels (levels_of filter.now)) }
    ensures { result ≡ fitting.fits filter.now name.now }
{
    let is_hidden = begins_wild(filter) && begins_dollar(name);
    !is_hidden && fits_levels(filter, name)
}

fn begins_wild(filter: &[u8]) -> bool
    ensures { result ≡ fitting.begins_wild filter.now }
{
    matches!(filter, [b'+' | b'#', ..])
}

fn begins_dollar(name: &[u8]) -> bool
    ensures { result ≡ fitting.begins_dollar name.now }
{
    matches!(name, [b'$', ..])
}

/// Whether the levels of a filter fit those of a name.
fn fits_levels(filter: &[u8], name: &[u8]) -> bool
    requires { IsTrue (are_filter_levels (levels_of filter.now)) }
    ensures { result ≡ fitting.fits_levels (levels_of filter.now) (levels_of name.now) }
{
    let mut read = 0;
    for (at, byte) in filter.iter().enumerate() {
        match *byte {
            b'#' => return true,
            b'+' => read += level_len(&name[read..]),
            byte => {
                // `a/#` fits `a` too.
                if read == name.len() {
                    return &filter[at..] == b"/#".as_slice();
                }
                if name[read] != byte {
                    return false;
                }
                read += 1;
            }
        }
    }
    read == name.len()
}
