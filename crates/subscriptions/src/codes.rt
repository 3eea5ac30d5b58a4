//! What a SUBACK says of the filters that were asked (MQTT 3.1.1, section 3.9.3).

ghost use Rattle.std.specs.Prelude.{◌≡◌, ◌&&◌, nat_lt, nat_le, reverse};
ghost use Rattle.std.specs.List.{list_any, zip, find};
ghost use Rattle.std.specs.Option.{option_map};
ghost use Rattle.std.specs.Str.{bytes_eq};
ghost use Rattle.agent_table.specs.Filters.{is_one_of};
ghost use Rattle.agent_table.specs.Routes.{coded, granted_in, refused_in, last_asked};

use list_types::Text;
use mqtt_packet::{Ask, Qos};

/// Whether a pair of this filter is granted.
pub fn grants(asks: &[Ask], codes: &[u8], filter: &Text) -> bool
    ensures { result ≡ list_any (λ pair. nat_lt pair.1 128 && bytes_eq pair.0.filter filter.now) (zip asks.now codes.now) }
{
    asks.iter()
        .zip(codes)
        .any(|(ask, code)| *code < 128 && ask.filter == *filter)
}

/// Whether a pair of this filter is refused.
pub fn refuses(asks: &[Ask], codes: &[u8], filter: &Text) -> bool
    ensures { result ≡ list_any (λ pair. nat_le 128 pair.1 && bytes_eq pair.0.filter filter.now) (zip asks.now codes.now) }
{
    asks.iter()
        .zip(codes)
        .any(|(ask, code)| *code >= 128 && ask.filter == *filter)
}

/// The quality of service that the last pair of this filter asks for.
pub fn last_asked(asks: &[Ask], filter: &Text) -> Option<Qos>
    ensures { result ≡ option_map (λ ask. ask.qos) (find (λ ask. bytes_eq ask.filter filter.now) (reverse asks.now)) }
{
    asks.iter()
        .rev()
        .find(|ask| ask.filter == *filter)
        .map(|ask| ask.qos)
}

/// The quality of service that the first pair of this filter asks for.
pub fn first_asked(asks: &[Ask], filter: &Text) -> Option<Qos>
    ensures { result ≡ option_map (λ ask. ask.qos) (find (λ ask. bytes_eq ask.filter filter.now) asks.now) }
{
    asks.iter()
        .find(|ask| ask.filter == *filter)
        .map(|ask| ask.qos)
}
