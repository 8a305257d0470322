// Names from words, and from columns.
ghost use Rattle.std.specs.Prelude.{◌≡◌, ◌≤◌, length, if◌then◌else◌, Some, None};
ghost use Rattle.record.specs.Entries.{name};
ghost use Rattle.record.specs.Stations.{blanks, signs, signs_then_blanks, station_of, station_text};
ghost use Rattle.std.specs.Option.{option_map};
ghost use Rattle.std.specs.List.{prefix_len};
ghost use Rattle.text.specs.Signs.{sign};

use super::Station;
use text::is_sign;

impl Station {
    // The name that a word is, if it is one.
    pub fn new(word: &[u8]) -> Option<Station>
        ensures { option_map name result ≡ station_of word.now }
    {
        if word.len() < 3 || word.len() > 8 || !all_signs(word) {
            return None;
        }
        let mut text = [b' '; 8];
        text[..word.len()].copy_from_slice(word);
        Some(Station { text })
    }

    // The name that stands in eight columns, if one does.
    pub fn from_columns(text: [u8; 8]) -> Option<Station>
        ensures { option_map name result ≡ (if station_text text then Some text else None) }
    {
        if is_sign(text[2]) && signs_then_blanks(&text) {
            Some(Station { text })
        } else {
            None
        }
    }
}

fn all_signs(word: &[u8]) -> bool
    ensures { result ≡ signs word.now }
{
    word.iter().all(|b| is_sign(*b))
}

fn all_blanks(text: &[u8]) -> bool
    ensures { result ≡ blanks text.now }
{
    text.iter().all(|b| *b == b' ')
}

fn signs_at_front(text: &[u8]) -> usize
    ensures value { result ≡ prefix_len sign text.now }
    ensures within { result ≤ length text.now }
{
    text.iter().take_while(|b| is_sign(**b)).count()
}

fn signs_then_blanks(text: &[u8]) -> bool
    ensures { result ≡ signs_then_blanks text.now }
{
    all_blanks(&text[signs_at_front(text)..])
}
