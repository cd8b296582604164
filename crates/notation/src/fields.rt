//! Fields of a line, parted by a separator: one separator more makes one field more, and a field may be empty.
ghost use Rattle.std.specs.Prelude.{◌≡◌, ◌≤◌, [], length, slice_index_or};
ghost use Rattle.notation.specs.Fields.{fields_of};

use std::marker::Model;

/// The fields of a line. A clause sees them as a list.
#[derive(Drop)]
pub struct Fields<'a> {
    line: &'a [u8],
    separator: u8,
}

impl<'a> Model for Fields<'a> {
    ghost use Rattle.std.specs.Prelude.{ℕ, List};
    ghost use Rattle.notation.specs.Fields.{fields_of};

    ghost Value = { List (List ℕ) };

    ghost view = { λ fields. fields_of fields.separator fields.line.now };
}

impl<'a> Fields<'a> {
    /// The fields between the separators of a line.
    pub fn new(line: &'a [u8], separator: u8) -> Fields<'a>
        ensures { result ≡ fields_of separator line.now }
    {
        Fields { line, separator }
    }

    /// How many there are: at least one.
    pub fn count(&self) -> usize
        ensures value { result ≡ length self.now }
        ensures some { 1 ≤ result }
    {
        let separator = self.separator;
        // added and not branched on, since nobody can guess which bytes are separators; so few cannot wrap
        self.line.iter().fold(1, |fields: usize, byte| {
            fields.wrapping_add(usize::from(*byte == separator))
        })
    }

    /// The field at this place, counted from 0; empty where there are not so many.
    pub fn nth(&self, place: usize) -> &'a [u8]
        ensures { result.now ≡ slice_index_or self.now place [] }
    {
        let separator = self.separator;
        self.line
            .split(|byte| *byte == separator)
            .nth(place)
            .unwrap_or_default()
    }
}

#[cfg(test)]
mod tests {
    use super::*;

    #[test]
    fn counts(rt: HostRuntime) {
        let cases: [(&[u8], usize); 5] = [
            (b"", 1),
            (b"a", 1),
            (b"|", 2),
            (b"a|b|", 3),
            (b"||\xff\xfe|", 4),
        ];
        for (line, fields) in cases {
            assert_eq!(rt; Fields::new(line, b'|').count(), fields);
        }
    }

    #[test]
    fn finds_fields(rt: HostRuntime) {
        let cases: [(&[u8], usize, &[u8]); 9] = [
            (b"", 0, b""),
            (b"", 1, b""),
            (b"one|two|three", 0, b"one"),
            (b"one|two|three", 1, b"two"),
            (b"one|two|three", 2, b"three"),
            (b"one|two|three", 3, b""),
            (b"|\xff|", 0, b""),
            (b"|\xff|", 1, b"\xff"),
            (b"|\xff|", 2, b""),
        ];
        for (line, at, field) in cases {
            assert_eq!(rt; Fields::new(line, b'|').nth(at), field);
        }
    }
}
