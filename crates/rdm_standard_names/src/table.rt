//! A table of the standard, by number and by name.

ghost use Rattle.std.specs.Prelude.{◌≡◌, find, option_map};
ghost use Rattle.std.specs.Str.{bytes_eq, str_eq_ignore_ascii_case};
ghost use Rattle.rdm_standard_names.specs.Tables.{has_name, name_of, number_like, number_of, rows_of};

/// A table of the standard: numbers, each with its words, a row each.
#[derive(Clone, Copy)]
pub struct Table(pub &'static [(u32, &'static str)]);

impl Table {
    /// The words of a number, or `None` if the table has none for it.
    pub fn name(self, number: u32) -> Option<&'static str>
        ensures { option_map (λ text. text.now) result ≡ name_of self number }
    {
        match self.0.iter().find(|row| row.0 == number) {
            Some(row) => Some(row.1),
            None => None,
        }
    }

    /// Whether the table has words for a number.
    pub fn has(self, number: u32) -> bool
        ensures { result ≡ has_name self number }
    {
        self.0.iter().any(|row| row.0 == number)
    }

    /// The number of the first row with exactly these words, or `None` if there is none.
    pub fn number(self, name: &str) -> Option<u32>
        ensures { result ≡ number_of (rows_of self) name.now }
    {
        self.number_among(name)
    }

    fn number_among(self, name: &str) -> Option<u32>
        ensures { result ≡ option_map (λ row. row.0) (find (λ row. bytes_eq row.1.now name.now) self.0.now) }
    {
        let row = self.0.iter().find(|row| row.1 == name)?;
        Some(row.0)
    }

    /// The number of the first row whose words differ from these in the case of letters at most, or `None` if there is none.
    pub fn number_like(self, name: &str) -> Option<u32>
        ensures { result ≡ number_like (rows_of self) name.now }
    {
        self.number_like_among(name)
    }

    fn number_like_among(self, name: &str) -> Option<u32>
        ensures { result ≡ option_map (λ row. row.0) (find (λ row. str_eq_ignore_ascii_case row.1.now name.now) self.0.now) }
    {
        let row = self.0.iter().find(|row| row.1.eq_ignore_ascii_case(name))?;
        Some(row.0)
    }
}
