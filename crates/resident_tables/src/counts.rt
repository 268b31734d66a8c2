//! How many rows and bytes a table has.
ghost use Rattle.std.specs.Prelude.{◌≡◌, true};
ghost use Rattle.std.specs.Option.{option_copied};
ghost use Rattle.resident_tables.specs.Counted.{within, counts_less, counts_put, if_within, HasRow, bytes_after};

use service_api::Row;

/// How many rows there are, and how many bytes they take.
#[derive(Clone, Copy, PartialEq, Eq)]
pub struct Counts {
    /// The number of rows.
    pub rows: usize,
    /// The bytes of all rows.
    pub bytes: u64,
}

impl Counts {
    /// The counts without the row, which is among those counted.
    pub fn without(self, old: Option<&Row>) -> Counts
        requires counted { HasRow (option_copied old) self }
        requires within { within self ≡ true }
        ensures { result ≡ counts_less (option_copied old.entry) self }
    {
        match old {
            Some(row) => Counts {
                rows: self.rows - 1,
                bytes: self.bytes - row.size(),
            },
            None => self,
        }
    }

    /// The counts with a row of that size in the place of `old`, or `None` where they pass the limits.
    pub fn with(self, old: Option<&Row>, size: u64) -> Option<Counts>
        requires counted { HasRow (option_copied old) self }
        requires within { within self ≡ true }
        ensures { result ≡ if_within (counts_put (option_copied old.entry) size self) }
    {
        let rest = self.without(old);
        let counts = Counts {
            rows: rest.rows + 1,
            bytes: rest.bytes.saturating_add(size),
        };
        if counts.rows <= 1024 && counts.bytes <= 1_048_576 {
            Some(counts)
        } else {
            None
        }
    }
}

/// The bytes that the changed rows take, if there was a change, and else those of the rows before.
pub fn bytes_after(counted: Option<Counts>, bytes: u64) -> u64
    ensures { result ≡ bytes_after counted bytes }
{
    match counted {
        Some(counts) => counts.bytes,
        None => bytes,
    }
}
