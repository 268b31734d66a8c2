//! Reads the first line, which gives the version.
ghost use Rattle.std.specs.Prelude.{◌≡◌};
ghost use Rattle.line_reader.specs.Headers.{version_by};

use crate::words::is;
use plan_base::Version;

/// The version whose first line this is, of one for each, or none.
pub fn version_of(line: &[u8], one: &[u8], two: &[u8]) -> Option<Version>
    ensures { result ≡ version_by one.now two.now line.now }
{
    if is(line, one) {
        Some(Version::One)
    } else if is(line, two) {
        Some(Version::Two)
    } else {
        None
    }
}
