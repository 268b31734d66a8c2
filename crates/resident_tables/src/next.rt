//! The next key to be given out.
ghost use Rattle.std.specs.Prelude.{◌≡◌};
ghost use Rattle.service_api.specs.Rows.{fresh_key, key_after};

/// Gives the next key out, and none where it is the last.
pub fn take_key(next: &mut i64) -> Option<i64>
    ensures key { result ≡ fresh_key next.old }
    ensures after { next.new ≡ key_after next.old }
{
    if *next == i64::MAX {
        return None;
    }
    let key = *next;
    *next = key + 1;
    Some(key)
}
