//! Takes texts apart at a sign.
ghost use Rattle.std.specs.Prelude.{◌≡◌, ◌≤◌, ◌-◌, length, take, drop};
ghost use Rattle.trace_chart_picture.specs.Cuts as spec;

/// The text in front of the first such sign, all of it where there is none.
pub(crate) fn before(text: &[u8], sign: u8) -> &[u8]
    ensures { result.now ≡ spec.before sign text.now }
{
    let mut i = 0;
    while i < text.len() && text[i] != sign {
        i += 1;
    }
    &text[..i]
}

/// The text behind the first such sign, nothing where there is none.
pub(crate) fn after(text: &[u8], sign: u8) -> &[u8]
    ensures { result.now ≡ spec.after sign text.now }
{
    let mut rest = text;
    while let [b, more @ ..] = rest {
        if *b == sign {
            return more;
        }
        rest = more;
    }
    rest
}

/// The first word of a text.
pub(crate) fn first(text: &[u8]) -> &[u8]
    ensures { result.now ≡ spec.first text.now }
{
    before(text, b' ')
}

/// What stands behind the first word and its blank: nothing where there is no blank.
pub(crate) fn rest(text: &[u8]) -> &[u8]
    ensures { result.now ≡ spec.rest text.now }
{
    after(text, b' ')
}

/// What stands behind the first two words.
pub(crate) fn behind_two(text: &[u8]) -> &[u8]
    ensures { result.now ≡ spec.rest (spec.rest text.now) }
{
    rest(rest(text))
}

/// Where the last word of a text begins.
#[tactic(auto, using(crate::proofs::Places::last_place, crate::proofs::Places::front_place, crate::proofs::Places::last_none, crate::proofs::Places::front_none))]
fn last_place(text: &[u8]) -> usize
    ensures within { result ≤ length text.now }
    ensures last { spec.last text.now ≡ drop result text.now }
    ensures front { spec.front text.now ≡ take (result - 1) text.now }
{
    let mut i = text.len();
    while i > 0 {
        if text[i - 1] == b' ' {
            return i;
        }
        i -= 1;
    }
    0
}

/// What stands in front of the last blank: nothing where there is none.
pub(crate) fn front(text: &[u8]) -> &[u8]
    ensures { result.now ≡ spec.front text.now }
{
    let place = last_place(text);
    &text[..place.saturating_sub(1)]
}

/// The last word of a text.
pub(crate) fn last(text: &[u8]) -> &[u8]
    ensures { result.now ≡ spec.last text.now }
{
    &text[last_place(text)..]
}

/// What stands in front of the last four words.
pub(crate) fn front_of_four(text: &[u8]) -> &[u8]
    ensures { result.now ≡ spec.front_of_four text.now }
{
    front(front(front(front(text))))
}
