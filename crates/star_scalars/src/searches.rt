//! Where a text stands in another one.
ghost use Rattle.std.specs.Prelude.{◌≡◌, ◌+◌, ◌≤◌, IfNone, IfSome, IsTrue, None, Some, drop};
ghost use Rattle.std.specs.Prelude.{length, take};
ghost use Rattle.star_scalars.specs.Searches as spec;

pub fn begins(text: &[char], front: &[char]) -> bool
    ensures value { result ≡ spec.begins text.now front.now }
    ensures shorter { IsTrue result → length front.now ≤ length text.now }
{
    text.starts_with(front)
}

pub fn ends(text: &[char], behind: &[char]) -> bool
    ensures value { result ≡ spec.ends text.now behind.now }
    ensures shorter { IsTrue result → length behind.now ≤ length text.now }
{
    text.ends_with(behind)
}

/// The least index at which a text stands.
pub fn first_index(sub: &[char], text: &[char]) -> Option<usize>
    ensures index { result ≡ spec.first_index sub.now text.now }
    ensures within { IfSome result (λ at. at + length sub.now ≤ length text.now) }
{
    let mut rest = text;
    let mut index = 0usize;
    'looking: while let [_, more @ ..] = rest {
        if begins(rest, sub) {
            return Some(index);
        }
        rest = more;
        index += 1;
    }
    if begins(rest, sub) { Some(index) } else { None }
}

/// The greatest index at which a text stands.
pub fn last_index(sub: &[char], text: &[char]) -> Option<usize>
    ensures index { result ≡ spec.last_index sub.now text.now }
    ensures within { IfSome result (λ at. at + length sub.now ≤ length text.now) }
{
    let mut rest = text;
    let mut index = 0usize;
    let mut last = None;
    'looking: while let [_, more @ ..] = rest {
        if begins(rest, sub) {
            last = Some(index);
        }
        rest = more;
        index += 1;
    }
    if begins(rest, sub) { Some(index) } else { last }
}

/// What stands before and behind the first place of a text.
pub fn cut_first<'t>(sub: &[char], text: &'t [char]) -> Option<(&'t [char], &'t [char])>
    ensures none { IfNone result (spec.cut_first sub.now text.now ≡ None) }
    ensures parts { IfSome result (λ parts. spec.cut_first sub.now text.now
        ≡ Some (parts.0.now, parts.1.now)) }
{
    let index = first_index(sub, text)?;
    Some(parts_round(sub.len(), text, index))
}

/// What stands before and behind the last place of a text.
pub fn cut_last<'t>(sub: &[char], text: &'t [char]) -> Option<(&'t [char], &'t [char])>
    ensures none { IfNone result (spec.cut_last sub.now text.now ≡ None) }
    ensures parts { IfSome result (λ parts. spec.cut_last sub.now text.now
        ≡ Some (parts.0.now, parts.1.now)) }
{
    let index = last_index(sub, text)?;
    Some(parts_round(sub.len(), text, index))
}

fn parts_round(long: usize, text: &[char], index: usize) -> (&[char], &[char])
    requires { index + long ≤ length text.now }
    ensures before { result.0.now ≡ take index text.now }
    ensures behind { result.1.now ≡ drop (index + long) text.now }
{
    let (before, _) = text.split_at(index);
    let (_, behind) = text.split_at(index + long);
    (before, behind)
}

/// A text without another one at its front.
pub fn without_prefix<'t>(front: &[char], text: &'t [char]) -> &'t [char]
    ensures { result.now ≡ spec.without_prefix front.now text.now }
{
    if begins(text, front) {
        text.split_at(front.len()).1
    } else {
        text
    }
}

/// A text without another one at its end.
pub fn without_suffix<'t>(behind: &[char], text: &'t [char]) -> &'t [char]
    ensures { result.now ≡ spec.without_suffix behind.now text.now }
{
    if ends(text, behind) {
        text.split_at(text.len() - behind.len()).0
    } else {
        text
    }
}
