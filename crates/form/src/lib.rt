// The form of a path: one or more segments, each preceded by one "/", none empty, "." or "..", no zero byte, nothing after the last.
// Roots obey the same form.
#![tactic(auto)]

ghost use Rattle.std.specs.Prelude.{◌≡◌};
ghost use Rattle.meaning.specs.Path.{segment_ok, well_formed};

// Whether s may be a segment.
fn segment_ok(s: &[u8]) -> bool
    ensures { result ≡ segment_ok s.now }
{
    !s.is_empty() && s != b".".as_slice() && s != b"..".as_slice() && !s.contains(&0)
}

pub fn well_formed(p: &[u8]) -> bool
    ensures { result ≡ well_formed p.now }
{
    let Some(rest) = p.strip_prefix(b"/") else {
        return false;
    };
    rest.split(|b| *b == b'/').all(segment_ok)
}
