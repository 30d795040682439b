// Sets of events as whole numbers, and what a session may still take. Each test looks at each event, then at each cause or conflict. A sheet need not
// be sound for that: it is enough that a set has room for its events.
#![tactic(auto)]

ghost use Rattle.std.specs.Prelude.{◌≡◌, ◌&&◌, ◌≤◌, ◌<◌};
ghost use Rattle.meaning.specs.Limits.{events_most};
ghost use Rattle.meaning.specs.Sets.{mem, added as added_to, apart as apart_in, within as within_in};
ghost use Rattle.meaning.specs.Events.{possible as possible_in, supported as supported_in, closed as closed_by, allowed as allowed_by};
ghost use Rattle.sheet.specs.Sound.{rules_in};

use sheet::Sheet;

// Whether event e is in x.
pub fn has(x: u32, e: usize) -> bool
    requires { e < events_most }
    ensures { result ≡ mem e x }
{
    bits::bit(u64::from(x), e)
}

// x with event e.
pub fn added(x: u32, e: usize) -> u32
    requires { e < events_most }
    ensures { result ≡ added_to e x }
{
    x | (1 << e)
}

// Whether no event below n is in both.
pub fn apart(n: usize, x: u32, y: u32) -> bool
    requires { n ≤ events_most }
    ensures { result ≡ apart_in n x y }
{
    (0..n).all(|e| !(has(x, e) && has(y, e)))
}

// Whether each event below n that is in x is in y.
pub fn within(n: usize, x: u32, y: u32) -> bool
    requires { n ≤ events_most }
    ensures { result ≡ within_in n x y }
{
    (0..n).all(|e| !has(x, e) || has(y, e))
}

// Whether event e conflicts with no member of x.
pub fn possible(s: &Sheet, x: u32, e: usize) -> bool
    requires { (s.now.events ≤ events_most) × (e < events_most) }
    ensures { result ≡ possible_in (rules_in s.now) e x }
{
    apart(s.events, s.conflicts[e], x)
}

// Whether x holds every cause of event e.
pub fn supported(s: &Sheet, x: u32, e: usize) -> bool
    requires { (s.now.events ≤ events_most) × (e < events_most) }
    ensures { result ≡ supported_in (rules_in s.now) e x }
{
    within(s.events, s.needs[e], x)
}

// Whether event e conflicts with no member of x, and x holds every cause of it.
fn fits(s: &Sheet, x: u32, e: usize) -> bool
    requires { (s.now.events ≤ events_most) × (e < events_most) }
    ensures { result ≡ (possible_in (rules_in s.now) e x && supported_in (rules_in s.now) e x) }
{
    possible(s, x, e) && supported(s, x, e)
}

// Whether no further event can be added to x.
pub fn closed(s: &Sheet, x: u32) -> bool
    requires { s.now.events ≤ events_most }
    ensures { result ≡ closed_by (rules_in s.now) x }
{
    (0..s.events).all(|e| has(x, e) || !fits(s, x, e))
}

// Whether x is conflict-free and holds every cause of each member.
pub fn allowed(s: &Sheet, x: u32) -> bool
    requires { s.now.events ≤ events_most }
    ensures { result ≡ allowed_by (rules_in s.now) x }
{
    (0..s.events).all(|e| !has(x, e) || fits(s, x, e))
}
