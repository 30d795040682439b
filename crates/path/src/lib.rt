// The path question: which event an access to a path is, the root that it lies under as it stands in the sheet, and what follows the root.
#![tactic(auto)]

ghost use Rattle.std.specs.Prelude.{◌≡◌, ◌+◌, ◌≤◌, length, drop};
ghost use Rattle.meaning.specs.Path.{edge};
ghost use Rattle.meaning.specs.Question.{question};
ghost use Rattle.refusals.specs.Numbers.{answer};
ghost use Rattle.path.specs.Places.{root_place};
ghost use Rattle.path.specs.Search.{RootFrame, Accepted, Best, Answers, size_of, worth_it};
ghost use Rattle.path.specs.Questions.{PartAt, event_of, root_of, rest_of};

use records::{Frame, Kind};
use refusals::Refusal;
use sheet::load;

// Where a root's path stands in the sheet, and its event.
#[derive(Clone, Copy)]
pub struct Span {
    pub at: usize,
    pub len: usize,
    pub event: u8,
}

// Whether the record at f is a root of the access, longer than the best so far and no longer than the path.
#[tactic(auto, unfolding(crate::specs::Search::worth_it))]
fn worth(sheet: &[u8], f: Frame, access: u32, path: &[u8], best: Option<Span>) -> bool
    requires { RootFrame sheet.now f }
    ensures { result ≡ worth_it sheet.now f access (length path.now) (size_of best) }
{
    let most = best.map_or(0, |b| b.len);
    f.kind == Kind::Root
        && u32::from(sheet[f.start]) == access
        && most < f.len - 2
        && f.len - 2 <= path.len()
}

// Whether the path ends at n, or goes on with "/".
#[tactic(auto, using(crate::proofs::Covering::edge_more, crate::proofs::Covering::edge_end))]
fn edge_at(path: &[u8], n: usize) -> bool
    requires { n ≤ length path.now }
    ensures { result ≡ edge (drop n path.now) }
{
    match path.get(n) {
        Some(b) => *b == b'/',
        None => true,
    }
}

// The longest root of the access that covers the path, in a sheet that was accepted. The first differing byte sends the search on to the next root:
// a labelled walk with the bytes compared one by one, as document 01 names this form.
fn find(sheet: &[u8], access: u32, path: &[u8]) -> Option<Span>
    requires { Accepted sheet.now }
    ensures { Best sheet.now access path.now result }
{
    let mut best = None;
    let mut at = 0;
    'roots: while at < sheet.len() {
        let Ok(f) = records::read_at(sheet, at) else {
            break 'roots;
        };
        at = f.next;
        if !worth(sheet, f, access, path, best) {
            continue 'roots;
        }
        let e = f.start + 1;
        let a = e + 1;
        let m = f.len - 2;
        for k in 0..m {
            if sheet[a + k] != path[k] {
                continue 'roots;
            }
        }
        if edge_at(path, m) {
            best = Some(Span {
                at: a,
                len: m,
                event: sheet[e],
            });
        }
    }
    best
}

// The root that the path lies under. The sheet is judged first. An access is a number, for any may be asked: what is not 0 or 1 is 34.
fn judge(sheet: &[u8], access: u32, path: &[u8]) -> Result<Span, Refusal>
    ensures { Answers sheet.now access path.now result }
{
    load(sheet)?;
    if 1 < access {
        return Err(Refusal::UnknownAccess);
    }
    if path.is_empty() {
        return Err(Refusal::PathLength);
    }
    if limits::PATH < path.len() {
        return Err(Refusal::PathLength);
    }
    if !form::well_formed(path) {
        return Err(Refusal::MalformedPath);
    }
    find(sheet, access, path).ok_or(Refusal::NoRoot)
}

// The event of an access to a path.
pub fn event_of(sheet: &[u8], access: u32, path: &[u8]) -> Result<u8, Refusal>
    ensures { answer result ≡ event_of (question sheet.now access path.now) }
{
    Ok(judge(sheet, access, path)?.event)
}

// The root that the path lies under, as and where it stands in the sheet: the same bytes may stand elsewhere in it. On refusal the empty part at its front.
pub fn root_of<'s, 'p>(sheet: &'s [u8], access: u32, path: &'p [u8]) -> &'s [u8]
    ensures { (result.now ≡ root_of (question sheet.now access path.now)) × PartAt (root_place sheet.now access path.now) result sheet.entry }
{
    let Ok(b) = judge(sheet, access, path) else {
        return &sheet[0..0];
    };
    let start = b.at;
    let end = start + b.len;
    &sheet[start..end]
}

// What follows a root of n bytes.
fn after<'p>(path: &'p [u8], n: usize) -> &'p [u8]
    requires { n ≤ length path.now }
    ensures { (result.now ≡ drop n path.now) × PartAt n result path.entry }
{
    &path[n..]
}

// What follows the root in the path; empty on refusal.
pub fn rest_of<'s, 'p>(sheet: &'s [u8], access: u32, path: &'p [u8]) -> &'p [u8]
    ensures { (result.now ≡ rest_of (question sheet.now access path.now)) × PartAt (length (root_of (question sheet.now access path.now))) result path.entry }
{
    let Ok(b) = judge(sheet, access, path) else {
        return &path[0..0];
    };
    after(path, b.len)
}
