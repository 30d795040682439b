// The kinds of records: which byte says which, what payload each may have, and how many of each there may be.
ghost use Rattle.std.specs.Prelude.{◌≡◌, ◌-◌, cond};
ghost use Rattle.meaning.specs.Refusals.{good, refused};
ghost use Rattle.meaning.specs.Sheet.{node_fits, known_kind, kind_at, fits as fits_kind};
ghost use Rattle.refusals.specs.Numbers.{answer};
ghost use Rattle.records.specs.Codes.{code, named};

use refusals::Refusal;

#[derive(Clone, Copy, Debug, PartialEq, Eq, PartialOrd, Ord)]
pub enum Kind {
    Count = 1,
    Cause = 2,
    Conflict = 3,
    Root = 4,
    Node = 5,
}

// How many kinds there are.
pub const KINDS: usize = 5;

// How many operands each of the eight kinds of nodes takes.
pub const OPERANDS: [usize; limits::NODE_KINDS] = [0, 1, 1, 1, 2, 2, 1, 2];

// Whether p is a known node kind and that kind's operands.
#[tactic(auto, unfolding(meaning::specs::Sheet::node_fits, meaning::specs::Sheet::node_kinds, meaning::specs::Sheet::node_kind))]
fn node_fits(p: &[u8]) -> bool
    ensures { result ≡ node_fits p.now }
{
    let Some(kind) = p.first() else {
        return false;
    };
    let Some(operands) = OPERANDS.get(*kind as usize) else {
        return false;
    };
    p.len() - 1 == *operands
}

impl TryFrom<u8> for Kind {
    type Error = Refusal;

    ghost try_from_gives = { λ k r. answer r ≡ cond (known_kind k) (good (named k)) (refused 11) };

    #[tactic(auto, unfolding(meaning::specs::Sheet::known_kind, crate::specs::Codes::named))]
    fn try_from(byte: u8) -> Result<Kind, Refusal> {
        match byte {
            1 => Ok(Kind::Count),
            2 => Ok(Kind::Cause),
            3 => Ok(Kind::Conflict),
            4 => Ok(Kind::Root),
            5 => Ok(Kind::Node),
            _ => Err(Refusal::BrokenRecord),
        }
    }
}

impl Kind {
    // The place of the kind where each has one, kind 1 first.
    pub fn place(self) -> usize
        ensures { result ≡ code self - 1 }
    {
        self as usize - 1
    }

    // The least and the greatest length of the payload. A root's path stands behind its access and event.
    #[tactic(auto, unfolding(meaning::specs::Sheet::kinds, meaning::specs::Sheet::kind_at))]
    fn least(self) -> usize
        ensures { result ≡ (kind_at (code self)).least }
    {
        match self {
            Kind::Count | Kind::Node => 1,
            Kind::Cause | Kind::Conflict => 2,
            Kind::Root => 2 + limits::ROOT_LEAST,
        }
    }

    #[tactic(auto, unfolding(meaning::specs::Sheet::kinds, meaning::specs::Sheet::kind_at))]
    fn greatest(self) -> usize
        ensures { result ≡ (kind_at (code self)).greatest }
    {
        match self {
            Kind::Count => 1,
            Kind::Cause | Kind::Conflict => 2,
            Kind::Root => 2 + limits::ROOT_MOST,
            Kind::Node => 3,
        }
    }

    // How many records of the kind there may be.
    #[tactic(auto, unfolding(meaning::specs::Sheet::kinds, meaning::specs::Sheet::kind_at))]
    pub fn most(self) -> usize
        ensures { result ≡ (kind_at (code self)).most }
    {
        match self {
            Kind::Count => 1,
            Kind::Cause => limits::CAUSES,
            Kind::Conflict => limits::CONFLICTS,
            Kind::Root => limits::ROOTS,
            Kind::Node => limits::NODES,
        }
    }

    // Whether p may be the payload.
    #[tactic(auto, unfolding(meaning::specs::Sheet::fits))]
    pub fn fits(self, p: &[u8]) -> bool
        ensures { result ≡ fits_kind (code self) p.now }
    {
        if p.len() < self.least() || self.greatest() < p.len() {
            return false;
        }
        match self {
            Kind::Node => node_fits(p),
            _ => true,
        }
    }
}
